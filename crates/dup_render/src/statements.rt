// The marks of statements.
ghost use Rattle.std.specs.Prelude.{◌≡◌, ◌++◌, OnOk};
ghost use Rattle.dup_model.specs.Here.{on_key};
ghost use Rattle.dup_model.specs.Links.{link, link_via, linked_to};
ghost use Rattle.dup_model.specs.Marks.{if_marks, statement_marks, body_marks};
ghost use Rattle.dup_model.specs.Names.{kind_named as kind_of_named};
ghost use Rattle.dup_model.specs.Turns.{bodies, turns};
ghost use Rattle.dup_render.specs.Lists.{AreRead};
ghost use Rattle.dup_render.specs.Rows.{item_of, keys_of, kind_of};

use crate::here::Here;
use crate::links::{put_opening, put_target_read, target_path};
use crate::lists::keys_once;
use crate::marks::{
    Marked, put, put_embed_via, put_field, put_field_read, put_key, put_order_reads, put_plain,
};
use crate::order::rows_by;
use crate::rows::{Rows, rows_of};
use dup_model::Mark;
use dup_names::{Key, Name, NoMemory, Path};
use dup_records::Content;
use dup_template::Statement;
use std::alloc::Global;

#[cycle(statements)]
fn put_if(
    alloc: Global,
    content: &Content,
    here: &Here,
    name: &Name,
    body: &[Statement],
    out: &mut Marked,
) -> Result<(), NoMemory>
    requires { AreRead content.now out.old.lists }
    ensures marks { OnOk result (out.new.marks.items ≡ out.old.marks.items
        ++ on_key here.now.key
        (if_marks content.now here.now.kind name.now (body_marks content.now body.now here.now))) }
    ensures lists { OnOk result (AreRead content.now out.new.lists) }
{
    let Some(key) = &here.key else {
        return Ok(());
    };
    let field = put_field_read(content, here.kind, name, key, &mut out.marks)?;
    let is_empty = content.text(here.kind, key, field).is_empty();
    if is_empty {
        Ok(())
    } else {
        put_body(alloc, content, here, body, out)
    }
}

#[cycle(statements)]
fn put_bodies(
    alloc: Global,
    content: &Content,
    kind: u16,
    keys: &[Key],
    body: &[Statement],
    out: &mut Marked,
) -> Result<(), NoMemory>
    requires { AreRead content.now out.old.lists }
    ensures marks { OnOk result (out.new.marks.items
        ≡ out.old.marks.items ++ bodies kind (body_marks content.now body.now) keys.now) }
    ensures lists { OnOk result (AreRead content.now out.new.lists) }
{
    for key in keys {
        let here = Here {
            kind,
            key: Some(*key),
        };
        put_body(alloc, content, &here, body, out)?;
    }
    Ok(())
}

#[cycle(statements)]
fn put_turns(
    alloc: Global,
    content: &Content,
    rows: &Rows,
    order: &Option<Name>,
    body: &[Statement],
    out: &mut Marked,
) -> Result<(), NoMemory>
    requires { AreRead content.now out.old.lists }
    ensures marks { OnOk result (out.new.marks.items ≡ out.old.marks.items
        ++ turns content.now (kind_of rows.now) order.now (body_marks content.now body.now)
        (item_of rows.now) (keys_of content.now rows.now)) }
    ensures lists { OnOk result (AreRead content.now out.new.lists) }
{
    let kind = rows.kind();
    put(Mark::Read(rows.item()), &mut out.marks)?;
    let keys = keys_once(alloc, content, rows, &mut out.lists)?;
    put_order_reads(content, kind, order, &keys, &mut out.marks)?;
    let keys = rows_by(content, kind, order, keys);
    put_bodies(alloc, content, kind, &keys, body, out)
}

#[cycle(statements)]
fn put_anchor(
    alloc: Global,
    content: &Content,
    here: &Here,
    path: &Path,
    body: &[Statement],
    out: &mut Marked,
) -> Result<(), NoMemory>
    requires { AreRead content.now out.old.lists }
    ensures marks { OnOk result (out.new.marks.items
        ≡ out.old.marks.items ++ linked_to (Some path.now) (body_marks content.now body.now here.now)) }
    ensures lists { OnOk result (AreRead content.now out.new.lists) }
{
    put_opening(alloc, path, &mut out.marks)?;
    put_body(alloc, content, here, body, out)?;
    put_plain(alloc, b"</a>", &mut out.marks)
}

#[cycle(statements)]
fn put_link(
    alloc: Global,
    content: &Content,
    here: &Here,
    template: &Name,
    to: &Option<Key>,
    body: &[Statement],
    out: &mut Marked,
) -> Result<(), NoMemory>
    requires { AreRead content.now out.old.lists }
    ensures marks { OnOk result (out.new.marks.items ≡ out.old.marks.items
        ++ link content.now template.now (kind_of_named content.now.frame template.now) to.now
        (body_marks content.now body.now here.now)) }
    ensures lists { OnOk result (AreRead content.now out.new.lists) }
{
    let kind = content.kind_named(template);
    put_target_read(kind, to, &mut out.marks)?;
    match target_path(content, template, kind, to) {
        None => put_body(alloc, content, here, body, out),
        Some(path) => put_anchor(alloc, content, here, &path, body, out),
    }
}

#[cycle(statements)]
fn put_link_via(
    alloc: Global,
    content: &Content,
    here: &Here,
    template: &Name,
    via: &Name,
    body: &[Statement],
    out: &mut Marked,
) -> Result<(), NoMemory>
    requires { AreRead content.now out.old.lists }
    ensures marks { OnOk result (out.new.marks.items ≡ out.old.marks.items
        ++ on_key here.now.key
        (link_via content.now here.now.kind template.now via.now
        (body_marks content.now body.now here.now))) }
    ensures lists { OnOk result (AreRead content.now out.new.lists) }
{
    let Some(key) = &here.key else {
        return Ok(());
    };
    let field = put_field_read(content, here.kind, via, key, &mut out.marks)?;
    let to = Key::read(content.text(here.kind, key, field));
    if to.is_some() {
        put_link(alloc, content, here, template, &to, body, out)
    } else {
        put_body(alloc, content, here, body, out)
    }
}

#[cycle(statements)]
fn put_statement(
    alloc: Global,
    content: &Content,
    here: &Here,
    statement: &Statement,
    out: &mut Marked,
) -> Result<(), NoMemory>
    requires { AreRead content.now out.old.lists }
    ensures marks { OnOk result (out.new.marks.items
        ≡ out.old.marks.items ++ statement_marks content.now statement.now here.now) }
    ensures lists { OnOk result (AreRead content.now out.new.lists) }
{
    match statement {
        Statement::Say(words) => put_plain(alloc, words.bytes(), &mut out.marks),
        Statement::Nl => put_plain(alloc, b"\n", &mut out.marks),
        Statement::Field(name) => put_field(alloc, content, here, name, &mut out.marks),
        Statement::Key => put_key(alloc, here, &mut out.marks),
        Statement::If { field, body } => put_if(alloc, content, here, field, body.items(), out),
        Statement::Each {
            kind,
            by,
            order,
            body,
        } => match rows_of(content, kind, by, &here.key) {
            None => Ok(()),
            Some(rows) => put_turns(alloc, content, &rows, order, body.items(), out),
        },
        Statement::Embed { template, via } => match via {
            None => put(
                Mark::Hole(content.object_of(template, &here.key)),
                &mut out.marks,
            ),
            Some(via) => put_embed_via(content, here, template, via, &mut out.marks),
        },
        Statement::Link {
            template,
            via,
            body,
        } => match via {
            None => put_link(alloc, content, here, template, &here.key, body.items(), out),
            Some(via) => put_link_via(alloc, content, here, template, via, body.items(), out),
        },
    }
}

/// Puts the marks of statements, one after another.
#[cycle(statements)]
pub(crate) fn put_body(
    alloc: Global,
    content: &Content,
    here: &Here,
    body: &[Statement],
    out: &mut Marked,
) -> Result<(), NoMemory>
    requires { AreRead content.now out.old.lists }
    ensures marks { OnOk result (out.new.marks.items
        ≡ out.old.marks.items ++ body_marks content.now body.now here.now) }
    ensures lists { OnOk result (AreRead content.now out.new.lists) }
{
    for statement in body {
        put_statement(alloc, content, here, statement, out)?;
    }
    Ok(())
}

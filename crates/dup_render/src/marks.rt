// The marks of the statements without a body.
ghost use Rattle.std.specs.Prelude.{◌≡◌, ◌++◌, ◌∷◌, [], IfOk, OnOk, map};
ghost use Rattle.dup_names.specs.declared.object.Item.TheVariants as item;
ghost use Rattle.dup_model.specs.declared.mark.Mark.TheVariants as mark;
ghost use Rattle.dup_model.specs.Here.{on_key};
ghost use Rattle.dup_model.specs.Marks.{field_marks, via_marks};
ghost use Rattle.dup_model.specs.Names.{field_at};
ghost use Rattle.dup_model.specs.Turns.{order_reads};

use crate::escape::escape;
use crate::here::Here;
use crate::lists::Lists;
use dup_lists::Listed;
use dup_model::Mark;
use dup_names::{Item, Key, Name, NoMemory};
use dup_records::Content;
use std::alloc::Global;

/// The marks so far.
pub(crate) type Marks = Vec<Mark>;

/// The marks so far, and the lists and groups that were read for them.
#[derive(Drop)]
pub(crate) struct Marked {
    pub(crate) marks: Marks,
    pub(crate) lists: Lists,
}

/// Puts one mark.
pub(crate) fn put(mark: Mark, out: &mut Marks) -> Result<(), NoMemory>
    ensures { OnOk result (out.new.items ≡ out.old.items ++ mark ∷ []) }
{
    out.push(mark)?;
    Ok(())
}

/// Puts bytes as they are shown.
pub(crate) fn put_plain(alloc: Global, bytes: &[u8], out: &mut Marks) -> Result<(), NoMemory>
    ensures { OnOk result (out.new.items ≡ out.old.items ++ mark.Plain bytes.now ∷ []) }
{
    let bytes = Vec::from_slice(alloc, bytes)?;
    put(Mark::Plain(Listed::of(bytes)), out)
}

/// Puts the mark that a row's field is read, and gives the number of the field.
pub(crate) fn put_field_read(
    content: &Content,
    kind: u16,
    name: &Name,
    key: &Key,
    out: &mut Marks,
) -> Result<u16, NoMemory>
    ensures mark { OnOk result (out.new.items
        ≡ out.old.items
        ++ mark.Read (item.Field kind key.now (field_at content.now.frame kind name.now)) ∷ []) }
    ensures field { IfOk result (λ field. field ≡ field_at content.now.frame kind name.now) }
{
    let field = content.field_number(kind, name);
    let item = Item::Field {
        kind,
        key: *key,
        field,
    };
    put(Mark::Read(item), out)?;
    Ok(field)
}

/// Puts the marks of `field`.
pub(crate) fn put_field(
    alloc: Global,
    content: &Content,
    here: &Here,
    name: &Name,
    out: &mut Marks,
) -> Result<(), NoMemory>
    ensures { OnOk result (out.new.items
        ≡ out.old.items ++ on_key here.now.key (field_marks content.now here.now.kind name.now)) }
{
    let Some(key) = &here.key else {
        return Ok(());
    };
    let field = put_field_read(content, here.kind, name, key, out)?;
    let shown = escape(alloc, content.text(here.kind, key, field))?;
    put(Mark::Plain(Listed::of(shown)), out)
}

/// Puts the marks of `key`.
pub(crate) fn put_key(alloc: Global, here: &Here, out: &mut Marks) -> Result<(), NoMemory>
    ensures { OnOk result (out.new.items
        ≡ out.old.items ++ on_key here.now.key (λ key. mark.Plain key ∷ [])) }
{
    match &here.key {
        None => Ok(()),
        Some(key) => put_plain(alloc, key.bytes(), out),
    }
}

/// Puts the marks of `embed` by a field.
pub(crate) fn put_embed_via(
    content: &Content,
    here: &Here,
    template: &Name,
    via: &Name,
    out: &mut Marks,
) -> Result<(), NoMemory>
    ensures { OnOk result (out.new.items
        ≡ out.old.items ++ on_key here.now.key (via_marks content.now here.now.kind template.now via.now)) }
{
    let Some(key) = &here.key else {
        return Ok(());
    };
    let field = put_field_read(content, here.kind, via, key, out)?;
    match Key::read(content.text(here.kind, key, field)) {
        None => Ok(()),
        to => put(Mark::Hole(content.object_of(template, &to)), out),
    }
}

fn put_reads(kind: u16, field: u16, keys: &[Key], out: &mut Marks) -> Result<(), NoMemory>
    ensures { OnOk result (out.new.items
        ≡ out.old.items ++ map (λ q. mark.Read (item.Field kind q field)) keys.now) }
{
    for key in keys {
        let item = Item::Field {
            kind,
            key: *key,
            field,
        };
        put(Mark::Read(item), out)?;
    }
    Ok(())
}

/// Puts the marks that the field of an order is read, of each of these rows of a kind.
pub(crate) fn put_order_reads(
    content: &Content,
    kind: u16,
    order: &Option<Name>,
    keys: &[Key],
    out: &mut Marks,
) -> Result<(), NoMemory>
    ensures { OnOk result (out.new.items ≡ out.old.items ++ order_reads content.now kind order.now keys.now) }
{
    match order {
        None => Ok(()),
        Some(order) => put_reads(kind, content.field_number(kind, order), keys, out),
    }
}

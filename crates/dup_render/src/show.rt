// What an object shows.
ghost use Rattle.std.specs.Prelude.{◌≡◌, ◌↔◌, ◌++◌, IsTrue, IfOk, OnOk};
ghost use Rattle.dup_model.specs.Jobs.{IsJob};
ghost use Rattle.dup_model.specs.Marks.{kind_from, marks};
ghost use Rattle.dup_model.specs.Names.{kind_of};
ghost use Rattle.dup_model.specs.Show.{show, show_below, shown};
ghost use Rattle.dup_render.specs.Lists.{AreRead};

use crate::here::Here;
use crate::marks::{Marked, put};
use crate::statements::put_body;
use dup_model::Mark;
use dup_names::{Item, NoMemory, Obj};
use dup_records::Content;
use std::alloc::Global;
use std::collections::BTreeMap;

// The number of a template's kind, 0 where it has none.
fn kind_from(content: &Content, template: u16) -> u16
    ensures { result ≡ kind_from content.now.frame (kind_of content.now.frame template) }
{
    match content.kind_of(template) {
        None => 0,
        Some(name) => content.kind_number(&name),
    }
}

/// That an object's template is read, and what its statements give, up to each embedding. Each list and
/// each group is read once.
pub(crate) fn marks_of(alloc: Global, content: &Content, obj: &Obj) -> Result<Marked, NoMemory>
    ensures marks { IfOk result (λ made. made.marks.items ≡ marks content.now obj.now) }
    ensures lists { IfOk result (λ made. AreRead content.now made.lists) }
{
    let here = Here {
        kind: kind_from(content, obj.template),
        key: obj.key,
    };
    let mut out = Marked {
        marks: Vec::new(alloc),
        lists: BTreeMap::new(alloc),
    };
    let template = obj.template;
    put(Mark::Read(Item::Template { template }), &mut out.marks)?;
    let body = content.body_of(template);
    put_body(alloc, content, &here, body, &mut out)?;
    Ok(out)
}

// A good site's templates embed earlier ones, so no hole is left out.
#[cycle(show)]
fn put_shown(
    alloc: Global,
    content: &Content,
    earlier: u16,
    mark: &Mark,
    out: &mut Vec<u8>,
) -> Result<(), NoMemory>
    ensures { OnOk result (out.new.items ≡ out.old.items ++ shown (show_below content.now earlier) mark.now) }
{
    match mark {
        Mark::Plain(bytes) => {
            out.extend_from_slice(bytes.items())?;
            Ok(())
        }
        Mark::Hole(inner) => {
            if inner.template < earlier {
                put_show(alloc, content, inner, out)
            } else {
                Ok(())
            }
        }
        Mark::Read(_) => Ok(()),
        Mark::Goes(_) => Ok(()),
    }
}

#[cycle(show)]
fn put_show(alloc: Global, content: &Content, obj: &Obj, out: &mut Vec<u8>) -> Result<(), NoMemory>
    ensures { OnOk result (out.new.items ≡ out.old.items ++ show content.now obj.now) }
{
    let marked = marks_of(alloc, content, obj)?;
    for mark in &marked.marks {
        put_shown(alloc, content, obj.template, mark, out)?;
    }
    Ok(())
}

/// Whether an object can be shown: its template exists, and it has a key exactly where its template
/// has a kind. It takes no memory.
pub fn is_job(content: &Content, obj: &Obj) -> bool
    ensures { IsTrue result ↔ IsJob content.now.frame obj.now }
{
    let count = content.site().templates().len();
    let kind = content.kind_of(obj.template);
    usize::from(obj.template) < count && obj.key.is_some() == kind.is_some()
}

/// What an object shows, with all that it embeds, from scratch: an object that is embedded twice is
/// rendered twice. A row is found by a binary search and a name by a walk over its list; an `each`
/// by a field costs a search and its rows. Only want of memory is refused.
pub fn show_plain(alloc: Global, content: &Content, obj: &Obj) -> Result<Vec<u8>, NoMemory>
    requires { IsJob content.now.frame obj.now }
    ensures { IfOk result (λ made. made.items ≡ show content.now obj.now) }
{
    let mut out = Vec::new(alloc);
    put_show(alloc, content, obj, &mut out)?;
    Ok(out)
}

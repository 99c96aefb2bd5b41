// Expansion.
ghost use Rattle.std.specs.Prelude.{◌≡◌, ◌+◌, ◌-◌, ◌^◌, min, map, IfOk, OnOk, OnErr};
ghost use Rattle.std.specs.List.{flat_map};
ghost use Rattle.dup_names.specs.Order.{item_cmp, text_cmp};
ghost use Rattle.dup_names.specs.Words.{in_order};
ghost use Rattle.dup_model.specs.Content.{value};
ghost use Rattle.dup_model.specs.Expansions.{expansion};
ghost use Rattle.dup_model.specs.Jobs.{IsJob};
ghost use Rattle.dup_model.specs.Skeletons as skeletons;
ghost use Rattle.dup_render.specs.Lists.{AreRead};

use crate::expanded::Expanded;
use crate::lists::{Lists, take_value};
use crate::marks::Marked;
use crate::order::{items_in_order, paths_in_order};
use crate::pieces::pieces;
use crate::show::marks_of;
use dup_lists::Listed;
use dup_model::Mark;
use dup_names::{Item, Meter, NoMemory, Obj, Path, Skeleton};
use dup_records::Content;
use dup_template::Value;
use std::alloc::Global;
use std::sync::Arc;

// The items that marks read, as they stand.
fn items_read(alloc: Global, marks: &[Mark]) -> Result<Vec<Item>, NoMemory>
    ensures { IfOk result (λ made. made.items ≡ flat_map skeletons.read_by marks.now) }
{
    let mut items = Vec::new(alloc);
    for mark in marks {
        if let Mark::Read(item) = mark {
            items.push(*item)?;
        }
    }
    Ok(items)
}

// The paths of the links of marks, as they stand.
fn paths_linked(alloc: Global, marks: &[Mark]) -> Result<Vec<Path>, NoMemory>
    ensures { IfOk result (λ made. made.items ≡ flat_map skeletons.goes_by marks.now) }
{
    let mut paths = Vec::new(alloc);
    for mark in marks {
        if let Mark::Goes(path) = mark {
            paths.push(*path)?;
        }
    }
    Ok(paths)
}

// Each item with its value, given the lists and groups that were read.
fn with_values(
    alloc: Global,
    content: &Content,
    items: &[Item],
    lists: Lists,
) -> Result<Vec<(Item, Value)>, NoMemory>
    requires { AreRead content.now lists }
    ensures { IfOk result (λ made. made.items ≡ map (λ it. (it, value content.now it)) items.now) }
{
    let mut lists = lists;
    let mut notes = Vec::with_capacity(alloc, items.len())?;
    for item in items {
        let value = take_value(alloc, content, item, &mut lists)?;
        notes.push((*item, value))?;
    }
    Ok(notes)
}

// What marks read, in item order, each item once, with its value, given the lists and groups that were
// read.
fn notes_of(
    alloc: Global,
    content: &Content,
    marks: &[Mark],
    lists: Lists,
) -> Result<Vec<(Item, Value)>, NoMemory>
    requires { AreRead content.now lists }
    ensures { IfOk result (λ made. made.items
        ≡ map (λ it. (it, value content.now it)) (in_order item_cmp (flat_map skeletons.read_by marks.now))) }
{
    let items = items_in_order(items_read(alloc, marks)?);
    with_values(alloc, content, &items, lists)
}

fn skeleton_of(alloc: Global, marks: &[Mark]) -> Result<Skeleton, NoMemory>
    ensures pieces { IfOk result (λ made. made.pieces ≡ skeletons.pieces marks.now) }
    ensures links { IfOk result (λ made. made.links
        ≡ in_order text_cmp (flat_map skeletons.goes_by marks.now)) }
{
    let pieces = Listed::of(pieces(alloc, marks)?);
    let links = Listed::of(paths_in_order(paths_linked(alloc, marks)?));
    Ok(Skeleton { pieces, links })
}

/// What an object shows by itself, with a hole for each object that it embeds, and notes of what it
/// read. Each success counts one expansion; a refusal counts none. Only want of memory is refused.
///
/// The cost grows with what the template meets, its marks: n log n in those that read or link, and
/// a search and the keys for each group that an `each` by a field asks for. A list or a group is read of
/// the content once, for its note and for all statements that ask for it. The rest of the site's rows is
/// not gone through.
pub fn expand(
    alloc: Global,
    content: &Content,
    obj: &Obj,
    meter: &mut Meter,
) -> Result<Expanded, NoMemory>
    requires { IsJob content.now.frame obj.now }
    ensures value { IfOk result (λ made. made ≡ expansion content.now obj.now) }
    ensures counted { OnOk result (meter.new ≡ min (meter.old + 1) (2 ^ 64 - 1)) }
    ensures refused { OnErr result (meter.new ≡ meter.old) }
{
    let Marked { marks, lists } = marks_of(alloc, content, obj)?;
    let notes = notes_of(alloc, content, &marks, lists)?;
    let skeleton = Arc::new(alloc, skeleton_of(alloc, &marks)?)?;
    let site = Arc::try_clone(content.site())?;
    meter.tick();
    Ok(Expanded::of(site, *obj, notes, skeleton))
}

// What stands at a content, and what a work has left to do there.
ghost use Rattle.std.specs.Prelude.{◌≡◌, ◌++◌, ◌∷◌, [], false, IsTrue, IfOk, OnOk, OnErr, if◌then◌else◌};
ghost use Rattle.std.specs.List.{filter, flat_map};
ghost use Rattle.dup_names.specs.Order.{obj_cmp};
ghost use Rattle.dup_names.specs.Words.{in_order};
ghost use Rattle.dup_names.specs.declared.object.Obj.{Obj};
ghost use Rattle.dup_names.specs.Objects.{is_in, same_obj};
ghost use Rattle.dup_model.specs.Embeddings.{EmbedsEarlier};
ghost use Rattle.dup_model.specs.Found.{found, waiting};
ghost use Rattle.dup_model.specs.Pages as model;
ghost use Rattle.dup_model.specs.Touched.{without};
ghost use Rattle.dup_machine.specs.Closed.{IsClosed};
ghost use Rattle.dup_machine.specs.Reached.{opened};
ghost use Rattle.dup_sets.specs.Entries.{at, objs};
ghost use Rattle.dup_build.specs.Nodes.{below, children_of, ChildrenEarlier};
ghost use Rattle.dup_build.specs.Loose.{shown_by, AreStarts, HadNoLook, LeavesPages, Loosened};

use crate::node::{Node, Shown, node_children, stays};
use crate::paged::{Paged, objs_shown};
use crate::reach::reach;
use dup_names::{NoMemory, Obj, Path};
use dup_pages::pages;
use dup_records::Content;
use dup_sets::{ObjSet, Table};
use std::alloc::Global;
use std::cmp::Ordering;
use std::sync::Arc;

/// The pages of a content; the found objects that wait, and those that have no look; and objects among
/// which are all that have a skeleton, but neither are a page's nor embedded by one with a skeleton.
#[derive(Drop)]
pub(crate) struct Survey {
    pub(crate) pages: Arc<Paged, Global>,
    pub(crate) waiting: ObjSet,
    pub(crate) unjoined: ObjSet,
    pub(crate) loose: ObjSet,
}

impl Survey {
    /// Puts in more objects that wait and that have no look, none of which is there: all of them, or none.
    pub(crate) fn grow(&mut self, waiting: &[Obj], unjoined: &[Obj]) -> Result<(), NoMemory>
        requires waiting { (x : Obj) → IsTrue (is_in waiting.now x) → is_in self.old.waiting x ≡ false }
        requires unjoined { (x : Obj) → IsTrue (is_in unjoined.now x) → is_in self.old.unjoined x ≡ false }
        ensures pages { self.new.pages ≡ self.old.pages }
        ensures loose { self.new.loose ≡ self.old.loose }
        ensures waiting { OnOk result (self.new.waiting
            ≡ in_order obj_cmp (waiting.now ++ self.old.waiting)) }
        ensures unjoined { OnOk result (self.new.unjoined
            ≡ in_order obj_cmp (unjoined.now ++ self.old.unjoined)) }
        ensures err { OnErr result (self.new ≡ self.old) }
    {
        self.waiting.len();
        self.waiting.add_all(waiting)?;
        let Err(refused) = self.unjoined.add_all(unjoined) else {
            return Ok(());
        };
        self.waiting.remove_all(waiting);
        Err(refused)
    }
}

// Puts one more in, unless it is the same as before.
fn push_unless<T: Copy>(same: bool, item: &T, left: &mut Vec<T>) -> Result<(), NoMemory>
    ensures { OnOk result (left.new.items
        ≡ (if same then left.old.items else left.old.items ++ item.now ∷ [])) }
{
    if !same {
        left.push(*item)?;
    }
    Ok(())
}

// Objects among which are all that the old pages show and the new ones don't. Both are in path order, and
// the cost is that of one walk over them, side by side.
fn pages_left(alloc: Global, old: &[(Path, Obj)], new: &[(Path, Obj)]) -> Result<Vec<Obj>, NoMemory>
    ensures { IfOk result (λ left. LeavesPages old.now new.now left.items) }
{
    let mut left = Vec::new(alloc);
    let mut old_at = 0;
    let mut new_at = 0;
    while old_at < old.len() && new_at < new.len() {
        let before = &old[old_at];
        let after = &new[new_at];
        match before.0.cmp(&after.0) {
            Ordering::Less => {
                left.push(before.1)?;
                old_at += 1;
            }
            Ordering::Greater => {
                new_at += 1;
            }
            Ordering::Equal => {
                push_unless(before.1 == after.1, &before.1, &mut left)?;
                old_at += 1;
                new_at += 1;
            }
        }
    }
    let rest = objs_shown(alloc, &old[old_at..])?;
    left.extend_from_slice(&rest)?;
    Ok(left)
}

// What these objects embed, one after the other.
fn embedded_by(alloc: Global, nodes: &Table<Node>, objs: &[Obj]) -> Result<Vec<Obj>, NoMemory>
    ensures { IfOk result (λ made. made.items ≡ flat_map (λ p. children_of (at nodes.now p)) objs.now) }
{
    let mut made = Vec::new(alloc);
    for obj in objs {
        made.extend_from_slice(node_children(nodes, obj))?;
    }
    Ok(made)
}

// Objects among which are all that pages showed and show no more. The cost is that of one walk over both, side
// by side, unless the pages are the same.
fn left_by(
    alloc: Global,
    old: &[(Path, Obj)],
    new: &[(Path, Obj)],
    same: bool,
) -> Result<Vec<Obj>, NoMemory>
    requires { IsTrue same → old.now ≡ new.now }
    ensures { IfOk result (λ left. LeavesPages old.now new.now left.items) }
{
    if same {
        return Ok(Vec::new(alloc));
    }
    let left = pages_left(alloc, old, new)?;
    Ok(left)
}

// What a survey leaves loose: what was loose, what the dropped nodes embed, and the objects whose pages left.
fn loosened(
    alloc: Global,
    last: &Survey,
    nodes: &Table<Node>,
    dropped: &[Obj],
    pages: &[(Path, Obj)],
    same: bool,
) -> Result<ObjSet, NoMemory>
    requires { IsTrue same → last.now.pages.value ≡ pages.now }
    ensures { IfOk result (Loosened last.now.pages.value last.now.loose nodes.now dropped.now pages.now) }
{
    let mut loose = last.loose.list(alloc)?;
    loose.extend_from_slice(&embedded_by(alloc, nodes, dropped)?)?;
    loose.extend_from_slice(&left_by(alloc, last.pages.items(), pages, same)?)?;
    let made = ObjSet::of(alloc, &loose)?;
    Ok(made)
}

// The pages of a content: the last ones, where they are the same.
fn paged(
    alloc: Global,
    content: &Content,
    last: &Survey,
    same: bool,
) -> Result<Arc<Paged, Global>, NoMemory>
    requires { IsTrue same → last.now.pages.value ≡ model.pages content.now }
    ensures { IfOk result (λ made. made.value ≡ model.pages content.now) }
{
    if same {
        let shared = Arc::try_clone(&last.pages)?;
        return Ok(shared);
    }
    let pages = pages(alloc, content)?;
    let made = Arc::new(alloc, Paged::of(alloc, pages)?)?;
    Ok(made)
}

// Those of these objects that pages show.
fn shown_among(alloc: Global, pages: &Paged, among: &[Obj]) -> Result<Vec<Obj>, NoMemory>
    ensures { IfOk result (λ shown. shown.items ≡ filter (is_in (shown_by pages.now)) among.now) }
{
    let mut shown = Vec::new(alloc);
    for obj in among {
        if pages.shows(obj) {
            shown.push(*obj)?;
        }
    }
    Ok(shown)
}

// Where a walk starts: at the objects that the pages show, of which those that have a look which isn't stale may
// be left out. Where the pages are the same, only what is stale or had no look is tried.
fn starts(
    alloc: Global,
    last: &Survey,
    pages: &Paged,
    looks: &Table<Shown>,
    stale: &ObjSet,
    same: bool,
) -> Result<Vec<Obj>, NoMemory>
    requires { IsTrue same → HadNoLook (shown_by pages.now) looks.now last.now.unjoined }
    ensures { IfOk result (λ made. AreStarts (shown_by pages.now) looks.now stale.now made.items) }
{
    if !same {
        let all = objs_shown(alloc, pages.items())?;
        return Ok(all);
    }
    let _looks = looks;
    let mut among = stale.list(alloc)?;
    among.extend_from_slice(&last.unjoined.list(alloc)?)?;
    let shown = shown_among(alloc, pages, &among)?;
    Ok(shown)
}

// Those of these objects that aren't in a table once some are dropped from it.
fn outside_once<T>(
    alloc: Global,
    found: &[Obj],
    table: &Table<T>,
    dropped: &ObjSet,
) -> Result<ObjSet, NoMemory>
    requires { in_order obj_cmp found.now ≡ found.now }
    ensures { IfOk result (λ made. made
        ≡ without (is_in (without (is_in dropped.now) (objs table.now))) found.now) }
{
    let mut out = Vec::new(alloc);
    for obj in found {
        if !stays(table, dropped, obj) {
            out.push(*obj)?;
        }
    }
    let made = ObjSet::of(alloc, &out)?;
    Ok(made)
}

impl Survey {
    /// Nothing is seen.
    pub(crate) fn none(alloc: Global) -> Result<Survey, NoMemory>
        ensures pages { IfOk result (λ made. made.pages.value ≡ []) }
        ensures loose { IfOk result (λ made. made.loose ≡ []) }
    {
        let pages = Paged::of(alloc, Vec::new(alloc))?;
        Ok(Survey {
            pages: Arc::new(alloc, pages)?,
            waiting: ObjSet::new(alloc),
            unjoined: ObjSet::new(alloc),
            loose: ObjSet::new(alloc),
        })
    }

    /// What stands at a content once some nodes and looks are dropped, where what has a look has a node,
    /// and so has all that it embeds. The cost is that of what is dropped, of what is found past the looks
    /// that are left, and of what the dropped nodes embed; and of listing the pages and a search for each,
    /// unless they are said to be the same as the last ones.
    pub(crate) fn of(
        alloc: Global,
        content: &Content,
        last: &Survey,
        nodes: &Table<Node>,
        dropped: &ObjSet,
        looks: &Table<Shown>,
        stale: &ObjSet,
        same: bool,
    ) -> Result<Survey, NoMemory>
        requires earlier { EmbedsEarlier content.now }
        requires children { ChildrenEarlier nodes.now }
        requires nodes { (o : Obj) → below nodes.now dropped.now o
            ≡ opened content.now (without (is_in dropped.now) (objs nodes.now)) o }
        requires closed { IsClosed content.now (without (is_in dropped.now) (objs nodes.now))
            (without (is_in stale.now) (objs looks.now)) }
        requires same { IsTrue same → last.now.pages.value ≡ model.pages content.now }
        requires roots { IsTrue same →
            HadNoLook (shown_by (model.pages content.now)) looks.now last.now.unjoined }
        ensures pages { IfOk result (λ made. made.pages.value ≡ model.pages content.now) }
        ensures waiting { IfOk result (λ made. made.waiting
            ≡ waiting content.now (without (is_in dropped.now) (objs nodes.now))) }
        ensures unjoined { IfOk result (λ made. made.unjoined
            ≡ without (is_in (without (is_in stale.now) (objs looks.now)))
            (found content.now (without (is_in dropped.now) (objs nodes.now)))) }
        ensures loose { IfOk result (λ made.
            Loosened last.now.pages.value last.now.loose nodes.now dropped.now made.pages.value made.loose) }
    {
        let pages = paged(alloc, content, last, same)?;
        let roots = starts(alloc, last, &pages, looks, stale, same)?;
        let none = ObjSet::new(alloc);
        let unjoined = reach(alloc, nodes, dropped, looks, stale, &none, &roots)?;
        unjoined.len();
        let list = unjoined.list(alloc)?;
        let waiting = outside_once(alloc, &list, nodes, dropped)?;
        let gone = dropped.list(alloc)?;
        let loose = loosened(alloc, last, nodes, &gone, pages.items(), same)?;
        Ok(Survey {
            pages,
            waiting,
            unjoined,
            loose,
        })
    }
}

// What is reached.
ghost use Rattle.std.specs.Prelude.{◌≡◌, ◌↔◌, ◌∷◌, [], IsTrue, IfOk, OnOk};
ghost use Rattle.dup_names.specs.declared.object.Obj.{Obj};
ghost use Rattle.dup_names.specs.Objects.{is_in};
ghost use Rattle.dup_build.specs.Nodes.{below, seen, ChildrenEarlier};
ghost use Rattle.dup_machine.specs.Reached.{Reached, Walked};

use crate::node::{Node, Shown, node_children, stays};
use dup_names::{NoMemory, Obj};
use dup_sets::{ObjSet, Table};
use std::alloc::Global;

/// What an object embeds through a node that isn't dropped.
pub(crate) fn children<'a>(nodes: &'a Table<Node>, dropped: &ObjSet, obj: &Obj) -> &'a [Obj]
    ensures { result.now ≡ below nodes.now dropped.now obj.now }
{
    if dropped.contains(obj) {
        return &[];
    }
    node_children(nodes, obj)
}

// Whether an object has a look that isn't stale, or is one of these others.
fn is_seen(looks: &Table<Shown>, stale: &ObjSet, others: &ObjSet, obj: &Obj) -> bool
    ensures { result ≡ seen looks.now stale.now others.now obj.now }
{
    stays(looks, stale, obj) || others.contains(obj)
}

// Puts in an object and all that is below it, but for what was seen.
fn visit(
    nodes: &Table<Node>,
    dropped: &ObjSet,
    looks: &Table<Shown>,
    stale: &ObjSet,
    others: &ObjSet,
    obj: &Obj,
    fresh: &mut ObjSet,
) -> Result<(), NoMemory>
    requires { ChildrenEarlier nodes.now }
    ensures { OnOk result (Walked (below nodes.now dropped.now) (seen looks.now stale.now others.now)
        (obj.now ∷ []) fresh.old fresh.new) }
{
    if is_seen(looks, stale, others, obj) || fresh.contains(obj) {
        return Ok(());
    }
    fresh.add(*obj)?;
    let children = children(nodes, dropped, obj);
    for child in children {
        visit(nodes, dropped, looks, stale, others, child, fresh)?;
    }
    Ok(())
}

/// The objects that are reached from these through nodes that aren't dropped, past those that have looks
/// which aren't stale, and past these others. The cost is that of the roots, and of what is reached and its
/// children.
pub(crate) fn reach(
    alloc: Global,
    nodes: &Table<Node>,
    dropped: &ObjSet,
    looks: &Table<Shown>,
    stale: &ObjSet,
    others: &ObjSet,
    roots: &[Obj],
) -> Result<ObjSet, NoMemory>
    requires { ChildrenEarlier nodes.now }
    ensures { IfOk result (λ fresh. (g : Obj) → IsTrue (is_in fresh g)
        ↔ Reached (below nodes.now dropped.now) (seen looks.now stale.now others.now) roots.now g) }
{
    let mut fresh = ObjSet::new(alloc);
    for root in roots {
        visit(nodes, dropped, looks, stale, others, root, &mut fresh)?;
    }
    Ok(fresh)
}

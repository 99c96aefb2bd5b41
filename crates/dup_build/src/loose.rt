// Letting go of what nothing holds any more.
ghost use Rattle.std.specs.Prelude.{◌≡◌, ◌<◌, ◌∷◌, [], IfOk, OnOk};
ghost use Rattle.std.specs.List.{filter, list_any};
ghost use Rattle.dup_names.specs.Objects.{is_in};
ghost use Rattle.dup_model.specs.Touched.{without};
ghost use Rattle.dup_graph.specs.Graph.{parents};
ghost use Rattle.dup_sets.specs.Entries.{objs};
ghost use Rattle.dup_build.specs.Nodes.{ChildrenEarlier};
ghost use Rattle.dup_build.specs.Loose.{is_embedded, is_held, shown_by, AreGone, HasChildren, HoldsBut, LetGo};

use crate::node::{Node, node_children, stays};
use crate::paged::Paged;
use dup_graph::Graph;
use dup_names::{NoMemory, Obj};
use dup_sets::{ObjSet, Table};
use dup_steps::Steps;
use std::alloc::Global;
use std::marker::Brand;
use std::sync::ledger::{Blank, Ledger};

fn embedded_counted<L: Ledger>(
    blank: Blank,
    graph: &Graph,
    nodes: &Table<Node>,
    gone: &ObjSet,
    obj: &Obj,
) -> bool
    requires name { blank.name ≡ L.name }
    requires parts { blank.parts ≡ L.parts }
    requires some { 0 < blank.parts }
    ensures { result ≡ list_any (is_in (without (is_in gone.now) (objs nodes.now))) (parents graph.now obj.now) }
{
    let mut steps = Steps::<L>::new(blank);
    graph
        .parents(obj, &mut steps)
        .iter()
        .any(|parent| stays(nodes, gone, parent))
}

// Whether a node that isn't gone embeds an object. The cost is that of the objects that embed it, until one
// isn't gone.
fn is_embedded(graph: &Graph, nodes: &Table<Node>, gone: &ObjSet, obj: &Obj) -> bool
    requires { HasChildren graph.now nodes.now }
    ensures { result ≡ is_embedded nodes.now gone.now obj.now }
{
    embedded_counted::<Brand>(Blank::new(1), graph, nodes, gone, obj)
}

// Lets go of an object, where it isn't held, and then of what it embeds.
fn let_go(
    graph: &Graph,
    nodes: &Table<Node>,
    pages: &Paged,
    obj: &Obj,
    gone: &mut ObjSet,
) -> Result<(), NoMemory>
    requires earlier { ChildrenEarlier nodes.now }
    requires children { HasChildren graph.now nodes.now }
    ensures { OnOk result (LetGo (shown_by pages.now) nodes.now (obj.now ∷ []) gone.old gone.new) }
{
    if !stays(nodes, gone, obj) || pages.shows(obj) || is_embedded(graph, nodes, gone, obj) {
        return Ok(());
    }
    gone.add(*obj)?;
    let children = node_children(nodes, obj);
    for child in children {
        let_go(graph, nodes, pages, child, gone)?;
    }
    Ok(())
}

// Lets go of these objects.
fn let_all_go(
    alloc: Global,
    graph: &Graph,
    nodes: &Table<Node>,
    pages: &Paged,
    free: &[Obj],
) -> Result<ObjSet, NoMemory>
    requires earlier { ChildrenEarlier nodes.now }
    requires children { HasChildren graph.now nodes.now }
    ensures { IfOk result (LetGo (shown_by pages.now) nodes.now free.now []) }
{
    let mut gone = ObjSet::new(alloc);
    for obj in free {
        let_go(graph, nodes, pages, obj, &mut gone)?;
    }
    Ok(gone)
}

// Those of these objects that no node embeds.
fn free_among(
    alloc: Global,
    graph: &Graph,
    nodes: &Table<Node>,
    loose: &[Obj],
) -> Result<Vec<Obj>, NoMemory>
    requires { HasChildren graph.now nodes.now }
    ensures { IfOk result (λ free. free.items ≡ without (is_embedded nodes.now []) loose.now) }
{
    let none = ObjSet::new(alloc);
    let mut free = Vec::new(alloc);
    for obj in loose {
        if !is_embedded(graph, nodes, &none, obj) {
            free.push(*obj)?;
        }
    }
    Ok(free)
}

/// The objects with nodes that are to go, so that each that is left is a page's or is embedded by one that is
/// left, where all but the loose ones are held already. The cost is that of these, of what goes and of what that
/// embeds, each with the objects that embed it.
pub(crate) fn unheld(
    alloc: Global,
    graph: &Graph,
    nodes: &Table<Node>,
    pages: &Paged,
    loose: &ObjSet,
) -> Result<ObjSet, NoMemory>
    requires earlier { ChildrenEarlier nodes.now }
    requires children { HasChildren graph.now nodes.now }
    requires held { HoldsBut (shown_by pages.now) nodes.now [] loose.now }
    ensures gone { IfOk result (AreGone (shown_by pages.now) nodes.now) }
    ensures held { IfOk result (λ gone. HoldsBut (shown_by pages.now) nodes.now gone []) }
{
    let loose = loose.list(alloc)?;
    let free = free_among(alloc, graph, nodes, &loose)?;
    let gone = let_all_go(alloc, graph, nodes, pages, &free)?;
    Ok(gone)
}

// What done objects read and embed, as a graph.
ghost use Rattle.std.specs.Prelude.{◌≡◌, false, IfOk, OnOk, OnErr, map};
ghost use Rattle.std.specs.FinMap as fin;
ghost use Rattle.dup_names.specs.declared.object.Obj.{Obj};
ghost use Rattle.dup_names.specs.Objects.{is_in};

use crate::node::Node;
use dup_graph::Graph;
use dup_names::{Item, NoMemory, Obj};
use dup_template::Value;
use std::alloc::Global;

/// Takes objects out of a graph.
pub(crate) fn drop_all(graph: &mut Graph, gone: &[Obj])
    ensures { (o : Obj) → is_in gone.now o ≡ false → fin.get graph.new o ≡ fin.get graph.old o }
{
    for obj in gone {
        graph.drop_obj(obj);
    }
}

fn items_noted(alloc: Global, notes: &[(Item, Value)]) -> Result<Vec<Item>, NoMemory>
    ensures { IfOk result (λ made. made.items ≡ map (λ n. n.0) notes.now) }
{
    let mut items = Vec::with_capacity(alloc, notes.len())?;
    for note in notes {
        items.push(note.0)?;
    }
    Ok(items)
}

/// Puts what an object reads and embeds into a graph.
pub(crate) fn put_node(
    graph: &mut Graph,
    alloc: Global,
    obj: &Obj,
    node: &Node,
) -> Result<(), NoMemory>
    ensures ok { OnOk result (graph.new ≡ fin.insert graph.old obj.now (record {
      items = map (λ n. n.0) node.now.expanded.value.notes;
      children = node.now.children;
    })) }
    ensures err { OnErr result (graph.new ≡ graph.old) }
{
    let items = items_noted(alloc, node.expanded.notes())?;
    graph.set(alloc, *obj, &items, node.children.items())
}

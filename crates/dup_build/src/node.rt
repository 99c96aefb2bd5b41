// What is kept of an object that is done.
ghost use Rattle.std.specs.Prelude.{◌≡◌, IfOk};
ghost use Rattle.dup_names.specs.Objects.{is_in};
ghost use Rattle.dup_model.specs.Touched.{without};
ghost use Rattle.dup_sets.specs.Entries.{at, objs};
ghost use Rattle.std.specs.List.{flat_map};
ghost use Rattle.dup_names.specs.Order.{obj_cmp};
ghost use Rattle.dup_names.specs.Words.{in_order};
ghost use Rattle.dup_build.specs.Nodes.{children_of, held};

use dup_lists::Listed;
use dup_names::{Look, NoMemory, Obj, Piece};
use dup_render::Expanded;
use dup_sets::{ObjSet, Table};
use std::alloc::Global;
use std::sync::Arc;

/// An expansion, and the objects that its skeleton embeds, in their order, each once.
#[derive(Drop)]
pub(crate) struct Node {
    pub(crate) expanded: Arc<Expanded, Global>,
    pub(crate) children: Listed<Obj>,
}

/// A look.
#[derive(Drop)]
pub(crate) struct Shown {
    pub(crate) look: Arc<Look, Global>,
}

/// What an object embeds, where it has a node; else nothing.
pub(crate) fn node_children<'a>(nodes: &'a Table<Node>, obj: &Obj) -> &'a [Obj]
    ensures { result.now ≡ children_of (at nodes.now obj.now) }
{
    match nodes.get(obj) {
        None => &[],
        Some(node) => node.children.items(),
    }
}

/// Whether an object is in a table and isn't dropped from it.
pub(crate) fn stays<T>(table: &Table<T>, dropped: &ObjSet, obj: &Obj) -> bool
    ensures { result ≡ is_in (without (is_in dropped.now) (objs table.now)) obj.now }
{
    table.has(obj) && !dropped.contains(obj)
}

fn objs_held(alloc: Global, pieces: &[Piece]) -> Result<Vec<Obj>, NoMemory>
    ensures { IfOk result (λ made. made.items ≡ flat_map held pieces.now) }
{
    let mut objs = Vec::new(alloc);
    for piece in pieces {
        if let Piece::Hole(obj) = piece {
            objs.push(*obj)?;
        }
    }
    Ok(objs)
}

/// These objects in their order, each once.
pub(crate) fn objs_in_order(objs: Vec<Obj>) -> Vec<Obj>
    ensures { result.items ≡ in_order obj_cmp objs.items }
{
    let mut objs = objs;
    objs.sort_unstable();
    objs.dedup();
    objs
}

impl Node {
    pub(crate) fn of(alloc: Global, expanded: Arc<Expanded, Global>) -> Result<Node, NoMemory>
        ensures expanded { IfOk result (λ made. made.expanded.value ≡ expanded.value) }
        ensures children { IfOk result (λ made. made.children
            ≡ in_order obj_cmp (flat_map held expanded.value.skeleton.pieces)) }
    {
        let objs = objs_held(alloc, expanded.skeleton().pieces.items())?;
        Ok(Node {
            expanded,
            children: Listed::of(objs_in_order(objs)),
        })
    }
}

// How many of the objects that an object embeds have no look.
ghost use Rattle.std.specs.Prelude.{◌≡◌, ◌<◌, false, Some, length, IsTrue, OnOk, if◌then◌else◌};
ghost use Rattle.std.specs.List.{fold};
ghost use Rattle.dup_names.specs.Objects.{is_in, same_obj};
ghost use Rattle.dup_names.specs.Order.{obj_cmp};
ghost use Rattle.dup_names.specs.Words.{in_order};
ghost use Rattle.dup_names.specs.declared.object.Obj.{Obj};
ghost use Rattle.dup_model.specs.Touched.{without};
ghost use Rattle.dup_graph.specs.Graph.{parents};
ghost use Rattle.dup_sets.specs.Entries.{at, objs};
ghost use Rattle.dup_build.specs.Missing.{less};
ghost use Rattle.dup_build.specs.Nodes.{below, children_of};

use crate::node::{Node, Shown, stays};
use crate::reach::children;
use dup_graph::Graph;
use dup_names::{NoMemory, Obj};
use dup_sets::{ObjSet, Table};
use dup_steps::Steps;
use std::alloc::Global;
use std::marker::Brand;
use std::sync::ledger::{Blank, Ledger};

// How many of these objects have no look, once some looks are stale.
fn lacking(among: &[Obj], looks: &Table<Shown>, stale: &ObjSet) -> usize
    ensures { result ≡ length (without (is_in (without (is_in stale.now) (objs looks.now))) among.now) }
{
    among.iter().filter(|obj| !stays(looks, stale, obj)).count()
}

/// Counts for each of these objects how many that it embeds have no look, once some nodes are dropped and some
/// looks are stale. The cost is that of a search for each that they embed.
pub(crate) fn count_missing(
    missing: &mut Table<u64>,
    nodes: &Table<Node>,
    dropped: &ObjSet,
    looks: &Table<Shown>,
    stale: &ObjSet,
    among: &[Obj],
) -> Result<(), NoMemory>
    ensures counted { OnOk result ((x : Obj) → IsTrue (is_in among.now x) → at missing.new x ≡ Some (length
        (without (is_in (without (is_in stale.now) (objs looks.now))) (below nodes.now dropped.now x)))) }
    ensures others { (x : Obj) → is_in among.now x ≡ false → at missing.new x ≡ at missing.old x }
{
    for obj in among {
        let count = lacking(children(nodes, dropped, obj), looks, stale);
        missing.add(*obj, count as u64)?;
    }
    Ok(())
}

/// Counts the same for an object whose node is new, and for what is found by it.
pub(crate) fn count_new(
    alloc: Global,
    missing: &mut Table<u64>,
    nodes: &Table<Node>,
    looks: &Table<Shown>,
    obj: &Obj,
    node: &Node,
    among: &[Obj],
) -> Result<(), NoMemory>
    ensures new { OnOk result (at missing.new obj.now
        ≡ Some (length (without (is_in (objs looks.now)) node.now.children))) }
    ensures found { OnOk result ((x : Obj) → IsTrue (is_in among.now x) → same_obj x obj.now ≡ false →
        at missing.new x ≡ Some (length (without (is_in (objs looks.now)) (children_of (at nodes.now x))))) }
    ensures others { (x : Obj) → is_in among.now x ≡ false → same_obj x obj.now ≡ false →
        at missing.new x ≡ at missing.old x }
{
    let none = ObjSet::new(alloc);
    count_missing(missing, nodes, &none, looks, &none, among)?;
    let count = lacking(node.children.items(), looks, &none);
    missing.add(*obj, count as u64)
}

fn lower_each(missing: &mut Table<u64>, among: &[Obj])
    requires { in_order obj_cmp among.now ≡ among.now }
    ensures { (x : Obj) → at missing.new x
        ≡ (if is_in among.now x then less (at missing.old x) else at missing.old x) }
{
    for obj in among {
        missing.lower(obj);
    }
}

fn lower_counted<L: Ledger>(blank: Blank, missing: &mut Table<u64>, graph: &Graph, level: &[Obj])
    requires name { blank.name ≡ L.name }
    requires parts { blank.parts ≡ L.parts }
    requires some { 0 < blank.parts }
    ensures { (x : Obj) → at missing.new x
        ≡ fold (λ n o. if is_in (parents graph.now o) x then less n else n) (at missing.old x) level.now }
{
    let mut steps = Steps::<L>::new(blank);
    for obj in level {
        lower_each(missing, graph.parents(obj, &mut steps));
    }
}

/// For each of these objects, one less is missing in each that embeds it. The cost is that of a search for each
/// of those. It takes no memory.
pub(crate) fn lower_above(missing: &mut Table<u64>, graph: &Graph, level: &[Obj])
    ensures { (x : Obj) → at missing.new x
        ≡ fold (λ n o. if is_in (parents graph.now o) x then less n else n) (at missing.old x) level.now }
{
    lower_counted::<Brand>(Blank::new(1), missing, graph, level);
}

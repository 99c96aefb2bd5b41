// The next level, and its looks.
ghost use Rattle.std.specs.Prelude.{◌≡◌, ◌<◌, [], IsTrue, IfSome, IfOk, map};
ghost use Rattle.std.specs.List.{flat_map, list_any};
ghost use Rattle.dup_names.specs.Order.{obj_cmp};
ghost use Rattle.dup_names.specs.Words.{in_order};
ghost use Rattle.dup_names.specs.declared.object.Obj.{Obj};
ghost use Rattle.dup_names.specs.Objects.{is_in};
ghost use Rattle.dup_model.specs.Skeletons.{embeds};
ghost use Rattle.dup_graph.specs.Graph.{parents};
ghost use Rattle.dup_walk.specs.OverReads.{HasReads};
ghost use Rattle.dup_model.specs.Looks.{look};
ghost use Rattle.dup_join.specs.Jobs.{look_of};
ghost use Rattle.dup_build.specs.Stocked.{level_in, waiting_in};

use crate::node::objs_in_order;
use crate::stock::Stock;
use dup_graph::Graph;
use dup_join::{JoinJob, join_level};
use dup_names::{Look, NoMemory, Obj};
use dup_steps::Steps;
use std::alloc::Global;
use std::marker::Brand;
use std::sync::Arc;
use std::sync::ledger::{Blank, Ledger};
use std::thread::Threads;

// The objects that embed these, for each of these in turn.
fn parents_counted<L: Ledger>(
    alloc: Global,
    blank: Blank,
    graph: &Graph,
    level: &[Obj],
) -> Result<Vec<Obj>, NoMemory>
    requires name { blank.name ≡ L.name }
    requires parts { blank.parts ≡ L.parts }
    requires some { 0 < blank.parts }
    ensures { IfOk result (λ made. made.items ≡ flat_map (parents graph.now) level.now) }
{
    let mut steps = Steps::<L>::new(blank);
    let mut made = Vec::new(alloc);
    for obj in level {
        made.extend_from_slice(graph.parents(obj, &mut steps))?;
    }
    Ok(made)
}

// The objects that embed one of these, in object order.
fn parents_of(alloc: Global, graph: &Graph, level: &[Obj]) -> Result<Vec<Obj>, NoMemory>
    ensures { IfOk result (λ made. made.items
        ≡ in_order obj_cmp (flat_map (parents graph.now) level.now)) }
{
    let made = parents_counted::<Brand>(alloc, Blank::new(1), graph, level)?;
    Ok(objs_in_order(made))
}

/// The next level once a level is joined, where none waits: it stands among the objects that embed one of
/// that level. `None` where memory runs out. The cost is a search for each of these.
pub(crate) fn plan(alloc: Global, stock: &Stock, graph: &Graph, level: &[Obj]) -> Option<Vec<Obj>>
    requires calm { waiting_in stock.now ≡ [] }
    requires reads { HasReads stock.now.content stock.now.done graph.now }
    requires above { (o : Obj) → IsTrue (is_in (level_in stock.now) o) →
        IsTrue (list_any (is_in (embeds stock.now.content o)) level.now) }
    ensures { IfSome result (λ next. next.items ≡ level_in stock.now) }
{
    let Ok(above) = parents_of(alloc, graph, level) else {
        return None;
    };
    let Ok(next) = stock.next_among(alloc, &above) else {
        return None;
    };
    Some(next)
}

/// The next level of a stock, where none waits: the planned one, if any.
pub(crate) fn level_of(
    alloc: Global,
    stock: &Stock,
    planned: &Option<Vec<Obj>>,
) -> Result<Vec<Obj>, NoMemory>
    requires calm { waiting_in stock.now ≡ [] }
    requires planned { IfSome planned.now (λ objs. objs.items ≡ level_in stock.now) }
    ensures { IfOk result (λ level. level.items ≡ level_in stock.now) }
{
    match planned {
        Some(objs) => {
            let level = Vec::from_slice(alloc, objs.as_slice())?;
            Ok(level)
        }
        None => {
            let level = stock.level(alloc)?;
            Ok(level)
        }
    }
}

// What joins the objects of a level.
fn jobs(alloc: Global, stock: &Stock, level: &[Obj]) -> Result<Vec<JoinJob>, NoMemory>
    requires calm { waiting_in stock.now ≡ [] }
    requires level { level.now ≡ level_in stock.now }
    ensures { IfOk result (λ made. map look_of made.items ≡ map (look stock.now.content) level.now) }
{
    let mut made = Vec::with_capacity(alloc, level.len())?;
    for obj in level {
        made.push(stock.join_job(alloc, obj)?)?;
    }
    Ok(made)
}

fn shared(alloc: Global, looks: Vec<Look>) -> Result<Vec<Arc<Look, Global>>, NoMemory>
    ensures { IfOk result (λ made. map (λ l. l.value) made.items ≡ looks.items) }
{
    let mut made = Vec::with_capacity(alloc, looks.as_slice().len())?;
    for look in looks {
        made.push(Arc::new(alloc, look)?)?;
    }
    Ok(made)
}

/// The looks of a level of a stock, where none waits.
pub(crate) fn level_looks(
    rt: &(impl Threads + Sync),
    alloc: Global,
    stock: &Stock,
    level: &[Obj],
) -> Result<Vec<Arc<Look, Global>>, NoMemory>
    requires calm { waiting_in stock.now ≡ [] }
    requires level { level.now ≡ level_in stock.now }
    ensures { IfOk result (λ made. map (λ l. l.value) made.items ≡ map (look stock.now.content) level.now) }
{
    let jobs = jobs(alloc, stock, level)?;
    let looks = join_level(rt, alloc, &jobs)?;
    let made = shared(alloc, looks)?;
    Ok(made)
}

// What changed items reach along the graph.
ghost use Rattle.std.specs.Prelude.{◌≡◌, ◌<◌, IfOk};
ghost use Rattle.std.specs.List.{list_any};
ghost use Rattle.dup_build.specs.Paged.{is_family_of, lists_pages};
ghost use Rattle.dup_names.specs.declared.object.Obj.{Obj};
ghost use Rattle.dup_names.specs.Objects.{is_in};
ghost use Rattle.dup_graph.specs.Graph.{node_at};
ghost use Rattle.dup_walk.specs.Affected.{has_changed, IsAffected};

use dup_graph::Graph;
use dup_names::{Item, NoMemory};
use dup_records::Content;
use dup_sets::ObjSet;
use dup_steps::Steps;
use dup_template::PageRule;
use dup_walk::{affected, readers};
use std::alloc::Global;
use std::marker::Brand;
use std::sync::ledger::{Blank, Ledger};

/// The objects whose skeletons are stale, and those whose looks are.
#[derive(Drop)]
pub(crate) struct Hits {
    pub(crate) dropped: ObjSet,
    pub(crate) stale: ObjSet,
}

fn counted<L: Ledger>(
    alloc: Global,
    blank: Blank,
    graph: &Graph,
    changed: &[Item],
) -> Result<Hits, NoMemory>
    requires name { blank.name ≡ L.name }
    requires parts { blank.parts ≡ L.parts }
    requires some { 0 < blank.parts }
    ensures dropped { IfOk result (λ hits. (o : Obj) →
        is_in hits.dropped o ≡ has_changed changed.now (node_at graph.now o)) }
    ensures stale { IfOk result (λ hits. IsAffected graph.now changed.now hits.stale) }
{
    let mut steps = Steps::<L>::new(blank);
    let touched = readers(alloc, graph, changed, &mut steps)?;
    let upward = affected(alloc, graph, changed, &mut steps)?;
    let dropped = ObjSet::of(alloc, &touched)?;
    let stale = ObjSet::of(alloc, &upward)?;
    Ok(Hits { dropped, stale })
}

/// The objects that have a changed item, and those that are reached from them.
pub(crate) fn hits_of(alloc: Global, graph: &Graph, changed: &[Item]) -> Result<Hits, NoMemory>
    ensures dropped { IfOk result (λ hits. (o : Obj) →
        is_in hits.dropped o ≡ has_changed changed.now (node_at graph.now o)) }
    ensures stale { IfOk result (λ hits. IsAffected graph.now changed.now hits.stale) }
{
    let made = counted::<Brand>(alloc, Blank::new(1), graph, changed)?;
    Ok(made)
}

// Whether a declaration has a page for each row of a kind.
fn is_family_of(content: &Content, rule: &PageRule, kind: u16) -> bool
    ensures { result ≡ is_family_of content.now.frame kind rule.now }
{
    match rule {
        PageRule::Fixed { .. } => false,
        PageRule::Family { template, .. } => content.kind_named(template) == Some(kind),
    }
}

// Whether one of these declarations has a page for each row of a kind.
fn has_family(content: &Content, rules: &[PageRule], kind: u16) -> bool
    ensures { result ≡ list_any (is_family_of content.now.frame kind) rules.now }
{
    rules.iter().any(|rule| is_family_of(content, rule, kind))
}

// Whether an item is the keys of a kind whose rows have pages.
fn lists_pages(content: &Content, item: &Item) -> bool
    ensures { result ≡ lists_pages content.now.frame item.now }
{
    match item {
        Item::List { kind } => has_family(content, content.site().page_rules(), *kind),
        _ => false,
    }
}

/// Whether a kind whose rows have pages got or lost a row, where these are the changed items. The cost is a
/// look at the declarations of pages for each kind that did.
pub(crate) fn pages_change(content: &Content, changed: &[Item]) -> bool
    ensures { result ≡ list_any (lists_pages content.now.frame) changed.now }
{
    changed.iter().any(|item| lists_pages(content, item))
}

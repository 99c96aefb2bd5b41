// Rows of nodes over what a press publishes.
use crate::nodes::Call::{Commit, Deliver, Evict, Get, Node, Settle, Titles};
use crate::nodes::{Call, Row, plays};
use crate::sites::CHAIN_SITE;
use dup_model::Mode::{Invalidate, Update};
use dup_samples::EVENTS_SITE;
use std::alloc::{AllocError, Global};
use std::test::Fail;

const THREE_REQUESTS: Row = &[
    (Commit("+event e1 title=A"), "committed 1"),
    (
        Settle,
        "settled 1 edition 1 bundles 1 expanded 1 joined 1 kept 0",
    ),
    (Node(1, Update), "node 1"),
    (Get(1, 0, "/event/e1"), "found 1 1 miss 10 <h1>A</h1>"),
    (Get(1, 0, "/event/e1"), "found 1 1 hit 10 <h1>A</h1>"),
    (Get(1, 0, "/event/e1"), "found 1 1 hit 10 <h1>A</h1>"),
];

const ONE_ENTRY: Row = &[
    (
        Commit("+event e1 title=A; +event e2 title=B"),
        "committed 1",
    ),
    (
        Settle,
        "settled 1 edition 2 bundles 2 expanded 2 joined 2 kept 0",
    ),
    (Node(1, Update), "node 1"),
    (Get(1, 0, "/event/e1"), "found 2 1 miss 10 <h1>A</h1>"),
    (Get(1, 0, "/event/e2"), "found 2 1 miss 10 <h1>B</h1>"),
    (Get(1, 0, "/event/e1"), "found 2 1 miss 10 <h1>A</h1>"),
    (Get(1, 0, "/event/e1"), "found 2 1 hit 10 <h1>A</h1>"),
    (Evict(1, "/event/e1"), "evicted"),
    (Evict(1, "/event/e1"), "not kept"),
];

const TWO_MODES: Row = &[
    (Commit("+event e1 title=A"), "committed 1"),
    (
        Settle,
        "settled 1 edition 1 bundles 1 expanded 1 joined 1 kept 0",
    ),
    (Node(4, Update), "node 1"),
    (Node(4, Invalidate), "node 2"),
    (Get(1, 0, "/event/e1"), "found 1 1 miss 10 <h1>A</h1>"),
    (Get(2, 0, "/event/e1"), "found 1 1 miss 10 <h1>A</h1>"),
    (Commit("+event e1 title=B"), "committed 2"),
    (
        Settle,
        "settled 2 edition 2 bundles 1 expanded 1 joined 1 kept 0",
    ),
    (Deliver(1), "delivered 1 edition 2 entries 1"),
    (Deliver(2), "delivered 2 edition 2 entries 0"),
    (Get(1, 0, "/event/e1"), "found 2 2 hit 10 <h1>B</h1>"),
    (Get(2, 0, "/event/e1"), "found 2 2 miss 10 <h1>B</h1>"),
];

const BY_PASS: Row = &[
    (Commit("+event e1 title=A"), "committed 1"),
    (
        Settle,
        "settled 1 edition 1 bundles 1 expanded 1 joined 1 kept 0",
    ),
    (Node(4, Update), "node 1"),
    (Get(1, 0, "/event/e1"), "found 1 1 miss 10 <h1>A</h1>"),
    (Commit("+event e1 title=B"), "committed 2"),
    (
        Settle,
        "settled 2 edition 2 bundles 1 expanded 1 joined 1 kept 0",
    ),
    (Get(1, 0, "/event/e1"), "found 1 1 hit 10 <h1>A</h1>"),
    (Get(1, 2, "/event/e1"), "found 2 2 hit 10 <h1>B</h1>"),
    (Get(1, 99, "/event/e1"), "ahead 99 2"),
];

// Both caches have a page that changes in each bundle and one that stays.
const BEHIND_64: Row = &[
    (
        Commit("+event e1 title=A; +event e2 title=B"),
        "committed 1",
    ),
    (
        Settle,
        "settled 1 edition 2 bundles 2 expanded 2 joined 2 kept 0",
    ),
    (Node(4, Invalidate), "node 1"),
    (Node(4, Update), "node 2"),
    (Get(1, 0, "/event/e1"), "found 2 1 miss 10 <h1>A</h1>"),
    (Get(1, 0, "/event/e2"), "found 2 1 miss 10 <h1>B</h1>"),
    (Get(2, 0, "/event/e1"), "found 2 1 miss 10 <h1>A</h1>"),
    (Get(2, 0, "/event/e2"), "found 2 1 miss 10 <h1>B</h1>"),
    (
        Titles(64),
        "settled 65 edition 66 bundles 1 expanded 1 joined 1 kept 1",
    ),
    (Deliver(1), "delivered 1 edition 66 entries 1"),
    (Deliver(2), "delivered 2 edition 66 entries 2"),
    (Get(1, 0, "/event/e2"), "found 66 1 hit 10 <h1>B</h1>"),
    (Get(1, 0, "/event/e1"), "found 66 65 miss 12 <h1>t64</h1>"),
    (Get(2, 0, "/event/e2"), "found 66 1 hit 10 <h1>B</h1>"),
    (Get(2, 0, "/event/e1"), "found 66 65 hit 12 <h1>t64</h1>"),
];

const BEHIND_65: Row = &[
    (
        Commit("+event e1 title=A; +event e2 title=B"),
        "committed 1",
    ),
    (
        Settle,
        "settled 1 edition 2 bundles 2 expanded 2 joined 2 kept 0",
    ),
    (Node(4, Invalidate), "node 1"),
    (Node(4, Update), "node 2"),
    (Get(1, 0, "/event/e1"), "found 2 1 miss 10 <h1>A</h1>"),
    (Get(1, 0, "/event/e2"), "found 2 1 miss 10 <h1>B</h1>"),
    (Get(2, 0, "/event/e1"), "found 2 1 miss 10 <h1>A</h1>"),
    (Get(2, 0, "/event/e2"), "found 2 1 miss 10 <h1>B</h1>"),
    (
        Titles(65),
        "settled 66 edition 67 bundles 1 expanded 1 joined 1 kept 1",
    ),
    (Deliver(1), "delivered 1 edition 67 entries 0"),
    (Deliver(2), "delivered 2 edition 67 entries 2"),
    (Get(1, 0, "/event/e2"), "found 67 1 miss 10 <h1>B</h1>"),
    (Get(1, 0, "/event/e1"), "found 67 66 miss 12 <h1>t65</h1>"),
    (Get(2, 0, "/event/e2"), "found 67 1 hit 10 <h1>B</h1>"),
    (Get(2, 0, "/event/e1"), "found 67 66 hit 12 <h1>t65</h1>"),
];

// Between two requests of each node a page leaves and comes back, and then it leaves again.
const LEAVES_AND_COMES_BACK: Row = &[
    (Commit("+event e1 title=A"), "committed 1"),
    (
        Settle,
        "settled 1 edition 1 bundles 1 expanded 1 joined 1 kept 0",
    ),
    (Node(4, Update), "node 1"),
    (Node(4, Invalidate), "node 2"),
    (Get(1, 0, "/event/e1"), "found 1 1 miss 10 <h1>A</h1>"),
    (Get(2, 0, "/event/e1"), "found 1 1 miss 10 <h1>A</h1>"),
    (Commit("-event e1"), "committed 2"),
    (
        Settle,
        "settled 2 edition 2 bundles 1 expanded 0 joined 0 kept 0",
    ),
    (Commit("+event e1 title=C"), "committed 3"),
    (
        Settle,
        "settled 3 edition 3 bundles 1 expanded 1 joined 1 kept 0",
    ),
    (Get(1, 0, "/event/e1"), "found 1 1 hit 10 <h1>A</h1>"),
    (Get(1, 3, "/event/e1"), "found 3 3 hit 10 <h1>C</h1>"),
    (Get(2, 3, "/event/e1"), "found 3 3 miss 10 <h1>C</h1>"),
    (Commit("-event e1"), "committed 4"),
    (
        Settle,
        "settled 4 edition 4 bundles 1 expanded 0 joined 0 kept 0",
    ),
    (Get(1, 4, "/event/e1"), "absent 4"),
    (Get(2, 4, "/event/e1"), "absent 4"),
    (Deliver(1), "delivered 1 edition 4 entries 0"),
];

// The page that comes stands behind the one that links to it, and either node shows both of one edition.
const LINKED_COMES: Row = &[
    (Commit("+event e1 next=e2 title=A"), "committed 1"),
    (
        Settle,
        "settled 1 edition 1 bundles 1 expanded 1 joined 1 kept 0",
    ),
    (Node(4, Update), "node 1"),
    (Get(1, 0, "/event/e1"), "found 1 1 miss 5 Anext"),
    (Commit("+event e2 title=B"), "committed 2"),
    (
        Settle,
        "settled 2 edition 3 bundles 2 expanded 2 joined 2 kept 0",
    ),
    (
        Get(1, 2, "/event/e1"),
        "found 3 2 hit 29 A<a href=\"/event/e2\">next</a>",
    ),
];

#[test]
fn nodes_serve_what_a_press_publishes(rt: HostRuntime) -> Result<(), Fail> {
    let rows: [(&str, &[u8], Row); 8] = [
        ("three requests", EVENTS_SITE, THREE_REQUESTS),
        ("a cache of one entry", EVENTS_SITE, ONE_ENTRY),
        ("two modes", EVENTS_SITE, TWO_MODES),
        ("by the pass", EVENTS_SITE, BY_PASS),
        ("64 bundles behind", EVENTS_SITE, BEHIND_64),
        ("65 bundles behind", EVENTS_SITE, BEHIND_65),
        ("leaves and comes back", EVENTS_SITE, LEAVES_AND_COMES_BACK),
        ("a linked page comes", CHAIN_SITE, LINKED_COMES),
    ];
    for (name, site, row) in rows {
        plays(&rt, name, site, row)?;
    }
    Ok(())
}

const NODES: [&str; 16] = [
    "node 1", "node 2", "node 3", "node 4", "node 5", "node 6", "node 7", "node 8", "node 9",
    "node 10", "node 11", "node 12", "node 13", "node 14", "node 15", "node 16",
];

// Each of sixteen nodes misses a page once; then every second one drops it, and misses it again.
fn sixteen_nodes(alloc: Global) -> Result<Vec<(Call<'static>, &'static str)>, AllocError> {
    let miss = "found 1 1 miss 10 <h1>A</h1>";
    let hit = "found 1 1 hit 10 <h1>A</h1>";
    let mut row = Vec::new(alloc);
    row.push((Commit("+event e1 title=A"), "committed 1"))?;
    row.push((
        Settle,
        "settled 1 edition 1 bundles 1 expanded 1 joined 1 kept 0",
    ))?;
    for told in NODES {
        row.push((Node(4, Update), told))?;
    }
    for number in 1..17usize {
        row.push((Get(number, 0, "/event/e1"), miss))?;
        row.push((Get(number, 0, "/event/e1"), hit))?;
    }
    for number in 1..17usize {
        if number % 2 == 0 {
            row.push((Evict(number, "/event/e1"), "evicted"))?;
        }
    }
    for number in 1..17usize {
        let again = if number % 2 == 0 { miss } else { hit };
        row.push((Get(number, 0, "/event/e1"), again))?;
    }
    Ok(row)
}

#[test]
fn sixteen_nodes_have_caches_of_their_own(rt: HostRuntime) -> Result<(), Fail> {
    let row = sixteen_nodes(rt.alloc())?;
    plays(&rt, "sixteen nodes", EVENTS_SITE, &row)
}

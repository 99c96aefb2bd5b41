// Scripts whose nodes keep pages: hits and misses, deliveries and evictions.
use crate::plays::{SITE, ends, in_pieces};
use crate::settles::row_holds;
use std::alloc::Global;
use std::marker::Sync;
use std::process::Abort;
use std::test::Fail;
use std::thread::Threads;

/// A commit of two events.
pub(crate) const TWO: &str =
    "commit {\"changes\":[{\"put\":\"event\",\"key\":\"e1\",\"fields\":{\"title\":\"A\"}},{\"put\":\"event\",\"key\":\"e2\",\"fields\":{\"title\":\"B\"}}]}";

const FIRST: &str = "settled 1 edition 1 bundles 1 expanded 1 joined 1 kept 0";

const SECOND: &str = "settled 2 edition 2 bundles 1 expanded 1 joined 1 kept 0";

/// What its settle is answered.
pub(crate) const BOTH: &str = "settled 1 edition 2 bundles 2 expanded 2 joined 2 kept 0";

#[test]
fn a_page_is_missed_once_and_then_hit(rt: HostRuntime) -> Result<(), Fail> {
    row_holds(
        &rt,
        SITE,
        &[
            ("+event e1 title=A", "committed 1"),
            ("settle", FIRST),
            ("node 1 4 update", "node 1"),
            ("get 1 0 /event/e1", "found 1 1 miss 10\n<h1>A</h1>"),
            ("get 1 0 /event/e1", "found 1 1 hit 10\n<h1>A</h1>"),
            ("get 1 1 /event/e1", "found 1 1 hit 10\n<h1>A</h1>"),
        ],
    )
}

#[test]
fn a_cache_of_one_page_keeps_the_last(rt: HostRuntime) -> Result<(), Fail> {
    row_holds(
        &rt,
        SITE,
        &[
            (TWO, "committed 1"),
            ("settle", BOTH),
            ("node 1 1 update", "node 1"),
            ("get 1 0 /event/e1", "found 2 1 miss 10\n<h1>A</h1>"),
            ("get 1 0 /event/e2", "found 2 1 miss 10\n<h1>B</h1>"),
            ("get 1 0 /event/e1", "found 2 1 miss 10\n<h1>A</h1>"),
            ("get 1 0 /event/e1", "found 2 1 hit 10\n<h1>A</h1>"),
            ("evict 1 /event/e1", "evicted"),
            ("evict 1 /event/e1", "not kept"),
            ("get 1 0 /event/e1", "found 2 1 miss 10\n<h1>A</h1>"),
        ],
    )
}

#[test]
fn a_delivery_updates_or_invalidates(rt: HostRuntime) -> Result<(), Fail> {
    row_holds(
        &rt,
        SITE,
        &[
            ("+event e1 title=A", "committed 1"),
            ("settle", FIRST),
            ("node 1 4 update", "node 1"),
            ("node 2 4 invalidate", "node 2"),
            ("get 1 0 /event/e1", "found 1 1 miss 10\n<h1>A</h1>"),
            ("get 2 0 /event/e1", "found 1 1 miss 10\n<h1>A</h1>"),
            ("+event e1 title=B", "committed 2"),
            ("settle", SECOND),
            ("deliver 1", "delivered 1 edition 2 entries 1"),
            ("deliver 2", "delivered 2 edition 2 entries 0"),
            ("get 1 0 /event/e1", "found 2 2 hit 10\n<h1>B</h1>"),
            ("get 2 0 /event/e1", "found 2 2 miss 10\n<h1>B</h1>"),
        ],
    )
}

#[test]
fn a_cache_catches_up_where_a_pass_asks_for_it(rt: HostRuntime) -> Result<(), Fail> {
    row_holds(
        &rt,
        SITE,
        &[
            ("+event e1 title=A", "committed 1"),
            ("settle", FIRST),
            ("node 1 4 update", "node 1"),
            ("get 1 0 /event/e1", "found 1 1 miss 10\n<h1>A</h1>"),
            ("+event e1 title=B", "committed 2"),
            ("settle", SECOND),
            ("get 1 0 /event/e1", "found 1 1 hit 10\n<h1>A</h1>"),
            ("get 1 2 /event/e1", "found 2 2 hit 10\n<h1>B</h1>"),
            ("get 1 99 /event/e1", "ahead 99 2"),
        ],
    )
}

#[test]
fn a_page_that_leaves_comes_back(rt: HostRuntime) -> Result<(), Fail> {
    row_holds(
        &rt,
        SITE,
        &[
            ("node 1 4 update", "node 1"),
            ("node 2 4 invalidate", "node 2"),
            ("+event e1 title=A", "committed 1"),
            ("settle", FIRST),
            ("get 1 0 /event/e1", "found 1 1 miss 10\n<h1>A</h1>"),
            ("get 2 0 /event/e1", "found 1 1 miss 10\n<h1>A</h1>"),
            (
                "commit {\"changes\":[{\"remove\":\"event\",\"key\":\"e1\"}]}",
                "committed 2",
            ),
            (
                "settle",
                "settled 2 edition 2 bundles 1 expanded 0 joined 0 kept 0",
            ),
            ("+event e1 title=C", "committed 3"),
            (
                "settle",
                "settled 3 edition 3 bundles 1 expanded 1 joined 1 kept 0",
            ),
            ("get 1 0 /event/e1", "found 1 1 hit 10\n<h1>A</h1>"),
            ("get 1 3 /event/e1", "found 3 3 hit 10\n<h1>C</h1>"),
            ("get 2 3 /event/e1", "found 3 3 miss 10\n<h1>C</h1>"),
            ("get 2 3 /event/e2", "absent 3"),
        ],
    )
}

#[test]
fn a_node_that_is_not_there_has_nothing(rt: HostRuntime) -> Result<(), Fail> {
    row_holds(
        &rt,
        SITE,
        &[
            ("deliver 1", "no node 1"),
            ("evict 1 /event/e1", "no node 1"),
            ("get 1 0 /event/e1", "no node 1"),
            ("node 1 1 invalidate", "node 1"),
            ("deliver 1", "delivered 1 edition 0 entries 0"),
            ("evict 1 /event/e1", "not kept"),
            ("get 1 0 /event/e1", "absent 0"),
            ("get 1 1 /event/e1", "ahead 1 0"),
            ("deliver 16", "no node 16"),
        ],
    )
}

#[test]
fn sixteen_nodes_have_caches_of_their_own(rt: HostRuntime) -> Result<(), Fail> {
    let alloc = rt.alloc();
    let mut input = SITE.to_vec(alloc)?;
    let mut output = b"site ok\ncommitted 1\n".to_vec(alloc)?;
    input.extend_from_slice(TWO.as_bytes())?;
    input.extend_from_slice(b"\nsettle\n")?;
    output.extend_from_slice(BOTH.as_bytes())?;
    output.extend_from_slice(b"\n")?;
    for node in 1..=16u16 {
        let asked = format!(in alloc;
            "node {node} 4 update\nget {node} 0 /event/e1\nget {node} 0 /event/e1\nevict {node} /event/e1\n"
        )?;
        input.extend_from_slice(asked.as_bytes())?;
        let told = format!(in alloc;
            "node {node}\nfound 2 1 miss 10\n<h1>A</h1>\nfound 2 1 hit 10\n<h1>A</h1>\nevicted\n"
        )?;
        output.extend_from_slice(told.as_bytes())?;
    }
    ends(&rt, in_pieces(64), &input, 0, &output)
}

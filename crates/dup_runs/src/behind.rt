// Scripts in which an edition is delivered to a cache that is many bundles behind it.
use crate::caches::{BOTH, TWO};
use crate::plays::{SITE, ends, in_pieces, joined};
use std::alloc::{AllocError, Global};
use std::marker::Sync;
use std::process::Abort;
use std::test::Fail;
use std::thread::Threads;

// So many commits of one event, each with a settle, and what they are answered.
fn changes(alloc: Global, bundles: u64) -> Result<(Vec<u8>, Vec<u8>), AllocError> {
    let mut lines = Vec::new(alloc);
    let mut answers = Vec::new(alloc);
    for k in 1..=bundles {
        let put = format!(in alloc;
            "commit {{\"changes\":[{{\"put\":\"event\",\"key\":\"e1\",\"fields\":{{\"title\":\"t{k}\"}}}}]}}\nsettle\n"
        )?;
        lines.extend_from_slice(put.as_bytes())?;
        let version = k.saturating_add(1);
        let edition = k.saturating_add(2);
        let told = format!(in alloc;
            "committed {version}\nsettled {version} edition {edition} bundles 1 expanded 1 joined 1 kept 1\n"
        )?;
        answers.extend_from_slice(told.as_bytes())?;
    }
    Ok((lines, answers))
}

// A cache of this mode has a page that changes in so many bundles and one that stays. Then the newest edition is
// delivered, and both are asked for again: these are the answers.
fn delivers_behind(
    rt: &(impl Abort + Alloc<A = Global> + Threads + Sync),
    mode: &str,
    bundles: u64,
    delivered: &str,
) -> Result<(), Fail> {
    let alloc = rt.alloc();
    let (lines, answers) = changes(alloc, bundles)?;
    let asks = b"get 1 2 /event/e1\nget 1 2 /event/e2\n";
    let input = joined(
        alloc,
        &[
            SITE,
            TWO.as_bytes(),
            b"\nsettle\nnode 1 4 ",
            mode.as_bytes(),
            b"\n",
            asks,
            &lines,
            b"deliver 1\n",
            asks,
        ],
    )?;
    let output = joined(
        alloc,
        &[
            b"site ok\ncommitted 1\n",
            BOTH.as_bytes(),
            b"\nnode 1\nfound 2 1 miss 10\n<h1>A</h1>\nfound 2 1 miss 10\n<h1>B</h1>\n",
            &answers,
            delivered.as_bytes(),
        ],
    )?;
    ends(rt, in_pieces(4096), &input, 0, &output)
}

#[test]
fn a_cache_that_invalidates_keeps_what_64_bundles_leave(rt: HostRuntime) -> Result<(), Fail> {
    delivers_behind(
        &rt,
        "invalidate",
        64,
        "delivered 1 edition 66 entries 1\nfound 66 65 miss 12\n<h1>t64</h1>\nfound 66 1 hit 10\n<h1>B</h1>\n",
    )
}

#[test]
fn a_cache_that_invalidates_keeps_nothing_over_65_bundles(rt: HostRuntime) -> Result<(), Fail> {
    delivers_behind(
        &rt,
        "invalidate",
        65,
        "delivered 1 edition 67 entries 0\nfound 67 66 miss 12\n<h1>t65</h1>\nfound 67 1 miss 10\n<h1>B</h1>\n",
    )
}

#[test]
fn a_cache_that_updates_keeps_all_over_64_bundles(rt: HostRuntime) -> Result<(), Fail> {
    delivers_behind(
        &rt,
        "update",
        64,
        "delivered 1 edition 66 entries 2\nfound 66 65 hit 12\n<h1>t64</h1>\nfound 66 1 hit 10\n<h1>B</h1>\n",
    )
}

#[test]
fn a_cache_that_updates_keeps_all_over_65_bundles(rt: HostRuntime) -> Result<(), Fail> {
    delivers_behind(
        &rt,
        "update",
        65,
        "delivered 1 edition 67 entries 2\nfound 67 66 hit 12\n<h1>t65</h1>\nfound 67 1 hit 10\n<h1>B</h1>\n",
    )
}

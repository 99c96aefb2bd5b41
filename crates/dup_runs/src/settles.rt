// Many commits and settles, their counts, and the versions of pages.
use crate::plays::{SITE, ends, in_pieces};
use std::alloc::{AllocError, Global};
use std::marker::Sync;
use std::process::Abort;
use std::test::Fail;
use std::thread::Threads;

// A site whose pages show two of its three fields.
const PAIRS: &[u8] = b"kind pair a b note
template pair_page of pair
field a
field b
end
family /pair pair_page
---
";

// The line of a put of one field.
fn put_line(
    alloc: Global,
    kind: &str,
    key: &str,
    field: &str,
    text: &str,
) -> Result<String, AllocError> {
    format!(in alloc;
        "commit {{\"changes\":[{{\"put\":\"{kind}\",\"key\":\"{key}\",\"fields\":{{\"{field}\":\"{text}\"}}}}]}}\n"
    )
}

// A line of a row: `+KIND KEY FIELD=TEXT` is a put, and others stand as they are.
fn line_of(alloc: Global, line: &str) -> Result<String, AllocError> {
    if let Some(put) = line.strip_prefix("+") {
        if let Some((kind, rest)) = put.split_once(" ") {
            if let Some((key, edit)) = rest.split_once(" ") {
                if let Some((field, text)) = edit.split_once("=") {
                    return put_line(alloc, kind, key, field, text);
                }
            }
        }
    }
    format!(in alloc; "{line}\n")
}

/// Over this site each line has the answer beside it.
pub(crate) fn row_holds(
    rt: &(impl Abort + Alloc<A = Global> + Threads + Sync),
    site: &[u8],
    row: &[(&str, &str)],
) -> Result<(), Fail> {
    let alloc = rt.alloc();
    let mut input = site.to_vec(alloc)?;
    let mut output = b"site ok\n".to_vec(alloc)?;
    for (line, answer) in row {
        input.extend_from_slice(line_of(alloc, line)?.as_bytes())?;
        output.extend_from_slice(answer.as_bytes())?;
        output.push(b'\n')?;
    }
    ends(rt, in_pieces(64), &input, 0, &output)
}

#[test]
fn a_page_that_no_commit_changes_keeps_its_version(rt: HostRuntime) -> Result<(), Fail> {
    row_holds(
        &rt,
        SITE,
        &[
            ("+event e1 title=A", "committed 1"),
            ("+event e2 title=B", "committed 2"),
            (
                "settle",
                "settled 2 edition 2 bundles 2 expanded 2 joined 2 kept 0",
            ),
            ("+event e1 title=C", "committed 3"),
            (
                "settle",
                "settled 3 edition 3 bundles 1 expanded 1 joined 1 kept 1",
            ),
            (
                "settle",
                "settled 3 edition 3 bundles 0 expanded 0 joined 0 kept 2",
            ),
            ("node 1 4 update", "node 1"),
            ("get 1 3 /event/e1", "found 3 3 miss 10\n<h1>C</h1>"),
            ("get 1 0 /event/e2", "found 3 2 miss 10\n<h1>B</h1>"),
        ],
    )
}

#[test]
fn a_text_that_comes_back_between_settles_changes_nothing(rt: HostRuntime) -> Result<(), Fail> {
    row_holds(
        &rt,
        SITE,
        &[
            ("+event e1 title=A", "committed 1"),
            (
                "settle",
                "settled 1 edition 1 bundles 1 expanded 1 joined 1 kept 0",
            ),
            ("+event e1 title=B", "committed 2"),
            ("+event e1 title=A", "committed 3"),
            (
                "settle",
                "settled 3 edition 1 bundles 0 expanded 0 joined 0 kept 1",
            ),
            ("node 1 4 update", "node 1"),
            ("get 1 0 /event/e1", "found 1 1 miss 10\n<h1>A</h1>"),
        ],
    )
}

#[test]
fn a_text_that_comes_back_over_a_settle_goes_out_again(rt: HostRuntime) -> Result<(), Fail> {
    row_holds(
        &rt,
        SITE,
        &[
            ("node 1 4 update", "node 1"),
            ("+event e1 title=A", "committed 1"),
            ("get 1 0 /event/e1", "absent 0"),
            (
                "settle",
                "settled 1 edition 1 bundles 1 expanded 1 joined 1 kept 0",
            ),
            ("+event e1 title=B", "committed 2"),
            ("get 1 0 /event/e1", "found 1 1 miss 10\n<h1>A</h1>"),
            (
                "settle",
                "settled 2 edition 2 bundles 1 expanded 1 joined 1 kept 0",
            ),
            ("get 1 0 /event/e1", "found 1 1 hit 10\n<h1>A</h1>"),
            ("get 1 3 /event/e1", "ahead 3 2"),
            ("+event e1 title=A", "committed 3"),
            (
                "settle",
                "settled 3 edition 3 bundles 1 expanded 1 joined 1 kept 0",
            ),
            ("get 1 3 /event/e1", "found 3 3 hit 10\n<h1>A</h1>"),
        ],
    )
}

// What is read anew is expanded and joined; only what shows other bytes goes out.
#[test]
fn counts_are_of_what_is_read(rt: HostRuntime) -> Result<(), Fail> {
    row_holds(
        &rt,
        PAIRS,
        &[
            ("+pair p1 a=x", "committed 1"),
            ("+pair p1 b=yz", "committed 2"),
            ("+pair p2 note=n", "committed 3"),
            (
                "settle",
                "settled 3 edition 2 bundles 2 expanded 2 joined 2 kept 0",
            ),
            ("+pair p1 a=xy", "committed 4"),
            ("+pair p1 b=z", "committed 5"),
            (
                "settle",
                "settled 5 edition 2 bundles 0 expanded 1 joined 1 kept 1",
            ),
            ("+pair p1 note=n", "committed 6"),
            ("+pair p2 note=m", "committed 7"),
            (
                "settle",
                "settled 7 edition 2 bundles 0 expanded 0 joined 0 kept 2",
            ),
            ("+pair p2 b=q", "committed 8"),
            (
                "settle",
                "settled 8 edition 3 bundles 1 expanded 1 joined 1 kept 1",
            ),
            ("node 1 1 update", "node 1"),
            ("get 1 0 /pair/p1", "found 3 3 miss 3\nxyz"),
            ("get 1 0 /pair/p2", "found 3 8 miss 1\nq"),
        ],
    )
}

#[test]
fn two_nodes_catch_up_in_their_modes(rt: HostRuntime) -> Result<(), Fail> {
    row_holds(
        &rt,
        SITE,
        &[
            ("+event e1 title=A", "committed 1"),
            (
                "settle",
                "settled 1 edition 1 bundles 1 expanded 1 joined 1 kept 0",
            ),
            ("node 16 4 update", "node 16"),
            ("node 2 4 invalidate", "node 2"),
            ("get 16 0 /event/e1", "found 1 1 miss 10\n<h1>A</h1>"),
            ("get 2 1 /event/e1", "found 1 1 miss 10\n<h1>A</h1>"),
            ("get 1 0 /event/e1", "no node 1"),
            ("node 2 1 update", "node 2 taken"),
            ("+event e1 title=B", "committed 2"),
            (
                "settle",
                "settled 2 edition 2 bundles 1 expanded 1 joined 1 kept 0",
            ),
            ("get 16 2 /event/e1", "found 2 2 hit 10\n<h1>B</h1>"),
            ("get 2 2 /event/e1", "found 2 2 miss 10\n<h1>B</h1>"),
        ],
    )
}

#[test]
fn a_script_may_have_a_thousand_commits_and_settles(rt: HostRuntime) -> Result<(), Fail> {
    let alloc = rt.alloc();
    let mut input = SITE.to_vec(alloc)?;
    let mut output = b"site ok\n".to_vec(alloc)?;
    for done in 0..1000u64 {
        let row = done % 10;
        let kept = done.min(9);
        let version = done + 1;
        let line = format!(in alloc; "+event e{row} title=t{version}")?;
        input.extend_from_slice(line_of(alloc, &line)?.as_bytes())?;
        input.extend_from_slice(b"settle\n")?;
        let answer = format!(in alloc;
            "committed {version}\nsettled {version} edition {version} bundles 1 expanded 1 joined 1 kept {kept}\n"
        )?;
        output.extend_from_slice(answer.as_bytes())?;
    }
    input.extend_from_slice(b"node 1 4 update\nget 1 1000 /event/e6\n")?;
    output.extend_from_slice(b"node 1\nfound 1000 997 miss 13\n<h1>t997</h1>\n")?;
    ends(&rt, in_pieces(4096), &input, 0, &output)
}

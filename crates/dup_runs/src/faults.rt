// Each call of the source and of the sink fails in turn.
use crate::plays::{SITE, Setting, ends, in_pieces, joined, run};
use std::alloc::{AllocError, Global};
use std::marker::Sync;
use std::process::Abort;
use std::test::Fail;
use std::thread::Threads;

const SCRIPT: &[u8] =
    b"commit {\"changes\":[{\"put\":\"event\",\"key\":\"e1\",\"fields\":{\"title\":\"100m\"}}]}
settle
node 1 4 update
get 1 0 /event/e1
";

const OUTPUT: &[u8] = b"site ok
committed 1
settled 1 edition 1 bundles 1 expanded 1 joined 1 kept 0
node 1
found 1 1 miss 13
<h1>100m</h1>
";

fn failing<'a>(piece: usize, source_fails: &'a [u64], sink_fails: &'a [u64]) -> Setting<'a> {
    Setting {
        words: &["play"],
        piece,
        source_fails,
        sink_fails,
    }
}

fn input_of(alloc: Global) -> Result<Vec<u8>, AllocError> {
    joined(alloc, &[SITE, SCRIPT])
}

// A run whose source fails this call ends with 3, and has written the start of its answers and then one line.
fn ends_at_read(
    rt: &(impl Abort + Alloc<A = Global> + Threads + Sync),
    piece: usize,
    call: u64,
) -> Result<(), Fail> {
    let input = input_of(rt.alloc())?;
    let (status, written) = run(rt, failing(piece, &[call], &[]), &input)?;
    assert_eq!(rt; status, 3, "read {call} in pieces of {piece}");
    match written.strip_suffix(b"read fault\n") {
        Some(answers) => assert!(rt;
            OUTPUT.starts_with(answers),
            "read {call} in pieces of {piece}"
        ),
        None => assert!(rt; false, "read {call} in pieces of {piece}"),
    }
    Ok(())
}

// All reads of a run over so many bytes: those of its pieces, and the one that finds the end.
fn reads(length: usize, piece: usize) -> u64 {
    (length.div_ceil(piece.max(1)) as u64).saturating_add(1)
}

#[test]
fn each_read_that_fails_is_told(rt: HostRuntime) -> Result<(), Fail> {
    let input = input_of(rt.alloc())?;
    for piece in [1, 64] {
        let past = reads(input.len(), piece).saturating_add(1);
        for call in 1..past {
            ends_at_read(&rt, piece, call)?;
        }
        ends(&rt, failing(piece, &[past], &[]), &input, 0, OUTPUT)?;
    }
    Ok(())
}

#[test]
fn each_write_of_a_byte_that_fails_is_told(rt: HostRuntime) -> Result<(), Fail> {
    let input = input_of(rt.alloc())?;
    for call in 0..OUTPUT.len() {
        let fails = [call as u64 + 1];
        ends(&rt, failing(1, &[], &fails), &input, 4, &OUTPUT[..call])?;
    }
    let fails = [OUTPUT.len() as u64 + 1];
    ends(&rt, failing(1, &[], &fails), &input, 0, OUTPUT)
}

#[test]
fn each_write_of_a_piece_that_fails_is_told(rt: HostRuntime) -> Result<(), Fail> {
    let input = input_of(rt.alloc())?;
    let mut refused = 0u64;
    for call in 1..20u64 {
        let (status, written) = run(&rt, failing(64, &[], &[call]), &input)?;
        assert!(rt; OUTPUT.starts_with(&written), "write {call}");
        if written.as_slice() == OUTPUT {
            assert_eq!(rt; status, 0, "write {call}");
        } else {
            assert_eq!(rt; status, 4, "write {call}");
            assert_eq!(rt; call, refused.saturating_add(1));
            refused = call;
        }
    }
    assert!(rt; refused >= 3);
    Ok(())
}

#[test]
fn a_failed_write_comes_before_all_else(rt: HostRuntime) -> Result<(), Fail> {
    let input = input_of(rt.alloc())?;
    ends(&rt, failing(64, &[1], &[1]), &input, 4, b"")?;
    ends(&rt, failing(64, &[], &[1]), b"no site", 4, b"")?;
    let wrong = Setting {
        words: &["games", "1"],
        piece: 64,
        source_fails: &[],
        sink_fails: &[2],
    };
    ends(
        &rt,
        wrong,
        &input,
        4,
        b"usage: dup_top play | check | render | games N | serve PORT NODE",
    )?;
    ends(&rt, in_pieces(64), &input, 0, OUTPUT)
}

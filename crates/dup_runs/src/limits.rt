// Lines, texts, keys, names and paths at their limits.
use crate::plays::{SITE, answers, ends, in_pieces, joined, repeated};
use std::alloc::{AllocError, Global};
use std::marker::Sync;
use std::process::Abort;
use std::test::Fail;
use std::thread::Threads;

// The line of a put of one field.
fn put_line(
    alloc: Global,
    kind: &[u8],
    key: &[u8],
    field: &[u8],
    text: &[u8],
) -> Result<Vec<u8>, AllocError> {
    joined(
        alloc,
        &[
            b"commit {\"changes\":[{\"put\":\"",
            kind,
            b"\",\"key\":\"",
            key,
            b"\",\"fields\":{\"",
            field,
            b"\":\"",
            text,
            b"\"}}]}\n",
        ],
    )
}

#[test]
fn a_line_of_the_site_text_may_be_so_long(rt: HostRuntime) -> Result<(), Fail> {
    let alloc = rt.alloc();
    let long = repeated(alloc, b'#', 262_144)?;
    let input = joined(alloc, &[&long, b"\n", SITE])?;
    ends(&rt, in_pieces(4096), &input, 0, b"site ok\n")?;
    let input = joined(alloc, &[b"#", &long, b"\n", SITE])?;
    ends(&rt, in_pieces(4096), &input, 7, b"too long: line 1\n")
}

#[test]
fn a_line_of_the_script_may_be_so_long(rt: HostRuntime) -> Result<(), Fail> {
    let alloc = rt.alloc();
    let long = repeated(alloc, b'x', 262_144)?;
    let input = joined(alloc, &[SITE, &long])?;
    ends(&rt, in_pieces(4096), &input, 0, b"site ok\nbad line 9\n")?;
    let input = joined(alloc, &[SITE, b"node 1 4 update\n", &long, b"x\nsettle\n"])?;
    let output = b"site ok\nnode 1\ntoo long: line 10\n";
    ends(&rt, in_pieces(4096), &input, 7, output)
}

#[test]
fn a_text_has_4096_bytes_at_most(rt: HostRuntime) -> Result<(), Fail> {
    let alloc = rt.alloc();
    let text = repeated(alloc, b'a', 4096)?;
    let line = put_line(alloc, b"event", b"e1", b"title", &text)?;
    let script = joined(
        alloc,
        &[&line, b"settle\nnode 1 4 update\nget 1 0 /event/e1\n"],
    )?;
    let wanted = joined(
        alloc,
        &[
            b"committed 1\nsettled 1 edition 1 bundles 1 expanded 1 joined 1 kept 0\nnode 1\nfound 1 1 miss 4105\n<h1>",
            &text,
            b"</h1>\n",
        ],
    )?;
    answers(&rt, &script, &wanted)?;
    let long = repeated(alloc, b'a', 4097)?;
    let line = put_line(alloc, b"event", b"e1", b"title", &long)?;
    answers(&rt, &line, b"refused shape 1\n")
}

#[test]
fn keys_have_48_bytes_at_most(rt: HostRuntime) -> Result<(), Fail> {
    let alloc = rt.alloc();
    let key = repeated(alloc, b'-', 48)?;
    let line = put_line(alloc, b"event", &key, b"title", b"")?;
    let script = joined(
        alloc,
        &[
            &line,
            b"settle\nnode 1 4 update\nget 1 0 /event/",
            &key,
            b"\n",
        ],
    )?;
    let wanted = b"committed 1
settled 1 edition 1 bundles 1 expanded 1 joined 1 kept 0
node 1
found 1 1 miss 9
<h1></h1>
";
    answers(&rt, &script, wanted)?;
    let long = repeated(alloc, b'-', 49)?;
    let line = put_line(alloc, b"event", &long, b"title", b"")?;
    answers(&rt, &line, b"refused shape 1\n")
}

#[test]
fn names_have_32_bytes_at_most(rt: HostRuntime) -> Result<(), Fail> {
    let alloc = rt.alloc();
    let name = repeated(alloc, b'z', 32)?;
    let line = put_line(alloc, &name, b"e1", b"title", b"")?;
    answers(&rt, &line, b"refused unknown kind at 1\n")?;
    let line = put_line(alloc, b"event", b"e1", &name, b"")?;
    answers(&rt, &line, b"refused unknown field at 1\n")?;
    let long = repeated(alloc, b'z', 33)?;
    let line = put_line(alloc, &long, b"e1", b"title", b"")?;
    answers(&rt, &line, b"refused shape 1\n")?;
    let line = put_line(alloc, b"event", b"e1", &long, b"")?;
    answers(&rt, &line, b"refused shape 1\n")
}

// A request for a path of so many bytes has this answer.
fn request_has(
    rt: &(impl Abort + Alloc<A = Global> + Threads + Sync),
    length: usize,
    answer: &[u8],
) -> Result<(), Fail> {
    let alloc = rt.alloc();
    let path = repeated(alloc, b'.', length.saturating_sub(1))?;
    let script = joined(alloc, &[b"node 1 4 update\nget 1 0 /", &path])?;
    let wanted = joined(alloc, &[b"node 1\n", answer])?;
    answers(rt, &script, &wanted)
}

#[test]
fn paths_have_200_bytes_at_most(rt: HostRuntime) -> Result<(), Fail> {
    request_has(&rt, 200, b"absent 0\n")?;
    request_has(&rt, 201, b"bad line 10\n")
}

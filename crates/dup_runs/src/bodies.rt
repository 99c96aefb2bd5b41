// Bodies of templates that a feed replaces while a site is rendered.
use crate::plays::{SITE, ends, joined, rendering, repeated};
use std::alloc::{AllocError, Global};
use std::test::Fail;

// The commit that puts event e1 with title A.
const A: &[u8] =
    b"commit {\"changes\":[{\"put\":\"event\",\"key\":\"e1\",\"fields\":{\"title\":\"A\"}}]}\n";

// What a commit that replaces the body of the event's page writes up to its lines, and behind them.
const FRONT: &[u8] = b"commit {\"changes\":[{\"template\":\"event_page\",\"body\":[";

const BACK: &[u8] = b"]}]}\n";

// The page of event e1 before its body is replaced.
const A_PAGE: &[u8] = b"page /event/e1 10\n<h1>A</h1>\n";

// A site whose first template may not embed its second.
const TWO_TEMPLATES: &[u8] = b"kind event title
template event_page of event
field title
end
template home
= home
end
page / home
family /event event_page
---
";

#[test]
fn a_body_is_replaced_or_refused(rt: HostRuntime) -> Result<(), Fail> {
    let rows: [(&str, &[u8], &[u8]); 8] = [
        (
            "another body",
            b"commit {\"changes\":[{\"template\":\"event_page\",\"body\":[\"= <b>\",\"field title\",\"= </b>\"]}]}",
            b"page /event/e1 8\n<b>A</b>\n",
        ),
        (
            "members in another order",
            b"commit {\"changes\":[{\"body\":[],\"template\":\"event_page\"}]}",
            b"page /event/e1 0\n\n",
        ),
        (
            "a field that the kind lacks",
            b"commit {\"changes\":[{\"template\":\"event_page\",\"body\":[\"field name\"]}]}",
            b"refused bad body at 1: unknown name\npage /event/e1 10\n<h1>A</h1>\n",
        ),
        (
            "a template that isn't there",
            b"commit {\"changes\":[{\"template\":\"x\",\"body\":[]}]}",
            b"refused unknown template at 1\npage /event/e1 10\n<h1>A</h1>\n",
        ),
        (
            "a line that closes the template",
            b"commit {\"changes\":[{\"template\":\"event_page\",\"body\":[\"end\"]}]}",
            b"refused shape 1\npage /event/e1 10\n<h1>A</h1>\n",
        ),
        (
            "a line that is no string",
            b"commit {\"changes\":[{\"template\":\"event_page\",\"body\":[1]}]}",
            b"refused shape 1\npage /event/e1 10\n<h1>A</h1>\n",
        ),
        (
            "a name that is none, behind a change that is one",
            b"commit {\"changes\":[{\"remove\":\"event\",\"key\":\"e1\"},{\"template\":\"X\",\"body\":[]}]}",
            b"refused shape 2\npage /event/e1 10\n<h1>A</h1>\n",
        ),
        (
            "replaced twice in one commit",
            b"commit {\"changes\":[{\"template\":\"event_page\",\"body\":[\"= 1\"]},{\"template\":\"event_page\",\"body\":[\"= 2\"]}]}",
            b"page /event/e1 1\n2\n",
        ),
    ];
    for (name, line, output) in rows {
        let input = joined(rt.alloc(), &[SITE, A, line, b"\n# ", name.as_bytes()])?;
        ends(&rt, rendering(64), &input, 0, output)?;
    }
    Ok(())
}

#[test]
fn a_body_embeds_earlier_templates(rt: HostRuntime) -> Result<(), Fail> {
    let line = b"commit {\"changes\":[{\"template\":\"event_page\",\"body\":[\"embed home\"]}]}";
    let input = joined(rt.alloc(), &[TWO_TEMPLATES, line])?;
    let output = b"refused bad body at 1: later home\npage / 4\nhome\n";
    ends(&rt, rendering(64), &input, 0, output)
}

// The commit that replaces the body by a line so many times, and then by another so many times.
fn replaced(
    alloc: Global,
    line: &[u8],
    times: usize,
    behind: &[u8],
    more: usize,
) -> Result<Vec<u8>, AllocError> {
    let mut all = joined(alloc, &[FRONT])?;
    for i in 0..times {
        if i > 0 {
            all.push(b',')?;
        }
        all.extend_from_slice(&joined(alloc, &[b"\"", line, b"\""])?)?;
    }
    for _ in 0..more {
        all.extend_from_slice(&joined(alloc, &[b",\"", behind, b"\""])?)?;
    }
    all.extend_from_slice(BACK)?;
    Ok(all)
}

#[test]
fn a_line_of_a_body_has_4096_bytes_at_most(rt: HostRuntime) -> Result<(), Fail> {
    let alloc = rt.alloc();
    let text = repeated(alloc, b'a', 4094)?;
    let line = replaced(alloc, &joined(alloc, &[b"= ", &text])?, 1, b"", 0)?;
    let input = joined(alloc, &[SITE, A, &line])?;
    let output = joined(alloc, &[b"page /event/e1 4094\n", &text, b"\n"])?;
    ends(&rt, rendering(4096), &input, 0, &output)?;
    let line = replaced(alloc, &joined(alloc, &[b"= a", &text])?, 1, b"", 0)?;
    let input = joined(alloc, &[SITE, A, &line])?;
    let output = joined(alloc, &[b"refused shape 1\n", A_PAGE])?;
    ends(&rt, rendering(4096), &input, 0, &output)
}

#[test]
fn a_body_has_4096_statements_at_most(rt: HostRuntime) -> Result<(), Fail> {
    let alloc = rt.alloc();
    let line = replaced(alloc, b"nl", 4097, b"", 0)?;
    let input = joined(alloc, &[SITE, A, &line])?;
    let output = joined(
        alloc,
        &[b"refused bad body at 1: too many statements\n", A_PAGE],
    )?;
    ends(&rt, rendering(4096), &input, 0, &output)
}

#[test]
fn a_body_nested_2048_deep_is_refused(rt: HostRuntime) -> Result<(), Fail> {
    let alloc = rt.alloc();
    let line = replaced(alloc, b"if title", 2048, b"end", 2048)?;
    let input = joined(alloc, &[SITE, A, &line])?;
    let output = joined(
        alloc,
        &[b"refused bad body at 1: too many nesting\n", A_PAGE],
    )?;
    ends(&rt, rendering(4096), &input, 0, &output)
}

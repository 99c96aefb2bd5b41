// What `render` writes, and how it ends.
use crate::plays::{SITE, Setting, each_has_cause, ends, joined, rendering, repeated};
use dup_samples::RESULTS_SITE;
use std::alloc::Global;
use std::marker::Sync;
use std::process::Abort;
use std::test::Fail;
use std::thread::Threads;

// The commit that puts event e1 with title 100m.
const E1: &[u8] =
    b"commit {\"changes\":[{\"put\":\"event\",\"key\":\"e1\",\"fields\":{\"title\":\"100m\"}}]}\n";

// The page that it has in the site of one kind.
const E1_PAGE: &[u8] = b"page /event/e1 13\n<h1>100m</h1>\n";

// A site whose page of an event links to the next event.
const LINKS: &[u8] = b"kind event next
template event_page of event
link event_page via next
= next
end
end
family /event event_page
---
";

// Each of these scripts over the site writes this.
fn each_renders(
    rt: &(impl Abort + Alloc<A = Global> + Threads + Sync),
    rows: &[(&[u8], &[u8])],
) -> Result<(), Fail> {
    for (script, output) in rows {
        let input = joined(rt.alloc(), &[SITE, script])?;
        ends(rt, rendering(64), &input, 0, output)?;
    }
    Ok(())
}

#[test]
fn a_row_has_its_page_in_pieces_of_any_size(rt: HostRuntime) -> Result<(), Fail> {
    let input = joined(rt.alloc(), &[SITE, E1])?;
    for piece in [1, 7, 64, 4096] {
        ends(&rt, rendering(piece), &input, 0, E1_PAGE)?;
    }
    Ok(())
}

#[test]
fn the_results_of_an_event_stand_by_place(rt: HostRuntime) -> Result<(), Fail> {
    let script =
        b"commit {\"changes\":[{\"put\":\"event\",\"key\":\"e1\",\"fields\":{\"title\":\"100m\"}}]}
commit {\"changes\":[{\"put\":\"result\",\"key\":\"r1\",\"fields\":{\"event\":\"e1\",\"place\":\"2\",\"who\":\"Ann\"}}]}
commit {\"changes\":[{\"put\":\"result\",\"key\":\"r2\",\"fields\":{\"event\":\"e1\",\"place\":\"10\",\"who\":\"Bob\"}}]}
commit {\"changes\":[{\"put\":\"result\",\"key\":\"r3\",\"fields\":{\"event\":\"e1\",\"place\":\"9\",\"who\":\"Cy\"}}]}
";
    let input = joined(rt.alloc(), &[RESULTS_SITE, b"---\n", script])?;
    ends(
        &rt,
        rendering(64),
        &input,
        0,
        b"page /event/e1 55\n<h1>100m</h1><li>2:Ann</li><li>9:Cy</li><li>10:Bob</li>\n",
    )
}

#[test]
fn pages_stand_in_the_order_of_their_paths(rt: HostRuntime) -> Result<(), Fail> {
    let site = b"kind event title
template event_page of event
field title
end
template home
= two
nl
= lines
end
template empty
end
page /z empty
page / home
family /event event_page
---
";
    let script =
        b"commit {\"changes\":[{\"put\":\"event\",\"key\":\"e2\",\"fields\":{\"title\":\"a&b\"}}]}
commit {\"changes\":[{\"put\":\"event\",\"key\":\"e10\",\"fields\":{\"title\":\"10\"}}]}
commit {\"changes\":[{\"put\":\"event\",\"key\":\"e1\",\"fields\":{\"title\":\"1\"}}]}
";
    let input = joined(rt.alloc(), &[site, script])?;
    let output = b"page / 9
two
lines
page /event/e1 1
1
page /event/e10 2
10
page /event/e2 7
a&amp;b
page /z 0

";
    ends(&rt, rendering(64), &input, 0, output)
}

#[test]
fn pages_of_a_site_without_rows(rt: HostRuntime) -> Result<(), Fail> {
    let rows: [(&[u8], &[u8]); 10] = [
        (b"", b""),
        (b"---", b""),
        (b"---\n", b""),
        (b"kind event title\n", b""),
        (b"template t\n= a\nend\n---\n", b""),
        (SITE, b""),
        (
            b"template t\n= a\nnl\n= b\nend\npage / t\n",
            b"page / 3\na\nb\n",
        ),
        (b"template t\nnl\nend\npage / t\n---\n", b"page / 1\n\n\n"),
        (b"template t\nend\npage / t\n---\n", b"page / 0\n\n"),
        (
            b"template t\n= hi\nend\npage /a.html t",
            b"page /a.html 2\nhi\n",
        ),
    ];
    for (input, output) in rows {
        ends(&rt, rendering(64), input, 0, output)?;
    }
    Ok(())
}

#[test]
fn a_link_goes_to_a_page_that_exists(rt: HostRuntime) -> Result<(), Fail> {
    let script =
        b"commit {\"changes\":[{\"put\":\"event\",\"key\":\"e1\",\"fields\":{\"next\":\"e2\"}}]}
commit {\"changes\":[{\"put\":\"event\",\"key\":\"e2\",\"fields\":{\"next\":\"e3\"}}]}
";
    let input = joined(rt.alloc(), &[LINKS, script])?;
    ends(
        &rt,
        rendering(64),
        &input,
        0,
        b"page /event/e1 28\n<a href=\"/event/e2\">next</a>\npage /event/e2 4\nnext\n",
    )
}

#[test]
fn a_refused_commit_is_told_and_changes_nothing(rt: HostRuntime) -> Result<(), Fail> {
    each_renders(
        &rt,
        &[
            (
                b"commit {\"changes\":[{\"put\":\"heat\",\"key\":\"e1\",\"fields\":{\"title\":\"100m\"}}]}\n",
                b"refused unknown kind at 1\n",
            ),
            (
                b"commit {\"changes\":[{\"put\":\"event\",\"key\":\"e1\",\"fields\":{\"name\":\"100m\"}}]}\n",
                b"refused unknown field at 1\n",
            ),
            (
                b"commit {\"changes\":[{\"put\":\"event\",\"key\":\"e1\",\"fields\":{\"title\":\"100m\"}}]}
commit {\"changes\":[{\"put\":\"event\",\"key\":\"e1\",\"fields\":{\"name\":\"200m\"}}]}
commit {\"changes\":[{\"put\":\"heat\",\"key\":\"e2\",\"fields\":{\"title\":\"200m\"}}]}
",
                b"refused unknown field at 1\nrefused unknown kind at 1\npage /event/e1 13\n<h1>100m</h1>\n",
            ),
            (
                b"commit {\"changes\":[{\"put\":\"event\",\"key\":\"e1\",\"fields\":{\"title\":\"100m\"}}]}
commit {\"changes\":[{\"put\":\"event\",\"key\":\"e1\",\"fields\":{\"title\":\"<\"}}]}
",
                b"page /event/e1 13\n<h1>&lt;</h1>\n",
            ),
        ],
    )
}

#[test]
fn other_lines_are_bad_lines(rt: HostRuntime) -> Result<(), Fail> {
    let lines: [&[u8]; 8] = [
        b"hello",
        b"settle",
        b"status",
        b"begin",
        b"node 1 4 update",
        b"get 1 0 /event/e1",
        b"commit",
        b"---",
    ];
    for line in lines {
        let input = joined(rt.alloc(), &[SITE, line])?;
        ends(&rt, rendering(64), &input, 0, b"bad line 9\n")?;
        let input = joined(rt.alloc(), &[SITE, E1, b"\n  # e1\n", line, b"\n#\n"])?;
        let output = joined(rt.alloc(), &[b"bad line 12\n", E1_PAGE])?;
        ends(&rt, rendering(64), &input, 0, &output)?;
    }
    Ok(())
}

#[test]
fn a_bad_message_is_refused_and_changes_nothing(rt: HostRuntime) -> Result<(), Fail> {
    each_renders(
        &rt,
        &[
            (b"commit e1", b"refused not json\n"),
            (b"commit {}", b"refused shape 0\n"),
            (b"commit {\"changes\":[]}", b"refused shape 0\n"),
            (b"commit {\"changes\":[1]}", b"refused shape 1\n"),
        ],
    )
}

#[test]
fn each_change_of_a_commit_is_taken(rt: HostRuntime) -> Result<(), Fail> {
    each_renders(
        &rt,
        &[
            (
                b"commit {\"changes\":[{\"put\":\"event\",\"key\":\"e1\",\"fields\":{\"title\":\"a\"}},{\"put\":\"event\",\"key\":\"e2\",\"fields\":{}}]}
commit {\"changes\":[{\"remove\":\"event\",\"key\":\"e2\"}]}
",
                b"page /event/e1 10\n<h1>a</h1>\n",
            ),
            (
                b"commit {\"changes\":[{\"remove\":\"event\",\"key\":\"e1\"}]}",
                b"refused no row at 1\n",
            ),
        ],
    )
}

#[test]
fn blank_lines_and_comments_write_nothing(rt: HostRuntime) -> Result<(), Fail> {
    each_renders(
        &rt,
        &[
            (b"\n", b""),
            (b"   \r\n", b""),
            (b"# settle\n", b""),
            (b"  #\n\n#", b""),
        ],
    )
}

#[test]
fn a_render_tells_what_is_wrong_with_a_site(rt: HostRuntime) -> Result<(), Fail> {
    let rows: [(&[u8], &str); 4] = [
        (b"template t\nend\npage / u\n", "unknown u"),
        (b"template t\nend\npage / u\n---\nhello\n", "unknown u"),
        (b"kind a\nkind b\nkind a\nkinds\n", "line 4"),
        (b"kind a\nkind a\n---\n", "twice a"),
    ];
    each_has_cause(&rt, rendering(64), &rows)
}

#[test]
fn a_line_that_is_too_long_ends_a_render_without_pages(rt: HostRuntime) -> Result<(), Fail> {
    let alloc = rt.alloc();
    let long = repeated(alloc, b'x', 262_144)?;
    let input = joined(alloc, &[SITE, E1, &long])?;
    let output = joined(alloc, &[b"bad line 10\n", E1_PAGE])?;
    ends(&rt, rendering(4096), &input, 0, &output)?;
    let input = joined(alloc, &[SITE, E1, b"hello\n", &long, b"x\nhello\n"])?;
    let output = b"bad line 10\ntoo long: line 11\n";
    ends(&rt, rendering(4096), &input, 7, output)?;
    let input = joined(alloc, &[b"kinds\n", &long, b"x\n---\n"])?;
    ends(&rt, rendering(4096), &input, 7, b"too long: line 2\n")
}

fn failing<'a>(piece: usize, source_fails: &'a [u64], sink_fails: &'a [u64]) -> Setting<'a> {
    Setting {
        source_fails,
        sink_fails,
        ..rendering(piece)
    }
}

#[test]
fn each_read_of_a_render_that_fails_is_told(rt: HostRuntime) -> Result<(), Fail> {
    let input = joined(rt.alloc(), &[SITE, E1])?;
    let past = input.len() as u64 + 2;
    for call in 1..past {
        ends(&rt, failing(1, &[call], &[]), &input, 3, b"read fault\n")?;
    }
    ends(&rt, failing(1, &[past], &[]), &input, 0, E1_PAGE)?;
    let input = joined(rt.alloc(), &[SITE, b"hello\n"])?;
    let last = input.len() as u64 + 1;
    let output = b"bad line 9\nread fault\n";
    ends(&rt, failing(1, &[last], &[]), &input, 3, output)
}

#[test]
fn each_write_of_a_render_that_fails_is_told(rt: HostRuntime) -> Result<(), Fail> {
    let input = joined(rt.alloc(), &[SITE, b"hello\n", E1])?;
    let output = joined(rt.alloc(), &[b"bad line 9\n", E1_PAGE])?;
    for call in 0..output.len() {
        let fails = [call as u64 + 1];
        ends(&rt, failing(1, &[], &fails), &input, 4, &output[..call])?;
    }
    let fails = [output.len() as u64 + 1];
    ends(&rt, failing(1, &[], &fails), &input, 0, &output)?;
    ends(&rt, failing(64, &[], &[2]), &input, 4, b"bad line 9\n")?;
    ends(&rt, failing(64, &[1], &[1]), &input, 4, b"")
}

// The canonical text of a site, and how `check` ends.
use crate::plays::{SITE, Setting, checking, each_has_cause, ends, in_pieces, joined, repeated};
use dup_samples::{EVENTS_SITE, RESULTS_SITE};
use std::marker::Sync;
use std::process::Abort;
use std::test::Fail;
use std::thread::Threads;

// The site of results, with comments, blank lines, and other spaces.
const SPACED: &[u8] = b"# results
  kind  event   title
\r
kind result event  who place   \r
   # a line
template line   of result
  = <li>
  field place
    = :
  field  who
  = </li>
end
   template event_page of event
= <h1>
field title
= </h1>
  each result  by event   order place
    embed line
  end
 end

family   /event  event_page";

// A site with each form of a line.
const FORMS: &[u8] = b"kind a f g
kind b
template home
=  two  
nl
each b
key
end
end
template u of a
field f
end
template t of a
if f
each a by f order g
each a by f
each a order g
embed u
embed u via f
end
end
end
link home
= home
end
link t via g
end
end
end
page / home
family /p.q/r_s-1 t
";

#[test]
fn a_site_is_written_line_for_line(rt: HostRuntime) -> Result<(), Fail> {
    for site in [RESULTS_SITE, FORMS, b"kind a\n", b"kind a f\n", b""] {
        for piece in [1, 64, 4096] {
            ends(&rt, checking(piece), site, 0, site)?;
        }
    }
    Ok(())
}

#[test]
fn comments_and_spaces_are_left_out(rt: HostRuntime) -> Result<(), Fail> {
    let alloc = rt.alloc();
    ends(&rt, checking(64), SPACED, 0, RESULTS_SITE)?;
    let more = joined(alloc, &[SPACED, b"\n\n  \n#\n"])?;
    ends(&rt, checking(64), &more, 0, RESULTS_SITE)?;
    let rows: [(&[u8], &[u8]); 6] = [
        (b"kind a", b"kind a\n"),
        (b"  kind   a  \n", b"kind a\n"),
        (
            b"template t\n  =  a  \n end \n",
            b"template t\n=  a  \nend\n",
        ),
        (b"template t\r\n= a\r\nend\r\n", b"template t\n= a\nend\n"),
        (b"# a\n\n   \n", b""),
        (b"#", b""),
    ];
    for (site, text) in rows {
        ends(&rt, checking(64), site, 0, text)?;
    }
    Ok(())
}

#[test]
fn what_stands_behind_the_site_text_is_not_looked_at(rt: HostRuntime) -> Result<(), Fail> {
    let alloc = rt.alloc();
    let long = repeated(alloc, b'x', 262_145)?;
    for behind in [
        b"".as_slice(),
        b"no line of a site\n",
        b"kind event\n---\n",
        b"\xff\x00",
        &long,
    ] {
        let input = joined(alloc, &[RESULTS_SITE, b"---\n", behind])?;
        ends(&rt, checking(64), &input, 0, RESULTS_SITE)?;
        let bare = joined(alloc, &[b"---\n", behind])?;
        ends(&rt, checking(64), &bare, 0, b"")?;
    }
    ends(&rt, checking(64), b"---", 0, b"")?;
    ends(&rt, checking(64), SITE, 0, EVENTS_SITE)
}

#[test]
fn what_meets_by_its_letters_alone_is_no_clash(rt: HostRuntime) -> Result<(), Fail> {
    let site = b"kind a
template r
end
template s
end
template t
end
template u of a
end
template v of a
end
page /p r
page /p/k/l/m s
page /p/k.html t
family /p u
family /p/k v
";
    ends(&rt, checking(64), site, 0, site)
}

#[test]
fn a_good_site_is_checked_and_played(rt: HostRuntime) -> Result<(), Fail> {
    let two: &[u8] = b"kind a\nkind b\ntemplate t of a\nend\nfamily /p t\n";
    for site in [two, RESULTS_SITE, FORMS, b""] {
        ends(&rt, checking(64), site, 0, site)?;
        ends(&rt, in_pieces(64), site, 0, b"site ok\n")?;
    }
    Ok(())
}

#[test]
fn both_commands_tell_the_same_cause(rt: HostRuntime) -> Result<(), Fail> {
    let rows: [(&[u8], &str); 3] = [
        (b"template t\nend\npage / u\n", "unknown u"),
        (b"template t\nend\npage / u\n---\nsettle\n", "unknown u"),
        (b"kind a\nkind b\nkind a\nkinds\n", "line 4"),
    ];
    each_has_cause(&rt, checking(64), &rows)?;
    each_has_cause(&rt, in_pieces(64), &rows)
}

#[test]
fn a_line_of_a_checked_text_may_be_so_long(rt: HostRuntime) -> Result<(), Fail> {
    let alloc = rt.alloc();
    let long = repeated(alloc, b'#', 262_144)?;
    ends(&rt, checking(4096), &long, 0, b"")?;
    let input = joined(alloc, &[&long, b"#"])?;
    ends(&rt, checking(4096), &input, 7, b"too long: line 1\n")?;
    let input = joined(alloc, &[b"kinds\n", &long, b"#\n---\n"])?;
    ends(&rt, checking(4096), &input, 7, b"too long: line 2\n")
}

fn failing<'a>(piece: usize, source_fails: &'a [u64], sink_fails: &'a [u64]) -> Setting<'a> {
    Setting {
        source_fails,
        sink_fails,
        ..checking(piece)
    }
}

#[test]
fn each_read_of_a_check_that_fails_is_told(rt: HostRuntime) -> Result<(), Fail> {
    let past = RESULTS_SITE.len() as u64 + 2;
    for call in 1..past {
        ends(
            &rt,
            failing(1, &[call], &[]),
            RESULTS_SITE,
            3,
            b"read fault\n",
        )?;
    }
    ends(&rt, failing(1, &[past], &[]), RESULTS_SITE, 0, RESULTS_SITE)?;
    ends(
        &rt,
        failing(4096, &[1], &[]),
        RESULTS_SITE,
        3,
        b"read fault\n",
    )?;
    ends(
        &rt,
        failing(4096, &[2], &[]),
        RESULTS_SITE,
        3,
        b"read fault\n",
    )?;
    ends(&rt, failing(4096, &[2], &[]), SITE, 0, EVENTS_SITE)
}

#[test]
fn each_write_of_a_check_that_fails_is_told(rt: HostRuntime) -> Result<(), Fail> {
    for call in 0..RESULTS_SITE.len() {
        let fails = [call as u64 + 1];
        ends(
            &rt,
            failing(1, &[], &fails),
            RESULTS_SITE,
            4,
            &RESULTS_SITE[..call],
        )?;
    }
    let bad = b"template t\nend\npage / u\n";
    let line = b"bad site: unknown u\n";
    for call in 0..line.len() {
        let fails = [call as u64 + 1];
        ends(&rt, failing(1, &[], &fails), bad, 4, &line[..call])?;
    }
    ends(&rt, failing(64, &[1], &[1]), RESULTS_SITE, 4, b"")
}

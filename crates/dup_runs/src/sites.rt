// Site texts that can be played today, and others.
use crate::plays::{each_has_cause, ends, in_pieces, joined, repeated};
use std::alloc::Global;
use std::marker::Sync;
use std::process::Abort;
use std::test::Fail;
use std::thread::Threads;

fn each_ends(
    rt: &(impl Abort + Alloc<A = Global> + Threads + Sync),
    sites: &[&[u8]],
    status: u8,
    output: &[u8],
) -> Result<(), Fail> {
    for site in sites {
        ends(rt, in_pieces(64), site, status, output)?;
    }
    Ok(())
}

#[test]
fn a_site_of_the_form_is_good(rt: HostRuntime) -> Result<(), Fail> {
    each_ends(
        &rt,
        &[
            b"kind a\ntemplate t of a\nend\nfamily /p t\n",
            b"kind a\ntemplate t of a\nend\nfamily /p t",
            b"kind a\ntemplate t of a\nend\nfamily /p t\n---",
            b"kind a\r\ntemplate t of a\r\nend\r\nfamily /p t\r\n---\r\n",
            b"# a site\n\n  kind  a  f  g \n template t of a\n   field f\n   =  \n   field g\n  end\nfamily /p/q.html t\n---\n",
        ],
        0,
        b"site ok\n",
    )
}

#[test]
fn a_good_site_of_any_form_is_played(rt: HostRuntime) -> Result<(), Fail> {
    each_ends(
        &rt,
        &[
            b"",
            b"---\n",
            b"kind a f\n",
            b"kind a\nkind b\ntemplate t of a\nend\nfamily /p t\n---\n",
            b"kind a\ntemplate t of a\nend\ntemplate u of a\nend\nfamily /p t\n---\n",
            b"kind a\ntemplate t of a\nend\n---\n",
            b"kind a\ntemplate t\nend\npage / t\n---\n",
            b"kind a\ntemplate t of a\nnl\nend\nfamily /p t\n---\n",
            b"kind a\ntemplate t of a\nkey\nend\nfamily /p t\n---\n",
            b"kind a f\ntemplate t of a\nif f\nend\nend\nfamily /p t\n---\n",
            b"kind a f\ntemplate t of a\nlink t\nend\nend\nfamily /p t\n---\n",
        ],
        0,
        b"site ok\n",
    )
}

#[test]
fn a_text_that_is_no_good_site_has_its_cause(rt: HostRuntime) -> Result<(), Fail> {
    each_has_cause(
        &rt,
        in_pieces(64),
        &[
            (b"kind a\ntemplate t of a\nend\nfamily /p t\n--\n", "line 5"),
            (
                b"kind a\ntemplate t of a\nend\nfamily /p t\n ---\nsettle\n",
                "line 5",
            ),
            (b"kind a\ntemplate t of a\nfamily /p t\n---\n", "line 3"),
            (
                b"kind a f\ntemplate t of a\nfeeld f\nend\nfamily /p t\n---\n",
                "line 3",
            ),
            (
                b"kind a f\ntemplate t of a\nfield g\nend\nfamily /p t\n---\n",
                "unknown g",
            ),
            (
                b"kind a\ntemplate t of b\nend\nfamily /p t\n---\n",
                "unknown b",
            ),
            (
                b"kind a\ntemplate t of a\nend\nfamily /p u\n---\n",
                "unknown u",
            ),
            (
                b"kind a\ntemplate t of a\nend\npage /p t\n---\n",
                "wrong kind t",
            ),
            (b"kind a\ntemplate t of a\nend\nfamily / t\n---\n", "line 4"),
            (
                b"kind a f f\ntemplate t of a\nend\nfamily /p t\n---\n",
                "twice f",
            ),
            (
                b"template t of a\nend\nkind a\nfamily /p t\n---\n",
                "line 3",
            ),
            (
                b"kind a\ntemplate t of a\n= \nend\nfamily /p t\n---\n",
                "line 3",
            ),
            (
                b"#\xff\nkind a\ntemplate t of a\nend\nfamily /p t\n---\n",
                "line 1",
            ),
            (
                b"template t\nend\ntemplate t\nend\npage / t\n---\nsettle\n",
                "twice t",
            ),
            (b"template t\nembed t\nend\n---\n", "later t"),
            (b"template t\nlink t\nend\nend\n---\n", "no page t"),
            (
                b"template t\nend\ntemplate u\nend\npage / t\npage / u\n---\n",
                "path clash /",
            ),
        ],
    )
}

#[test]
fn names_and_prefixes_have_bounds(rt: HostRuntime) -> Result<(), Fail> {
    let alloc = rt.alloc();
    let rows: [(usize, usize, u8, &[u8]); 3] = [
        (31, 119, 0, b"site ok\n"),
        (32, 119, 5, b"bad site: line 1\n"),
        (31, 120, 5, b"bad site: line 4\n"),
    ];
    for (name, prefix, status, output) in rows {
        let name = repeated(alloc, b'k', name)?;
        let prefix = repeated(alloc, b'p', prefix)?;
        let site = joined(
            alloc,
            &[
                b"kind k",
                &name,
                b"\ntemplate t of k",
                &name,
                b"\nend\nfamily /",
                &prefix,
                b" t\n---\n",
            ],
        )?;
        ends(&rt, in_pieces(64), &site, status, output)?;
    }
    Ok(())
}

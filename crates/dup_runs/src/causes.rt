// What is wrong with a site text, rule by rule.
use crate::plays::{checking, each_has_cause, ends, joined};
use std::alloc::{AllocError, Global};
use std::marker::Sync;
use std::process::Abort;
use std::test::Fail;
use std::thread::Threads;

#[test]
fn a_line_without_a_form_is_told_by_its_number(rt: HostRuntime) -> Result<(), Fail> {
    each_has_cause(
        &rt,
        checking(64),
        &[
            (b"template t\n= a\n= b\n", "line 4"),
            (b"template t\n= a\n= b", "line 4"),
            (b"template t\n= a\n= b\n---\nend\n", "line 4"),
            (b"kind a f\ntemplate t of a\nif f\nend\n", "line 5"),
            (b"template t", "line 2"),
            (b"kind\n", "line 1"),
            (b"kind A\n", "line 1"),
            (b"kind a\n\n# b\nkinds c\n", "line 4"),
            (b"kind a\n ---\n", "line 2"),
            (b"end\n", "line 1"),
            (b"nl\n", "line 1"),
            (b"= a\n", "line 1"),
            (b"template t\n=a\nend\n", "line 2"),
            (b"template t\n=\nend\n", "line 2"),
            (b"template t\nnl nl\nend\n", "line 2"),
            (b"template t\nlink u via\nend\nend\n", "line 2"),
            (b"template t\neach k order f by f\nend\nend\n", "line 2"),
            (b"template t\nend t\n", "line 2"),
            (b"template t\nend\nkind a\n", "line 3"),
            (b"template t\nend\npage / t\ntemplate u\nend\n", "line 4"),
            (b"page p t\n", "line 1"),
            (b"page / t u\n", "line 1"),
            (b"kind a\nkind a\nkind\n", "line 3"),
            (b"kind a\n\tkind b\n", "line 2"),
            (b"# \xff\n", "line 1"),
        ],
    )
}

#[test]
fn what_stands_twice_is_told(rt: HostRuntime) -> Result<(), Fail> {
    each_has_cause(
        &rt,
        checking(64),
        &[
            (b"kind a\nkind b\nkind a\n", "twice a"),
            (b"kind a f g f\n", "twice f"),
            (b"template t\nend\ntemplate t\nend\n", "twice t"),
            (b"template t\nend\npage / t\npage /x t\n", "twice t"),
            (
                b"kind a\ntemplate t of a\nend\nfamily /p t\nfamily /q t\n",
                "twice t",
            ),
        ],
    )
}

#[test]
fn what_is_not_there_is_unknown(rt: HostRuntime) -> Result<(), Fail> {
    each_has_cause(
        &rt,
        checking(64),
        &[
            (b"template t\nend\npage / u\n", "unknown u"),
            (b"template t\nend\nfamily /p u\n", "unknown u"),
            (b"template t of k\nend\n", "unknown k"),
            (b"kind a\ntemplate t of a\nfield f\nend\n", "unknown f"),
            (b"kind a\ntemplate t of a\nif f\nend\nend\n", "unknown f"),
            (
                b"kind a\ntemplate u of a\nend\ntemplate t of a\nembed u via f\nend\n",
                "unknown f",
            ),
            (
                b"kind a\ntemplate t of a\nlink t via f\nend\nend\nfamily /p t\n",
                "unknown f",
            ),
            (
                b"kind a f\nkind b g\ntemplate t of a\neach b by f\nend\nend\n",
                "unknown f",
            ),
            (
                b"kind a f\nkind b g\ntemplate t of a\neach b order f\nend\nend\n",
                "unknown f",
            ),
            (
                b"kind a f\nkind b g\ntemplate t of a\neach b\nfield f\nend\nend\n",
                "unknown f",
            ),
            (b"template t\neach k\nend\nend\n", "unknown k"),
            (b"template t\nembed u\nend\n", "unknown u"),
            (b"template t\nlink u\nend\nend\n", "unknown u"),
        ],
    )
}

#[test]
fn a_page_of_the_wrong_kind_is_told(rt: HostRuntime) -> Result<(), Fail> {
    each_has_cause(
        &rt,
        checking(64),
        &[
            (b"kind a\ntemplate t of a\nend\npage / t\n", "wrong kind t"),
            (b"template t\nend\nfamily /p t\n", "wrong kind t"),
        ],
    )
}

#[test]
fn a_statement_of_the_wrong_kind_is_told(rt: HostRuntime) -> Result<(), Fail> {
    each_has_cause(
        &rt,
        checking(64),
        &[
            (b"template t\nfield f\nend\n", "wrong kind t"),
            (b"template t\nkey\nend\n", "wrong kind t"),
            (b"template t\nif f\nend\nend\n", "wrong kind t"),
            (
                b"kind a f\ntemplate t\neach a by f\nend\nend\n",
                "wrong kind t",
            ),
            (
                b"kind a\ntemplate u of a\nend\ntemplate t\nembed u\nend\n",
                "wrong kind u",
            ),
            (
                b"kind a\nkind b\ntemplate u of a\nend\ntemplate t of b\nembed u\nend\n",
                "wrong kind u",
            ),
            (
                b"kind a\nkind b\ntemplate u of a\nend\ntemplate t of b\nlink u\nend\nend\nfamily /p u\n",
                "wrong kind u",
            ),
            (
                b"kind a f\ntemplate u\nend\ntemplate t of a\nembed u via f\nend\n",
                "wrong kind u",
            ),
            (
                b"kind a f\ntemplate u\nend\ntemplate t of a\nlink u via f\nend\nend\npage / u\n",
                "wrong kind u",
            ),
            (
                b"kind a f\ntemplate u of a\nend\ntemplate t\nembed u via f\nend\n",
                "wrong kind t",
            ),
        ],
    )
}

#[test]
fn a_template_that_comes_later_is_told(rt: HostRuntime) -> Result<(), Fail> {
    each_has_cause(
        &rt,
        checking(64),
        &[
            (b"template t\nembed u\nend\ntemplate u\nend\n", "later u"),
            (b"template t\nembed t\nend\n", "later t"),
        ],
    )
}

#[test]
fn a_link_without_a_page_is_told(rt: HostRuntime) -> Result<(), Fail> {
    each_has_cause(
        &rt,
        checking(64),
        &[
            (
                b"template u\nend\ntemplate t\nlink u\nend\nend\n",
                "no page u",
            ),
            (b"template t\nlink t\nend\nend\n", "no page t"),
        ],
    )
}

#[test]
fn paths_that_meet_are_told(rt: HostRuntime) -> Result<(), Fail> {
    each_has_cause(
        &rt,
        checking(64),
        &[
            (
                b"template t\nend\ntemplate u\nend\npage /p t\npage /p u\n",
                "path clash /p",
            ),
            (
                b"kind a\ntemplate t of a\nend\ntemplate u of a\nend\nfamily /p/q t\nfamily /p/q u\n",
                "path clash /p/q",
            ),
            (
                b"kind a\ntemplate t\nend\ntemplate u of a\nend\nfamily /p u\npage /p/k t\n",
                "path clash /p/k",
            ),
            (
                b"kind a\ntemplate t\nend\ntemplate u of a\nend\npage /p/k t\nfamily /p u\n",
                "path clash /p",
            ),
        ],
    )
}

#[test]
fn the_first_broken_rule_is_told(rt: HostRuntime) -> Result<(), Fail> {
    each_has_cause(
        &rt,
        checking(64),
        &[
            (b"kind a\nkind a f f\n", "twice a"),
            (b"kind a f f\nkind a\n", "twice f"),
            (b"kind a\nkind a\ntemplate t of u\nend\n", "twice a"),
            (b"template t of u\nend\ntemplate t\nend\n", "unknown u"),
            (b"template t\nend\ntemplate t of u\nend\n", "twice t"),
            (b"template t of u\nend\npage / v\n", "unknown u"),
            (b"template t\nkey\nend\npage / u\n", "unknown u"),
            (b"template t\nend\npage / t\npage / t\n", "twice t"),
            (
                b"template t\neach k by f order g\nfield f\nend\nend\n",
                "unknown k",
            ),
            (
                b"kind a\ntemplate t\neach a by f order g\nend\nend\n",
                "wrong kind t",
            ),
            (
                b"kind a\ntemplate t of a\neach a by f order g\nend\nend\n",
                "unknown f",
            ),
            (
                b"kind a\ntemplate u of a\nend\ntemplate t\nlink u\nend\nend\n",
                "no page u",
            ),
            (
                b"kind a\ntemplate t\nembed u\nend\ntemplate u of a\nend\n",
                "later u",
            ),
            (b"template t\nkey\nembed u\nend\n", "wrong kind t"),
            (
                b"template t\nkey\nend\ntemplate u\nembed v\nend\n",
                "wrong kind t",
            ),
        ],
    )
}

// A text before each number below the count, and one behind it.
fn numbered(alloc: Global, count: u32, before: &str, behind: &str) -> Result<Vec<u8>, AllocError> {
    let mut all = Vec::new(alloc);
    for number in 0..count {
        let text = format!(in alloc; "{before}{number}{behind}")?;
        all.extend_from_slice(text.as_bytes())?;
    }
    Ok(all)
}

// A text, so many times.
fn times(alloc: Global, count: u32, text: &[u8]) -> Result<Vec<u8>, AllocError> {
    let mut all = Vec::new(alloc);
    for _ in 0..count {
        all.extend_from_slice(text)?;
    }
    Ok(all)
}

// This site is written as it stands.
fn is_written(
    rt: &(impl Abort + Alloc<A = Global> + Threads + Sync),
    site: &[u8],
) -> Result<(), Fail> {
    ends(rt, checking(4096), site, 0, site)
}

#[test]
fn too_many_parts_are_told(rt: HostRuntime) -> Result<(), Fail> {
    let alloc = rt.alloc();
    let setting = checking(4096);
    is_written(&rt, &numbered(alloc, 64, "kind k", "\n")?)?;
    let kinds = numbered(alloc, 65, "kind k", "\n")?;
    each_has_cause(&rt, setting, &[(&kinds, "too many kinds")])?;
    let fields = numbered(alloc, 32, " f", "")?;
    is_written(&rt, &joined(alloc, &[b"kind a", &fields, b"\n"])?)?;
    let fields = joined(alloc, &[b"kind a g", &fields, b"\n"])?;
    each_has_cause(&rt, setting, &[(&fields, "too many fields")])?;
    let templates = numbered(alloc, 257, "template t", "\nend\n")?;
    each_has_cause(&rt, setting, &[(&templates, "too many templates")])?;
    let pages = times(alloc, 257, b"page / t\n")?;
    let pages = joined(alloc, &[b"template t\nend\n", &pages])?;
    each_has_cause(&rt, setting, &[(&pages, "too many pages")])
}

#[test]
fn so_many_templates_and_pages_may_stand(rt: HostRuntime) -> Result<(), Fail> {
    let alloc = rt.alloc();
    let mut site = numbered(alloc, 256, "template t", "\nend\n")?;
    for number in 0..256u32 {
        let page = format!(in alloc; "page /p{number} t{number}\n")?;
        site.extend_from_slice(page.as_bytes())?;
    }
    is_written(&rt, &site)
}

#[test]
fn too_many_statements_are_told(rt: HostRuntime) -> Result<(), Fail> {
    let alloc = rt.alloc();
    let most = times(alloc, 4096, b"nl\n")?;
    is_written(&rt, &joined(alloc, &[b"template t\n", &most, b"end\n"])?)?;
    let site = joined(alloc, &[b"template t\nnl\n", &most, b"end\n"])?;
    each_has_cause(&rt, checking(4096), &[(&site, "too many statements")])?;
    let within = joined(
        alloc,
        &[
            b"kind a f\ntemplate t of a\nif g\n",
            &most,
            b"end\nend\nfamily /p t\n",
        ],
    )?;
    each_has_cause(&rt, checking(4096), &[(&within, "too many statements")])
}

// A site with these lines within eight bodies.
fn nested(alloc: Global, within: &[u8]) -> Result<Vec<u8>, AllocError> {
    let open = times(alloc, 8, b"if f\n")?;
    let close = times(alloc, 9, b"end\n")?;
    joined(
        alloc,
        &[b"kind a f\ntemplate t of a\n", &open, within, &close],
    )
}

#[test]
fn nesting_too_deep_is_told(rt: HostRuntime) -> Result<(), Fail> {
    let alloc = rt.alloc();
    is_written(&rt, &nested(alloc, b"")?)?;
    let rows: [&[u8]; 3] = [b"nl\n", b"field g\n", b"if f\nend\n"];
    for within in rows {
        let site = nested(alloc, within)?;
        each_has_cause(&rt, checking(64), &[(&site, "too many nesting")])?;
    }
    Ok(())
}

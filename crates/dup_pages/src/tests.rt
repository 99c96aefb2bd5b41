use crate::pages;
use dup_names::{Key, Name, Obj, Path};
use dup_records::{Change, Commit, Content, Limits, apply};
use dup_site::read_site;
use std::alloc::Global;
use std::sync::Arc;
use std::test::Fail;

// A row: its kind and its key.
type Row<'a> = (&'a str, &'a str);

// A page: its path, its template's number, and its row's key, empty where it is of none.
type Page<'a> = (&'a str, u16, &'a str);

fn name(text: &str) -> Result<Name, Fail> {
    let name = Name::read(text.as_bytes()).ok_or("a name")?;
    Ok(name)
}

fn key(text: &str) -> Result<Key, Fail> {
    let key = Key::read(text.as_bytes()).ok_or("a key")?;
    Ok(key)
}

fn start(alloc: Global, site: &str) -> Result<Content, Fail> {
    let site = read_site(alloc, site.as_bytes()).ok().ok_or("a site")?;
    let site = Arc::new(alloc, site).ok().ok_or("memory")?;
    let content = Content::start(alloc, site)?;
    Ok(content)
}

fn content(alloc: Global, site: &str, rows: &[Row]) -> Result<Content, Fail> {
    let mut content = start(alloc, site)?;
    for (kind, row) in rows {
        let change = Change::put(name(kind)?, key(row)?, Vec::new(alloc)).ok_or("a change")?;
        let commit = Commit::of(vec![in alloc; change]?).ok_or("a commit")?;
        content = apply(alloc, &content, &commit, Limits::default().rows)?;
    }
    Ok(content)
}

fn page(page: &Page) -> Result<(Path, Obj), Fail> {
    let (at, template, row) = *page;
    let path = Path::read(at.as_bytes()).ok_or("a path")?;
    let key = if row.is_empty() {
        None
    } else {
        Some(key(row)?)
    };
    Ok((path, Obj { template, key }))
}

fn has_pages(alloc: Global, site: &str, rows: &[Row], wanted: &[Page]) -> Result<bool, Fail> {
    let made = pages(alloc, &content(alloc, site, rows)?)?;
    let mut listed = Vec::new(alloc);
    for one in wanted {
        listed.push(page(one)?)?;
    }
    Ok(made.as_slice() == listed.as_slice())
}

#[test]
fn pages_of_a_family_stand_by_their_bytes(rt: HostRuntime) -> Result<(), Fail> {
    let made = has_pages(
        rt.alloc(),
        "kind event title\ntemplate event_page of event\nend\nfamily /event event_page\n",
        &[("event", "e2"), ("event", "e10"), ("event", "e1")],
        &[
            ("/event/e1", 0, "e1"),
            ("/event/e10", 0, "e10"),
            ("/event/e2", 0, "e2"),
        ],
    )?;
    assert!(rt; made);
    Ok(())
}

#[test]
fn a_fixed_page_stands_by_its_path(rt: HostRuntime) -> Result<(), Fail> {
    let made = has_pages(
        rt.alloc(),
        "kind event title\nkind athlete name\ntemplate card of athlete\nend\ntemplate home\nend\nfamily /athlete card\npage / home\n",
        &[("athlete", "bo"), ("event", "e1"), ("athlete", "ada")],
        &[
            ("/", 1, ""),
            ("/athlete/ada", 0, "ada"),
            ("/athlete/bo", 0, "bo"),
        ],
    )?;
    assert!(rt; made);
    Ok(())
}

#[test]
fn fixed_pages_stand_by_their_paths(rt: HostRuntime) -> Result<(), Fail> {
    let made = has_pages(
        rt.alloc(),
        "template last\nend\ntemplate first\nend\npage /b last\npage /a first\n",
        &[],
        &[("/a", 1, ""), ("/b", 0, "")],
    )?;
    assert!(rt; made);
    Ok(())
}

#[test]
fn pages_of_other_declarations_stand_among_those_of_a_family(rt: HostRuntime) -> Result<(), Fail> {
    let made = has_pages(
        rt.alloc(),
        "kind event\nkind athlete\ntemplate about\nend\ntemplate card of athlete\nend\ntemplate event_page of event\nend\nfamily /x event_page\npage /x/m/n about\nfamily /x/b card\n",
        &[("event", "a"), ("athlete", "q"), ("event", "z")],
        &[
            ("/x/a", 2, "a"),
            ("/x/b/q", 1, "q"),
            ("/x/m/n", 0, ""),
            ("/x/z", 2, "z"),
        ],
    )?;
    assert!(rt; made);
    Ok(())
}

#[test]
fn without_declarations_there_are_no_pages(rt: HostRuntime) -> Result<(), Fail> {
    let made = has_pages(
        rt.alloc(),
        "kind event title\ntemplate event_page of event\nend\n",
        &[("event", "e1")],
        &[],
    )?;
    assert!(rt; made);
    Ok(())
}

#[test]
fn a_family_without_rows_has_no_pages(rt: HostRuntime) -> Result<(), Fail> {
    let made = has_pages(
        rt.alloc(),
        "kind event title\ntemplate event_page of event\nend\nfamily /event event_page\n",
        &[],
        &[],
    )?;
    assert!(rt; made);
    Ok(())
}

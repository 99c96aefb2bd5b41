use crate::{BundleRec, Changes, Edition, Outlet, Page, PlainOutlet};
use dup_lists::Listed;
use dup_names::{Bytes, Look, Obj, Path};
use dup_template::{Parts, Site};
use std::alloc::Global;
use std::sync::Arc;
use std::test::Fail;

fn path(text: &str) -> Result<Path, Fail> {
    let path = Path::read(text.as_bytes()).ok_or("a path")?;
    Ok(path)
}

fn empty(alloc: Global) -> Result<Edition, Fail> {
    let parts = Parts {
        kinds: Listed::of(Vec::new(alloc)),
        templates: Listed::of(Vec::new(alloc)),
        pages: Listed::of(Vec::new(alloc)),
    };
    let site = Site::check(parts).ok().ok_or("a good site")?;
    let site = Arc::new(alloc, site).ok().ok_or("memory")?;
    Ok(Edition::empty(alloc, site))
}

fn page(alloc: Global, at: &str) -> Result<Arc<Page, Global>, Fail> {
    let obj = Obj {
        template: 0,
        key: None,
    };
    let look = Look {
        obj,
        bytes: Bytes::of(alloc, Vec::new(alloc))?,
        uses: Listed::of(Vec::new(alloc)),
        links: Listed::of(Vec::new(alloc)),
    };
    let look = Arc::new(alloc, look).ok().ok_or("memory")?;
    let page = Arc::new(alloc, Page::new(path(at)?, 1, look))
        .ok()
        .ok_or("memory")?;
    Ok(page)
}

fn record(alloc: Global, puts: &[&str], drops: &[&str]) -> Result<Arc<BundleRec, Global>, Fail> {
    let mut pages = Vec::new(alloc);
    for at in puts {
        pages.push(page(alloc, at)?).ok().ok_or("memory")?;
    }
    let mut gone = Vec::new(alloc);
    for at in drops {
        gone.push(path(at)?)?;
    }
    let rec = BundleRec::new(1, Vec::new(alloc), pages, gone);
    let rec = Arc::new(alloc, rec).ok().ok_or("memory")?;
    Ok(rec)
}

fn has_paths(edition: &Edition, wanted: &[&str]) -> bool {
    let mut at = 0;
    for page in edition.pages() {
        if at >= wanted.len() || page.path().bytes() != wanted[at].as_bytes() {
            return false;
        }
        at += 1;
    }
    at == wanted.len()
}

// What is tried, the paths put and dropped, and the paths of the edition then.
type Row<'a> = (&'a str, &'a [&'a str], &'a [&'a str], &'a [&'a str]);

const RECORDS: &[Row] = &[
    ("a first page", &["/m"], &[], &["/m"]),
    (
        "one before it and one behind",
        &["/a", "/z"],
        &[],
        &["/a", "/m", "/z"],
    ),
    (
        "one put again, one dropped",
        &["/a"],
        &["/m"],
        &["/a", "/z"],
    ),
    ("a drop of what is not there", &[], &["/m"], &["/a", "/z"]),
];

#[test]
fn records_change_the_pages(rt: HostRuntime) -> Result<(), Fail> {
    let alloc = rt.alloc();
    let mut edition: PlainOutlet = empty(alloc)?;
    for (name, puts, drops, wanted) in RECORDS {
        edition.publish(alloc, record(alloc, puts, drops)?)?;
        assert!(rt; has_paths(edition.current(), wanted), "at {name}");
    }
    let copy = edition.copy(alloc)?;
    assert_eq!(rt; copy.number(), 4);
    assert!(rt; has_paths(&copy, &["/a", "/z"]));
    Ok(())
}

// What is tried, how many records came since, and whether they are named.
const SINCE: &[(&str, u64, bool)] = &[
    ("all 65", 65, false),
    ("the last 64", 64, true),
    ("none", 0, true),
];

#[test]
fn over_64_records_are_not_named(rt: HostRuntime) -> Result<(), Fail> {
    let alloc = rt.alloc();
    let mut edition = empty(alloc)?;
    for _ in 0..65 {
        edition.absorb(alloc, record(alloc, &[], &[])?)?;
    }
    for (name, behind, named) in SINCE {
        if *behind <= edition.number() {
            let since = edition.changed_since(edition.number() - *behind);
            let seen = match since {
                Changes::All => false,
                Changes::Named(records) => records.len() as u64 == *behind,
            };
            assert!(rt; seen == *named, "at {name}");
        }
    }
    Ok(())
}

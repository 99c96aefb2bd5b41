use crate::{How, PageCache, PlainWindow, Window};
use dup_edition::{BundleRec, Edition, Page};
use dup_lists::Listed;
use dup_model::Mode;
use dup_names::{Bytes, Look, NoMemory, Obj, Path};
use dup_template::{Parts, Site};
use std::alloc::Global;
use std::sync::Arc;
use std::test::Fail;

fn path(text: &str) -> Result<Path, Fail> {
    let path = Path::read(text.as_bytes()).ok_or("a path")?;
    Ok(path)
}

fn page(alloc: Global, at: &str, version: u64) -> Result<Arc<Page, Global>, Fail> {
    let obj = Obj {
        template: 0,
        key: None,
    };
    let look = Look {
        obj,
        bytes: Bytes::of(alloc, Vec::new(alloc))?,
        uses: Listed::of(Vec::new(alloc)),
        links: Listed::of(Vec::new(alloc)),
    };
    let look = Arc::new(alloc, look).ok().ok_or("memory")?;
    let page = Arc::new(alloc, Page::new(path(at)?, version, look))
        .ok()
        .ok_or("memory")?;
    Ok(page)
}

fn empty(alloc: Global) -> Result<Edition, Fail> {
    let parts = Parts {
        kinds: Listed::of(Vec::new(alloc)),
        templates: Listed::of(Vec::new(alloc)),
        pages: Listed::of(Vec::new(alloc)),
    };
    let site = Site::check(parts).ok().ok_or("a good site")?;
    let site = Arc::new(alloc, site).ok().ok_or("memory")?;
    Ok(Edition::empty(alloc, site))
}

// One bundle more, which puts a page.
fn publish(edition: &mut Edition, alloc: Global, at: &str, version: u64) -> Result<(), Fail> {
    let mut puts = Vec::new(alloc);
    puts.push(page(alloc, at, version)?).ok().ok_or("memory")?;
    let rec = BundleRec::new(version, Vec::new(alloc), puts, Vec::new(alloc));
    edition.absorb(alloc, Arc::new(alloc, rec).ok().ok_or("memory")?)?;
    Ok(())
}

// The version of the page of a path, or 0.
fn version_at(cache: &mut PageCache, at: &str) -> Result<u64, Fail> {
    let found = cache.find(&path(at)?)?;
    Ok(match found {
        Some(page) => page.version(),
        None => 0,
    })
}

// The versions of /a and /b in a cache that kept both at version 1, after bundles of the versions from 2
// up to before this one, each of which puts /a.
fn caught_up(alloc: Global, mode: Mode, end: u64) -> Result<(u64, u64), Fail> {
    let mut edition = empty(alloc)?;
    publish(&mut edition, alloc, "/a", 1)?;
    publish(&mut edition, alloc, "/b", 1)?;
    let mut cache = PageCache::new(alloc, 4, mode)?;
    cache.catch_up(alloc, &edition)?;
    cache.keep(page(alloc, "/a", 1)?)?;
    cache.keep(page(alloc, "/b", 1)?)?;
    for version in 2..end {
        publish(&mut edition, alloc, "/a", version)?;
    }
    if cache.edition() <= edition.number() {
        cache.catch_up(alloc, &edition)?;
    }
    Ok((version_at(&mut cache, "/a")?, version_at(&mut cache, "/b")?))
}

// What is tried, the mode, the version behind the last bundle's, and the versions of both pages then.
const CATCHES: &[(&str, Mode, u64, u64, u64)] = &[
    ("64 bundles invalidate", Mode::Invalidate, 66, 0, 1),
    ("65 bundles invalidate all", Mode::Invalidate, 67, 0, 0),
    ("64 bundles update", Mode::Update, 66, 65, 1),
    ("65 bundles update", Mode::Update, 67, 66, 1),
];

#[test]
fn caches_catch_up_over_64_and_65_bundles(rt: HostRuntime) -> Result<(), Fail> {
    for (name, mode, end, first, second) in CATCHES {
        let caught = caught_up(rt.alloc(), *mode, *end)?;
        assert!(rt; caught == (*first, *second), "at {name}");
    }
    Ok(())
}

// A cache of one entry: which of two pages it has after each was kept.
fn one_entry(alloc: Global) -> Result<bool, Fail> {
    let mut cache = PageCache::new(alloc, 1, Mode::Update)?;
    cache.keep(page(alloc, "/a", 1)?)?;
    cache.keep(page(alloc, "/b", 1)?)?;
    cache.keep(page(alloc, "/b", 2)?)?;
    Ok(
        !cache.touch(&path("/a")?)
            && version_at(&mut cache, "/b")? == 2
            && cache.len() == 1
            && cache.evict(&path("/b")?)
            && !cache.evict(&path("/b")?),
    )
}

#[test]
fn a_cache_of_one_entry_keeps_the_last(rt: HostRuntime) -> Result<(), Fail> {
    assert!(rt; one_entry(rt.alloc())?);
    Ok(())
}

// What a window shows of a path, and the edition of the cache that it caught up.
fn shown(alloc: Global, at: &str) -> Result<(bool, u64), Fail> {
    let mut edition = empty(alloc)?;
    publish(&mut edition, alloc, "/a", 1)?;
    let mut cache = PageCache::new(alloc, 1, Mode::Update)?;
    let mut window = PlainWindow::new(&edition);
    window.hear(());
    let page = window.refresh(alloc, &mut cache, &path(at)?)?;
    Ok((page.is_some(), cache.edition()))
}

#[test]
fn a_window_shows_its_edition(rt: HostRuntime) -> Result<(), Fail> {
    assert_eq!(rt; shown(rt.alloc(), "/a")?, (true, 1));
    assert_eq!(rt; shown(rt.alloc(), "/b")?, (false, 1));
    Ok(())
}

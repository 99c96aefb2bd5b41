use crate::{Changed, Schedule, SortedTarget, Target, bundle, needs};
use dup_edition::{BundleRec, Edition, Page};
use dup_lists::Listed;
use dup_names::{Bytes, Look, NoMemory, Obj, Path};
use dup_template::{Parts, Site};
use std::alloc::Global;
use std::sync::Arc;
use std::test::Fail;

fn path(text: &str) -> Result<Path, Fail> {
    let path = Path::read(text.as_bytes()).ok_or("a path")?;
    Ok(path)
}

// A page that links to another, or to none where that is empty.
fn page(alloc: Global, at: &str, link: &str) -> Result<Arc<Page, Global>, Fail> {
    let obj = Obj {
        template: 0,
        key: None,
    };
    let mut links = Vec::new(alloc);
    if !link.is_empty() {
        links.push(path(link)?)?;
    }
    let look = Look {
        obj,
        bytes: Bytes::of(alloc, Vec::new(alloc))?,
        uses: Listed::of(Vec::new(alloc)),
        links: Listed::of(links),
    };
    let look = Arc::new(alloc, look).ok().ok_or("memory")?;
    let page = Arc::new(alloc, Page::new(path(at)?, 1, look))
        .ok()
        .ok_or("memory")?;
    Ok(page)
}

fn edition(alloc: Global, pages: &[(&str, &str)]) -> Result<Edition, Fail> {
    let parts = Parts {
        kinds: Listed::of(Vec::new(alloc)),
        templates: Listed::of(Vec::new(alloc)),
        pages: Listed::of(Vec::new(alloc)),
    };
    let site = Site::check(parts).ok().ok_or("a good site")?;
    let site = Arc::new(alloc, site).ok().ok_or("memory")?;
    let mut edition = Edition::empty(alloc, site);
    let mut puts = Vec::new(alloc);
    for (at, link) in pages {
        puts.push(page(alloc, at, link)?).ok().ok_or("memory")?;
    }
    let rec = BundleRec::new(1, Vec::new(alloc), puts, Vec::new(alloc));
    edition.absorb(alloc, Arc::new(alloc, rec).ok().ok_or("memory")?)?;
    Ok(edition)
}

fn are(paths: &[Path], wanted: &[&str]) -> bool {
    let mut at = 0;
    for path in paths {
        if at >= wanted.len() || path.bytes() != wanted[at].as_bytes() {
            return false;
        }
        at += 1;
    }
    at == wanted.len()
}

// What is tried, the pages with their links, and what goes first where all of them vanish.
type Row<'a> = (&'a str, &'a [(&'a str, &'a str)], &'a [&'a str]);

const VANISHING: &[Row] = &[
    ("no page", &[], &[]),
    ("two that don't link", &[("/a", ""), ("/b", "")], &["/a"]),
    (
        "the linker goes before its target",
        &[("/a", ""), ("/b", "/a")],
        &["/b"],
    ),
    (
        "two that link to each other",
        &[("/a", "/b"), ("/b", "/a"), ("/c", "")],
        &["/a", "/b"],
    ),
    (
        "the end of a chain",
        &[("/a", ""), ("/b", "/a"), ("/c", "/b")],
        &["/c"],
    ),
];

#[test]
fn linkers_go_first(rt: HostRuntime) -> Result<(), Fail> {
    let alloc = rt.alloc();
    let pages = Listed::of(Vec::new(alloc));
    let target = Target { version: 2, pages };
    for (name, pages, wanted) in VANISHING {
        let edition = edition(alloc, pages)?;
        match bundle(alloc, &edition, &target)? {
            None => assert!(rt; wanted.is_empty(), "at {name}"),
            Some(plan) => assert!(rt;
                plan.puts().is_empty() && are(plan.drops(), wanted),
                "at {name}"
            ),
        }
    }
    Ok(())
}

#[test]
fn a_vanishing_page_needs_its_linkers(rt: HostRuntime) -> Result<(), Fail> {
    let alloc = rt.alloc();
    let pages = Listed::of(Vec::new(alloc));
    let target = Target { version: 2, pages };
    let edition = edition(alloc, &[("/a", ""), ("/b", "/a"), ("/c", "/a"), ("/d", "")])?;
    let needed = needs(alloc, &edition, &target, &path("/a")?)?;
    assert!(rt; are(needed.as_slice(), &["/b", "/c"]));
    Ok(())
}

// The changed paths and the schedule from an edition to no page at all.
fn vanishing(alloc: Global, edition: &Edition) -> Result<(Changed, Schedule), NoMemory> {
    let pages = Listed::of(Vec::new(alloc));
    let target = Target { version: 2, pages };
    let target = SortedTarget::of(&target);
    let changed = Changed::between(alloc, edition, &target)?.retargeted(
        alloc,
        edition,
        &target,
        &[],
    )?;
    let schedule = Schedule::between(alloc, edition, &target, &changed)?;
    Ok((changed, schedule))
}

// What is tried, the pages with their links, and the bundles that drop all of them.
type Steps<'a> = (&'a str, &'a [(&'a str, &'a str)], &'a [&'a [&'a str]]);

const STEPS: &[Steps] = &[
    (
        "a chain, from its end",
        &[("/a", ""), ("/b", "/a"), ("/c", "/b")],
        &[&["/c"], &["/b"], &["/a"]],
    ),
    (
        "a pair, and one that waits",
        &[("/a", "/b"), ("/b", "/a"), ("/z", "/a")],
        &[&["/z"], &["/a", "/b"]],
    ),
];

#[test]
fn a_schedule_has_all_bundles(rt: HostRuntime) -> Result<(), Fail> {
    let alloc = rt.alloc();
    let pages = Listed::of(Vec::new(alloc));
    let target = Target { version: 2, pages };
    for (name, pages, wanted) in STEPS {
        let edition = edition(alloc, pages)?;
        let (mut changed, mut schedule) = vanishing(alloc, &edition)?;
        for drops in *wanted {
            let plan = schedule
                .plan(alloc, &SortedTarget::of(&target))?
                .ok_or("a plan")?;
            assert!(rt; are(plan.drops(), drops), "at {name}");
            let (puts, drops) = plan.into_parts();
            changed.publish(&BundleRec::new(2, Vec::new(alloc), puts, drops));
            schedule.advance();
        }
        assert!(rt; changed.is_empty(), "at {name}");
        assert!(rt;
            schedule.plan(alloc, &SortedTarget::of(&target))?.is_none(),
            "at {name}"
        );
    }
    Ok(())
}

// What the runs share.
use dup_cache::{PageCache, Window};
use dup_live::{LiveOutlet, LiveWindow, Naming};
use dup_model::Mode;
use dup_names::{Key, Meter, Name, NoMemory, Path, Text};
use dup_press::Press;
use dup_records::{Change, Commit};
use dup_samples::EVENTS_SITE;
use dup_site::read_site;
use dup_template::Site;
use std::alloc::Global;
use std::sync::{Arc, Wait};
use std::test::Fail;
use std::thread::Threads;

pub type LivePress<J, R> = Press<LiveOutlet<J, R>>;

// The events site.
pub fn events_site(alloc: Global) -> Result<Arc<Site, Global>, Fail> {
    let site = read_site(alloc, EVENTS_SITE).ok().ok_or("a good site")?;
    let site = Arc::new(alloc, site)?;
    Ok(site)
}

// The path of the first event's page.
pub fn event_path() -> Result<Path, Fail> {
    let path = Path::read(b"/event/e1").ok_or("a path")?;
    Ok(path)
}

// A commit that puts the first event with a title.
fn event(alloc: Global, title: &str) -> Option<Commit> {
    let kind = Name::read(b"event")?;
    let key = Key::read(b"e1")?;
    let field = Name::read(b"title")?;
    let title = Text::read(alloc, title.as_bytes()).ok()??;
    let mut fields = Vec::new(alloc);
    fields.push((field, title)).ok()?;
    let mut changes = Vec::new(alloc);
    changes.push(Change::put(kind, key, fields)?).ok()?;
    Commit::of(changes)
}

// Takes a commit that gives the first event a title.
pub fn commit<J: Naming, R: Wait + Drop>(
    alloc: Global,
    press: &mut LivePress<J, R>,
    title: &str,
) -> Option<u64> {
    let commit = event(alloc, title)?;
    press.commit(alloc, commit).ok()
}

// Gives the first event a title, and settles. The number of the newest edition.
pub fn settle<J: Naming, R: Wait + Threads + Sync + Drop>(
    rt: &R,
    alloc: Global,
    press: &mut LivePress<J, R>,
    title: &str,
) -> Option<u64> {
    commit(alloc, press, title)?;
    let mut meter = Meter::new();
    let summary = press.settle(rt, alloc, &mut meter).ok()?;
    Some(summary.edition)
}

// Refreshes an empty cache at a path: the page's version, 0 where there is none, and the edition.
pub fn read<J: Naming>(
    alloc: Global,
    window: &mut LiveWindow<J>,
    path: &Path,
) -> Result<(u64, u64), NoMemory> {
    let mut cache = PageCache::new(alloc, 4, Mode::Update)?;
    let page = window.refresh(alloc, &mut cache, path)?;
    let version = match page {
        Some(page) => page.version(),
        None => 0,
    };
    Ok((version, cache.edition()))
}

// How rows are played as calls of a press.
ghost use Rattle.std.specs.Prelude.{◌≡◌, OnOk};
ghost use Rattle.dup_cache.specs.Holding.{BeginsWith};

use crate::answers::{begun_text, finish_text, joined_text, obj_text, owned, paths_text, put_text};
use crate::notation::{commit_of, path_of};
use crate::sites::site_of;
use dup_build::Job;
use dup_edition::{BundleRec, Edition, Outlet, PlainOutlet};
use dup_names::{Meter, Path};
use dup_press::{Press, Published, Status, Summary};
use dup_records::Limits;
use dup_render::{Expanded, expand};
use std::alloc::Global;
use std::marker::Sync;
use std::process::Abort;
use std::str;
use std::sync::Arc;
use std::test::Fail;
use std::thread::Threads;

/// A call of a press, or a look at what it published.
#[derive(Clone, Copy)]
pub(crate) enum Call<'a> {
    /// A commit, as rows write it.
    Commit(&'a str),
    Begin,
    /// What is handed is expanded at once, over the content that comes with it.
    Hand,
    /// Of the expansions that were made and not put, the first.
    Put,
    /// Hands, expansions and puts, until none waits.
    Expand,
    Join,
    Finish,
    Publish,
    Settle,
    Status,
    /// The page of a path in the newest edition: its version and its bytes.
    Page(&'a str),
    /// The record of a bundle, by the number of the edition that it made.
    Record(usize),
}

/// The calls of a row, each with its answer.
pub(crate) type Row<'a> = &'a [(Call<'a>, &'a str)];

/// An expansion of what was handed.
pub(crate) fn expanded(
    alloc: Global,
    job: &Job,
    meter: &mut Meter,
) -> Result<Arc<Expanded, Global>, Fail> {
    let made = expand(alloc, &job.content, &job.obj, meter)?;
    Ok(Arc::new(alloc, made)?)
}

/// What a hand of this expansion's object is told by.
pub(crate) fn handed_text(alloc: Global, made: &Expanded) -> Result<String, Fail> {
    let obj = obj_text(alloc, made.site(), made.obj())?;
    Ok(format!(in alloc; "handed {obj}")?)
}

/// Takes the first of what is held.
pub(crate) fn first_held(
    held: &mut Vec<Arc<Expanded, Global>>,
) -> Result<Arc<Expanded, Global>, Fail> {
    if held.is_empty() {
        return Err(Fail::from("nothing is held"));
    }
    Ok(held.remove(0))
}

/// What a settle did.
pub(crate) fn settled_text(alloc: Global, summary: &Summary) -> Result<String, Fail> {
    let Summary {
        version,
        edition,
        bundles,
        expanded,
        joined,
        kept,
    } = summary;
    Ok(format!(in alloc;
        "settled {version} edition {edition} bundles {bundles} expanded {expanded} joined {joined} kept {kept}"
    )?)
}

fn published_text<N>(alloc: Global, published: &Published<N>) -> Result<String, Fail> {
    let text = match published {
        Published::Nothing => owned(alloc, "nothing")?,
        Published::Bundle {
            number,
            version,
            puts,
            drops,
            ..
        } => format!(in alloc; "edition {number} version {version} puts {puts} drops {drops}")?,
    };
    Ok(text)
}

fn version_text(alloc: Global, version: Option<u64>) -> Result<String, Fail> {
    match version {
        Some(version) => Ok(format!(in alloc; "{version}")?),
        None => owned(alloc, "-"),
    }
}

fn status_text(alloc: Global, status: &Status) -> Result<String, Fail> {
    let version = status.version;
    let work = version_text(alloc, status.work)?;
    let target = version_text(alloc, status.target)?;
    let edition = status.edition;
    let pending = if status.pending { "yes" } else { "no" };
    Ok(format!(in alloc;
        "version {version} work {work} target {target} edition {edition} pending {pending}"
    )?)
}

// A page: its version and its bytes, or a dash where there is none.
fn page_text(alloc: Global, edition: &Edition, path: &Path) -> Result<String, Fail> {
    match edition.get(path) {
        Some(page) => {
            let version = page.version();
            let bytes = str::from_utf8(page.look().bytes.bytes())?;
            Ok(format!(in alloc; "{version} {bytes}")?)
        }
        None => owned(alloc, "-"),
    }
}

fn record_text(alloc: Global, record: &BundleRec) -> Result<String, Fail> {
    let mut puts = Vec::new(alloc);
    for page in record.puts() {
        puts.push(*page.path())?;
    }
    let version = record.version();
    let puts = paths_text(alloc, &puts)?;
    let drops = paths_text(alloc, record.drops())?;
    Ok(format!(in alloc; "version {version} put {puts} drop {drops}")?)
}

fn numbered_text(alloc: Global, edition: &Edition, number: usize) -> Result<String, Fail> {
    let record = edition
        .log()
        .get(number.saturating_sub(1))
        .ok_or("a record")?;
    record_text(alloc, record)
}

/// What a commit is answered, a refusal included.
pub(crate) fn commit(
    alloc: Global,
    press: &mut Press<PlainOutlet>,
    row: &str,
) -> Result<String, Fail>
    ensures { OnOk result (press.new.log ≡ press.old.log) }
{
    let commit = commit_of(alloc, row)?;
    let text = match press.commit(alloc, commit) {
        Ok(version) => format!(in alloc; "committed {version}")?,
        Err(refusal) => refusal.to_string(alloc)?,
    };
    Ok(text)
}

// Where no work was open, the meter counts what the summary tells as expanded.
fn counted(was_idle: bool, meter: &Meter, summary: &Summary) -> Result<(), Fail> {
    if was_idle && meter.count() != summary.expanded {
        return Err(Fail::from("another count of expansions"));
    }
    Ok(())
}

/// What a settle is answered.
pub(crate) fn settle(
    rt: &(impl Threads + Sync),
    alloc: Global,
    press: &mut Press<PlainOutlet>,
) -> Result<String, Fail>
    ensures { OnOk result (BeginsWith press.new.log press.old.log) }
{
    let was_idle = press.status().work.is_none();
    let mut meter = Meter::new();
    let summary = press.settle(rt, alloc, &mut meter)?;
    counted(was_idle, &meter, &summary)?;
    let text = settled_text(alloc, &summary)?;
    Ok(text)
}

fn hand(
    alloc: Global,
    press: &mut Press<PlainOutlet>,
    held: &mut Vec<Arc<Expanded, Global>>,
) -> Result<String, Fail> {
    let Some(job) = press.hand(alloc)? else {
        return owned(alloc, "none");
    };
    let made = expanded(alloc, &job, &mut Meter::new())?;
    let text = handed_text(alloc, &made)?;
    held.push(made)?;
    Ok(text)
}

fn put(
    alloc: Global,
    press: &mut Press<PlainOutlet>,
    made: Arc<Expanded, Global>,
) -> Result<String, Fail> {
    let site = Arc::try_clone(made.site())?;
    let obj = obj_text(alloc, &site, made.obj())?;
    let told = press.put(alloc, made)?;
    put_text(alloc, &site, &obj, &told)
}

// Whether one more object was expanded.
fn expand_one(alloc: Global, press: &mut Press<PlainOutlet>) -> Result<bool, Fail> {
    let Some(job) = press.hand(alloc)? else {
        return Ok(false);
    };
    let made = expanded(alloc, &job, &mut Meter::new())?;
    press.put(alloc, made)?;
    Ok(true)
}

fn expand_all(alloc: Global, press: &mut Press<PlainOutlet>) -> Result<String, Fail> {
    let mut count: u64 = 0;
    for _turn in 0..20 {
        if expand_one(alloc, press)? {
            count = count.saturating_add(1);
        }
    }
    Ok(format!(in alloc; "expanded {count}")?)
}

// What a call is answered, in words.
fn answer(
    rt: &(impl Threads + Sync),
    alloc: Global,
    press: &mut Press<PlainOutlet>,
    held: &mut Vec<Arc<Expanded, Global>>,
    call: Call<'_>,
) -> Result<String, Fail> {
    match call {
        Call::Commit(row) => commit(alloc, press, row),
        Call::Begin => begun_text(alloc, &press.begin(alloc)?),
        Call::Hand => hand(alloc, press, held),
        Call::Put => {
            let made = first_held(held)?;
            put(alloc, press, made)
        }
        Call::Expand => expand_all(alloc, press),
        Call::Join => joined_text(alloc, &press.join(rt, alloc)?),
        Call::Finish => finish_text(alloc, &press.finish(alloc)?),
        Call::Publish => published_text(alloc, &press.publish(alloc)?),
        Call::Settle => settle(rt, alloc, press),
        Call::Status => status_text(alloc, &press.status()),
        Call::Page(path) => page_text(alloc, press.outlet().current(), &path_of(path)?),
        Call::Record(number) => numbered_text(alloc, press.outlet().current(), number),
    }
}

fn play(
    rt: &(impl Abort + Alloc<A = Global> + Threads + Sync),
    press: &mut Press<PlainOutlet>,
    name: &str,
    row: Row,
) -> Result<(), Fail> {
    let alloc = rt.alloc();
    let mut held = Vec::new(alloc);
    let mut number: usize = 0;
    for (call, wanted) in row {
        number = number.saturating_add(1);
        let told = answer(rt, alloc, press, &mut held, *call)?;
        assert_eq!(rt; told.as_str(), *wanted, "{name}: call {number}");
    }
    Ok(())
}

/// A press of a site, before any commit.
pub(crate) fn press_of(
    alloc: Global,
    site: &[u8],
    limits: Limits,
) -> Result<Press<PlainOutlet>, Fail> {
    let site = site_of(alloc, site)?;
    let outlet = Edition::empty(alloc, Arc::try_clone(&site)?);
    let press = Press::new(alloc, site, limits, outlet)?;
    Ok(press)
}

/// Over this site, each call has the answer beside it.
pub(crate) fn plays(
    rt: &(impl Abort + Alloc<A = Global> + Threads + Sync),
    name: &str,
    site: &[u8],
    limits: Limits,
    row: Row,
) -> Result<(), Fail> {
    let mut press = press_of(rt.alloc(), site, limits)?;
    play(rt, &mut press, name, row)
}

// How rows are played as calls of a press, and of nodes over windows on its newest edition.
ghost use Rattle.std.specs.Prelude.{All, List, OnOk};
ghost use Rattle.dup_cache.specs.Holding.{BeginsWith};
ghost use Rattle.dup_model.specs.Editions.{Bundle};
ghost use Rattle.dup_model.specs.Serving.{HoldsPagesOf};

use crate::answers::owned;
use crate::notation::path_of;
use crate::presses::{commit, press_of, settle};
use dup_cache::{How, MAX_CACHE_ENTRIES, PlainWindow};
use dup_edition::{Edition, Outlet, PlainOutlet};
use dup_model::Mode;
use dup_names::{Pass, Path};
use dup_node::{Node, Reply};
use dup_press::Press;
use dup_records::Limits;
use std::alloc::Global;
use std::marker::Sync;
use std::process::Abort;
use std::str;
use std::test::Fail;
use std::thread::Threads;

/// A call of a press or of a node. Nodes have numbers from 1.
#[derive(Clone, Copy)]
pub(crate) enum Call<'a> {
    /// A commit, as rows write it.
    Commit(&'a str),
    Settle,
    /// So many commits that give the event e1 another title, each with a settle. The last settle is told.
    Titles(u64),
    /// One more node, with a cache for so many pages.
    Node(u32, Mode),
    /// A request at a node, with a pass, for a path.
    Get(usize, u64, &'a str),
    Deliver(usize),
    Evict(usize, &'a str),
}

/// The calls of a row, each with its answer.
pub(crate) type Row<'a> = &'a [(Call<'a>, &'a str)];

fn how_word(how: How) -> &'static str {
    match how {
        How::Hit => "hit",
        How::Miss => "miss",
        How::MissUnkept => "unkept",
    }
}

fn reply_text(alloc: Global, reply: &Reply) -> Result<String, Fail> {
    let text = match reply {
        Reply::Found { edition, page, how } => {
            let version = page.version();
            let how = how_word(*how);
            let bytes = page.look().bytes.bytes();
            let length = bytes.len();
            let bytes = str::from_utf8(bytes)?;
            format!(in alloc; "found {edition} {version} {how} {length} {bytes}")?
        }
        Reply::Absent { edition } => format!(in alloc; "absent {edition}")?,
        Reply::Ahead { pass, edition } => {
            let pass = pass.0;
            format!(in alloc; "ahead {pass} {edition}")?
        }
    };
    Ok(text)
}

// A commit and a settle for each of so many titles.
#[tactic(auto, using(crate::proofs::Growing::grows_on, crate::proofs::Growing::same_log))]
fn titles(
    rt: &(impl Threads + Sync),
    alloc: Global,
    press: &mut Press<PlainOutlet>,
    count: u64,
) -> Result<String, Fail>
    ensures { OnOk result (BeginsWith press.new.log press.old.log) }
{
    let mut told = owned(alloc, "nothing")?;
    for number in 0..count {
        told = title(rt, alloc, press, number.saturating_add(1))?;
    }
    Ok(told)
}

fn title(
    rt: &(impl Threads + Sync),
    alloc: Global,
    press: &mut Press<PlainOutlet>,
    number: u64,
) -> Result<String, Fail>
    ensures { OnOk result (BeginsWith press.new.log press.old.log) }
{
    let row = format!(in alloc; "+event e1 title=t{number}")?;
    commit(alloc, press, row.as_str())?;
    settle(rt, alloc, press)
}

fn add_node(alloc: Global, nodes: &mut Vec<Node>, capacity: u32, mode: Mode) -> Result<String, Fail>
    ensures { (log : List Bundle) → All (HoldsPagesOf log) nodes.old.items →
        OnOk result (All (HoldsPagesOf log) nodes.new.items) }
{
    if capacity < 1 || capacity > MAX_CACHE_ENTRIES {
        return Err(Fail::from("no such capacity"));
    }
    nodes.push(Node::new(alloc, capacity, mode)?)?;
    let number = nodes.len();
    Ok(format!(in alloc; "node {number}")?)
}

fn serve(
    alloc: Global,
    node: &mut Node,
    edition: &Edition,
    pass: u64,
    path: &Path,
) -> Result<String, Fail>
    requires { HoldsPagesOf edition.now.log node.old }
    ensures { HoldsPagesOf edition.now.log node.new }
{
    let mut window = PlainWindow::new(edition);
    let reply = node.serve(alloc, &mut window, Pass(pass), path)?;
    reply_text(alloc, &reply)
}

fn get(
    alloc: Global,
    nodes: &mut Vec<Node>,
    edition: &Edition,
    number: usize,
    pass: u64,
    path: &str,
) -> Result<String, Fail>
    requires { All (HoldsPagesOf edition.now.log) nodes.old.items }
    ensures { All (HoldsPagesOf edition.now.log) nodes.new.items }
{
    let path = path_of(path)?;
    match nodes.get_mut(number.saturating_sub(1)) {
        Some(node) => serve(alloc, node, edition, pass, &path),
        None => Err(Fail::from("no node")),
    }
}

fn bring_up(
    alloc: Global,
    number: usize,
    node: &mut Node,
    edition: &Edition,
) -> Result<String, Fail>
    requires { HoldsPagesOf edition.now.log node.old }
    ensures { HoldsPagesOf edition.now.log node.new }
{
    let path = path_of("/")?;
    let mut window = PlainWindow::new(edition);
    node.deliver(alloc, &mut window, &path)?;
    let edition = node.edition();
    let entries = node.len();
    Ok(format!(in alloc; "delivered {number} edition {edition} entries {entries}")?)
}

fn deliver(
    alloc: Global,
    nodes: &mut Vec<Node>,
    edition: &Edition,
    number: usize,
) -> Result<String, Fail>
    requires { All (HoldsPagesOf edition.now.log) nodes.old.items }
    ensures { All (HoldsPagesOf edition.now.log) nodes.new.items }
{
    match nodes.get_mut(number.saturating_sub(1)) {
        Some(node) => bring_up(alloc, number, node, edition),
        None => Err(Fail::from("no node")),
    }
}

fn drop_page(alloc: Global, node: &mut Node, path: &str) -> Result<String, Fail>
    ensures { (log : List Bundle) → HoldsPagesOf log node.old → HoldsPagesOf log node.new }
{
    let found = node.evict(&path_of(path)?);
    owned(alloc, if found { "evicted" } else { "not kept" })
}

fn evict(alloc: Global, nodes: &mut Vec<Node>, number: usize, path: &str) -> Result<String, Fail>
    ensures { (log : List Bundle) → All (HoldsPagesOf log) nodes.old.items →
        All (HoldsPagesOf log) nodes.new.items }
{
    match nodes.get_mut(number.saturating_sub(1)) {
        Some(node) => drop_page(alloc, node, path),
        None => Err(Fail::from("no node")),
    }
}

// What a call is answered, in words.
fn answer(
    rt: &(impl Threads + Sync),
    alloc: Global,
    press: &mut Press<PlainOutlet>,
    nodes: &mut Vec<Node>,
    call: Call<'_>,
) -> Result<String, Fail>
    requires { All (HoldsPagesOf press.old.log) nodes.old.items }
    ensures { OnOk result (All (HoldsPagesOf press.new.log) nodes.new.items) }
{
    match call {
        Call::Commit(row) => commit(alloc, press, row),
        Call::Settle => settle(rt, alloc, press),
        Call::Titles(count) => titles(rt, alloc, press, count),
        Call::Node(capacity, mode) => add_node(alloc, nodes, capacity, mode),
        Call::Get(number, pass, path) => {
            get(alloc, nodes, press.outlet().current(), number, pass, path)
        }
        Call::Deliver(number) => deliver(alloc, nodes, press.outlet().current(), number),
        Call::Evict(number, path) => evict(alloc, nodes, number, path),
    }
}

fn play(
    rt: &(impl Abort + Alloc<A = Global> + Threads + Sync),
    press: &mut Press<PlainOutlet>,
    nodes: &mut Vec<Node>,
    name: &str,
    row: Row,
) -> Result<(), Fail>
    requires { All (HoldsPagesOf press.old.log) nodes.old.items }
{
    let alloc = rt.alloc();
    let mut number: usize = 0;
    for step in row {
        let (call, wanted) = step;
        number = number.saturating_add(1);
        let told = answer(rt, alloc, press, nodes, *call)?;
        assert_eq!(rt; told.as_str(), *wanted, "{name}: call {number}");
    }
    Ok(())
}

/// Over this site, each call has the answer beside it.
pub(crate) fn plays(
    rt: &(impl Abort + Alloc<A = Global> + Threads + Sync),
    name: &str,
    site: &[u8],
    row: Row,
) -> Result<(), Fail> {
    let alloc = rt.alloc();
    let mut press = press_of(alloc, site, Limits::default())?;
    let mut nodes = Vec::new(alloc);
    play(rt, &mut press, &mut nodes, name, row)
}

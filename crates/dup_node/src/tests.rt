ghost use Rattle.std.specs.Prelude.{◌≡◌, ◌≤◌};
ghost use Rattle.dup_model.specs.Serving.{HoldsPagesOf};

use crate::{Node, Reply};
use dup_cache::{How, PlainWindow};
use dup_edition::{BundleRec, Edition, Page};
use dup_lists::Listed;
use dup_model::Mode;
use dup_names::{Bytes, Look, NoMemory, Obj, Pass, Path};
use dup_template::{Parts, Site};
use std::alloc::Global;
use std::marker::Model;
use std::sync::Arc;
use std::test::Fail;

fn path(text: &str) -> Result<Path, Fail> {
    let path = Path::read(text.as_bytes()).ok_or("a path")?;
    Ok(path)
}

fn page(alloc: Global, at: &str, version: u64) -> Result<Arc<Page, Global>, Fail> {
    let obj = Obj {
        template: 0,
        key: None,
    };
    let look = Look {
        obj,
        bytes: Bytes::of(alloc, Vec::new(alloc))?,
        uses: Listed::of(Vec::new(alloc)),
        links: Listed::of(Vec::new(alloc)),
    };
    let look = Arc::new(alloc, look).ok().ok_or("memory")?;
    let page = Arc::new(alloc, Page::new(path(at)?, version, look))
        .ok()
        .ok_or("memory")?;
    Ok(page)
}

fn empty(alloc: Global) -> Result<Edition, Fail> {
    let parts = Parts {
        kinds: Listed::of(Vec::new(alloc)),
        templates: Listed::of(Vec::new(alloc)),
        pages: Listed::of(Vec::new(alloc)),
    };
    let site = Site::check(parts).ok().ok_or("a good site")?;
    let site = Arc::new(alloc, site).ok().ok_or("memory")?;
    Ok(Edition::empty(alloc, site))
}

// A record that puts the page /a or drops it.
fn record(alloc: Global, version: u64, is_put: bool) -> Result<Arc<BundleRec, Global>, Fail> {
    let mut puts = Vec::new(alloc);
    let mut drops = Vec::new(alloc);
    if is_put {
        puts.push(page(alloc, "/a", version)?).ok().ok_or("memory")?;
    } else {
        drops.push(path("/a")?)?;
    }
    let rec = BundleRec::new(version, Vec::new(alloc), puts, drops);
    let rec = Arc::new(alloc, rec).ok().ok_or("memory")?;
    Ok(rec)
}

// An edition, and a node that serves it.
#[derive(Drop)]
struct Stand {
    edition: Edition,
    node: Node,
}

impl Model for Stand {
    ghost use Rattle.std.specs.Prelude.{ℕ};
    ghost use Rattle.dup_model.specs.Serving.{HoldsPagesOf};

    ghost Value = { ℕ };

    ghost view = { λ _. 0 };

    ghost invariant = { λ s. HoldsPagesOf s.edition.log s.node };
}

// What a node answers over an edition.
fn served(
    alloc: Global,
    node: &mut Node,
    edition: &Edition,
    pass: u64,
    path: &Path,
) -> Result<Reply, NoMemory>
    requires { HoldsPagesOf edition.now.log node.old }
    ensures { HoldsPagesOf edition.now.log node.new }
{
    let mut window = PlainWindow::new(edition);
    let reply = node.serve(alloc, &mut window, Pass(pass), path)?;
    Ok(reply)
}

// How a reply shows in two numbers: the edition, and the version of the page with 100 for a hit, 200 for a
// miss and 300 for one unkept; 0 where there is none, and 1,000 where it is ahead.
fn numbers(reply: &Reply) -> (u64, u64) {
    match reply {
        Reply::Found { edition, page, how } => (
            *edition,
            tens(*how).saturating_add(page.version()),
        ),
        Reply::Absent { edition } => (*edition, 0),
        Reply::Ahead { edition, .. } => (*edition, 1_000),
    }
}

fn tens(how: How) -> u64 {
    match how {
        How::Hit => 100,
        How::Miss => 200,
        How::MissUnkept => 300,
    }
}

impl Stand {
    fn new(alloc: Global, capacity: u32, mode: Mode) -> Result<Stand, Fail>
        requires some { 1 ≤ capacity }
        requires fits { capacity ≤ 65536 }
    {
        Ok(Stand {
            edition: empty(alloc)?,
            node: Node::new(alloc, capacity, mode)?,
        })
    }

    fn publish(&mut self, alloc: Global, version: u64, is_put: bool) -> Result<(), Fail> {
        let rec = record(alloc, version, is_put)?;
        self.edition.absorb(alloc, rec)?;
        Ok(())
    }

    // Whether /a is answered so.
    fn gets(&mut self, alloc: Global, pass: u64, wanted: (u64, u64)) -> Result<bool, Fail> {
        let at = path("/a")?;
        let reply = served(alloc, &mut self.node, &self.edition, pass, &at)?;
        Ok(numbers(&reply) == wanted)
    }
}

// Three requests for a page, the first of which misses it.
fn asked_three_times(alloc: Global) -> Result<bool, Fail> {
    let mut stand = Stand::new(alloc, 1, Mode::Update)?;
    stand.publish(alloc, 1, true)?;
    Ok(
        stand.gets(alloc, 0, (1, 201))?
            && stand.gets(alloc, 0, (1, 101))?
            && stand.gets(alloc, 0, (1, 101))?,
    )
}

#[test]
fn a_page_is_missed_once(rt: HostRuntime) -> Result<(), Fail> {
    assert!(rt; asked_three_times(rt.alloc())?);
    Ok(())
}

// A page that leaves and comes back between two requests, and then leaves again.
fn left_and_came_back(alloc: Global, mode: Mode, back: u64) -> Result<bool, Fail> {
    let mut stand = Stand::new(alloc, 4, mode)?;
    stand.publish(alloc, 1, true)?;
    let first = stand.gets(alloc, 0, (1, 201))?;
    stand.publish(alloc, 2, false)?;
    stand.publish(alloc, 3, true)?;
    let stale = stand.gets(alloc, 1, (1, 101))?;
    let again = stand.gets(alloc, 3, (3, back))?;
    stand.publish(alloc, 4, false)?;
    let gone = stand.gets(alloc, 4, (4, 0))?;
    let ahead = stand.gets(alloc, 9, (4, 1_000))?;
    Ok(first && stale && again && gone && ahead && stand.node.len() == 0)
}

#[test]
fn a_page_comes_back(rt: HostRuntime) -> Result<(), Fail> {
    let alloc = rt.alloc();
    assert!(rt; left_and_came_back(alloc, Mode::Update, 103)?);
    assert!(rt; left_and_came_back(alloc, Mode::Invalidate, 203)?);
    Ok(())
}

// A node may go to a thread.
fn moved<T: Send>(value: T) -> T
    ensures { result ≡ value }
{
    value
}

// A new node is delivered an edition without pages, and has nothing to evict.
fn delivered(alloc: Global) -> Result<bool, Fail> {
    let edition = empty(alloc)?;
    let mut node = moved(Node::new(alloc, 1, Mode::Update)?);
    let mut window = PlainWindow::new(&edition);
    node.deliver(alloc, &mut window, &path("/b")?)?;
    Ok(node.edition() == 0 && !node.evict(&path("/b")?))
}

#[test]
fn a_node_is_delivered_an_edition(rt: HostRuntime) -> Result<(), Fail> {
    assert!(rt; delivered(rt.alloc())?);
    Ok(())
}

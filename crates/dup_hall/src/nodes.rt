// The nodes of a hall, over the edition that its press publishes.
ghost use Rattle.std.specs.Prelude.{◌≡◌, ◌⊎◌, ◌≤◌, [], IfOk, List, OnErr, OnOk};
ghost use Rattle.dup_machine.specs.World.{answered};
ghost use Rattle.dup_machine.specs.World as machine;
ghost use Rattle.dup_model.specs.Editions.{Bundle};
ghost use Rattle.dup_model.specs.Serving.{HoldsPagesOf};
ghost use Rattle.dup_node.specs.Replies.{how_told, reply_told};
ghost use Rattle.dup_script.specs.Answers.{how_of, said_text};
ghost use Rattle.dup_transcript.specs.Texts.{found_text, told_text};
ghost use Rattle.dup_transcript.specs.declared.command.Command.TheVariants as command;
ghost use Rattle.dup_hall.specs.Serving.{AllHold, AreSame, Delivers, HasServed, HasTurned, Puts, Serves, TurnsNodes};

use dup_cache::{How, PlainWindow};
use dup_edition::{Edition, Page};
use dup_model::Mode;
use dup_names::{NoMemory, Pass, Path};
use dup_node::{Node, Reply};
use dup_script::{HowWord, Said};
use std::alloc::Global;
use std::collections::BTreeMap;

/// The nodes by their numbers.
pub type Nodes = BTreeMap<u16, Node>;

// Makes a node of a number that isn't taken.
fn make_node(
    alloc: Global,
    nodes: &mut Nodes,
    number: u16,
    capacity: u32,
    mode: Mode,
) -> Result<(), NoMemory>
    requires some { 1 ≤ capacity }
    requires fits { capacity ≤ 65536 }
    ensures puts { OnOk result (Puts nodes.old number
        (record { capacity = capacity; mode = mode; number = 0; entries = [] }) nodes.new) }
    ensures err { OnErr result (AreSame nodes.old nodes.new) }
{
    let node = Node::new(alloc, capacity, mode)?;
    nodes.insert(number, node)?;
    Ok(())
}

/// Makes a node, unless its number is taken.
pub(crate) fn add_node(
    alloc: Global,
    nodes: &mut Nodes,
    number: u16,
    capacity: u32,
    mode: Mode,
) -> Result<Said, NoMemory>
    requires some { 1 ≤ capacity }
    requires fits { capacity ≤ 65536 }
    ensures holds { OnOk result
        ((log : List Bundle) → AllHold nodes.old log → AllHold nodes.new log) }
    ensures turns { IfOk result (λ said. (log : List Bundle) →
        TurnsNodes log nodes.old (command.Node number capacity mode) (said_text said) nodes.new) }
    ensures err { OnErr result (AreSame nodes.old nodes.new) }
{
    if nodes.contains_key(&number) {
        return Ok(Said::NodeTaken(number));
    }
    make_node(alloc, nodes, number, capacity, mode)?;
    Ok(Said::Node(number))
}

fn how_word(how: How) -> HowWord
    ensures { how_of result ≡ how_told how }
{
    match how {
        How::Hit => HowWord::Hit,
        How::Miss => HowWord::Miss,
        How::MissUnkept => HowWord::Unkept,
    }
}

fn found(edition: u64, page: &Page, how: How) -> Result<Said, NoMemory>
    ensures { IfOk result (λ said. said_text said ≡ found_text edition page.now (how_told how)) }
{
    let bytes = page.look().bytes.share()?;
    let how = how_word(how);
    Ok(Said::Found {
        edition,
        version: page.version(),
        how,
        bytes,
    })
}

// What a reply says. The bytes of its page are shared.
fn said_of(reply: &Reply) -> Result<Said, NoMemory>
    ensures { IfOk result (λ said. said_text said ≡ told_text (answered (reply_told reply.now))) }
{
    match reply {
        Reply::Found { edition, page, how } => found(*edition, page, *how),
        Reply::Absent { edition } => Ok(Said::Absent(*edition)),
        Reply::Ahead { pass, edition } => Ok(Said::Ahead {
            pass: pass.0,
            edition: *edition,
        }),
    }
}

// What a node answers to a request.
fn serve(
    alloc: Global,
    node: &mut Node,
    edition: &Edition,
    pass: u64,
    path: &Path,
) -> Result<Said, NoMemory>
    requires { HoldsPagesOf edition.now.log node.old }
    ensures holds { HoldsPagesOf edition.now.log node.new }
    ensures serves { IfOk result (λ said.
        Serves edition.now.log node.old pass path.now (said_text said) node.new) }
    ensures err { OnErr result ((node.new ≡ node.old) ⊎ HasServed edition.now.log node.old pass path.now node.new) }
{
    let mut window = PlainWindow::new(edition);
    let reply = node.serve(alloc, &mut window, Pass(pass), path)?;
    said_of(&reply)
}

/// Answers a request at a node, where there is one of this number. A page that can't be kept for want of
/// memory is told as unkept.
pub(crate) fn get(
    alloc: Global,
    nodes: &mut Nodes,
    edition: &Edition,
    number: u16,
    pass: u64,
    path: &Path,
) -> Result<Said, NoMemory>
    requires { AllHold nodes.old edition.now.log }
    ensures holds { AllHold nodes.new edition.now.log }
    ensures turns { IfOk result (λ said.
        TurnsNodes edition.now.log nodes.old (command.Get number pass path.now) (said_text said) nodes.new) }
    ensures err { OnErr result (AreSame nodes.old nodes.new
        ⊎ HasTurned edition.now.log nodes.old (command.Get number pass path.now) nodes.new) }
{
    match nodes.get_mut(&number) {
        Some(node) => serve(alloc, node, edition, pass, path),
        None => Ok(Said::NoNode(number)),
    }
}

// Brings a node up to the edition, and tells what it holds.
fn bring_up(
    alloc: Global,
    number: u16,
    node: &mut Node,
    edition: &Edition,
) -> Result<Said, NoMemory>
    requires { HoldsPagesOf edition.now.log node.old }
    ensures holds { HoldsPagesOf edition.now.log node.new }
    ensures delivers { IfOk result (λ said.
        Delivers edition.now.log number node.old (said_text said) node.new) }
    ensures err { OnErr result (node.new ≡ node.old) }
{
    let mut window = PlainWindow::new(edition);
    let root = Path::read(b"/").unwrap();
    node.deliver(alloc, &mut window, &root)?;
    Ok(Said::Delivered {
        node: number,
        edition: node.edition(),
        entries: node.len(),
    })
}

/// Delivers the edition to a node, where there is one of this number.
pub(crate) fn deliver(
    alloc: Global,
    nodes: &mut Nodes,
    edition: &Edition,
    number: u16,
) -> Result<Said, NoMemory>
    requires { AllHold nodes.old edition.now.log }
    ensures holds { AllHold nodes.new edition.now.log }
    ensures turns { IfOk result (λ said.
        TurnsNodes edition.now.log nodes.old (command.Deliver number) (said_text said) nodes.new) }
    ensures err { OnErr result (AreSame nodes.old nodes.new) }
{
    match nodes.get_mut(&number) {
        Some(node) => bring_up(alloc, number, node, edition),
        None => Ok(Said::NoNode(number)),
    }
}

fn evicted(found: bool) -> Said
    ensures { said_text result ≡ told_text (machine.Told.Evicted found) }
{
    if found { Said::Evicted } else { Said::NotKept }
}

/// Drops the page of a path from the cache of a node, where there is one of this number. It takes no memory.
pub(crate) fn evict(nodes: &mut Nodes, number: u16, path: &Path) -> Said
    ensures holds { (log : List Bundle) → AllHold nodes.old log → AllHold nodes.new log }
    ensures turns { (log : List Bundle) →
        TurnsNodes log nodes.old (command.Evict number path.now) (said_text result) nodes.new }
{
    match nodes.get_mut(&number) {
        Some(node) => evicted(node.evict(path)),
        None => Said::NoNode(number),
    }
}

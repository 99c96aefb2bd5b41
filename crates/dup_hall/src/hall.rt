// The hall, and what each command does to it.
ghost use Rattle.std.specs.Prelude.{◌≡◌, ◌++◌, IfOk, OnErr, OnOk};
ghost use Rattle.dup_script.specs.Answers.{said_text};
ghost use Rattle.dup_hall.specs.Tallies.{settled_as, settled_once};
ghost use Rattle.dup_hall.specs.declared.tally.Tally.{Tally};
ghost use Rattle.dup_transcript.specs.Texts.{settled_text, status_text};

use crate::nodes::{Nodes, add_node, deliver, evict, get};
use crate::tally::Tally;
use dup_edition::PlainOutlet;
use dup_model::{FeedRefusal, Mode};
use dup_names::{Meter, NoMemory, Path};
use dup_press::{Press, Status, Summary};
use dup_records::{Commit, CommitRefusal, Limits};
use dup_script::{Said, said_text};
use dup_template::Site;
use dup_transcript::Command;
use std::alloc::Global;
use std::marker::Sync;
use std::sync::Arc;
use std::thread::Threads;

/// A press with nodes 1 to 16 over the editions that it publishes, and the tally of the commands that were done.
/// Who changes a field owes it that each node's cache still holds pages of the press's log.
#[derive(Drop)]
pub struct Hall {
    /// The press, over an edition of its own.
    pub press: Press<PlainOutlet>,
    /// The nodes by their numbers.
    pub nodes: Nodes,
    /// How many objects were expanded.
    pub meter: Meter,
    /// What was done so far.
    pub tally: Tally,
}

// What a settle did.
fn settled(summary: Summary) -> Said
    ensures counts { (tally : Tally) →
        settled_as result tally ≡ settled_once summary.expanded summary.joined tally }
    ensures text { said_text result ≡ settled_text summary.edition summary.bundles (record {
      version = summary.version;
      expanded = summary.expanded;
      joined = summary.joined;
      kept = summary.kept;
    }) }
{
    let Summary {
        version,
        edition,
        bundles,
        expanded,
        joined,
        kept,
    } = summary;
    Said::Settled {
        version,
        edition,
        bundles,
        expanded,
        joined,
        kept,
    }
}

// How a press stands.
fn status_said(status: Status) -> Said
    ensures { said_text result ≡ status_text (record {
      version = status.version;
      work = status.work;
      target = status.target;
      edition = status.edition;
      pending = status.pending;
    }) }
{
    let Status {
        version,
        work,
        target,
        edition,
        pending,
    } = status;
    Said::Status {
        version,
        work,
        target,
        edition,
        pending,
    }
}

// The line that says why a feed message says no commit. Want of memory stays what it is.
fn bad_feed(why: FeedRefusal, out: &mut Vec<u8>) -> Result<(), NoMemory>
    ensures { OnOk result (out.new.items ≡ out.old.items ++ said_text (Said.BadFeed why)) }
{
    match why {
        FeedRefusal::NoMemory => Err(NoMemory),
        why => said_text(&Said::BadFeed(why), out),
    }
}

impl Hall {
    ghost use Rattle.dup_model.specs.Journal.{usual_limits};
    ghost use Rattle.dup_records.specs.JournalSizes.{limits_of as limits_told};
    ghost use Rattle.dup_script.specs.Commands.{HasRoom};
    ghost use Rattle.dup_hall.specs.Kept.{IsSameHouse, IsSound, limits_of, site_of, standing, Reaches, WritesAnswer};
    ghost use Rattle.dup_hall.specs.Tallies.{no_tally};
    ghost use Rattle.dup_transcript.specs.Turns.{first_standing};
    ghost use Rattle.dup_transcript.specs.declared.command.Command.TheVariants as command;

    /// The hall of a site before any command, over a journal of these limits.
    pub fn new(alloc: Global, site: Arc<Site, Global>, limits: Limits) -> Result<Hall, NoMemory>
        ensures site { IfOk result (λ made. site_of made ≡ site.value) }
        ensures limits { IfOk result (λ made. limits_of made ≡ limits_told limits) }
        ensures sound { IfOk result IsSound }
        ensures first { IfOk result (λ made. standing made ≡ first_standing) }
        ensures tally { IfOk result (λ made. made.tally ≡ no_tally) }
    {
        let outlet = PlainOutlet::empty(alloc, Arc::try_clone(&site)?);
        let press = Press::new(alloc, site, limits, outlet)?;
        let nodes = Nodes::new(alloc);
        Ok(Hall {
            press,
            nodes,
            meter: Meter::new(),
            tally: Tally::new(),
        })
    }

    fn commit(&mut self, alloc: Global, commit: Commit, out: &mut Vec<u8>) -> Result<(), NoMemory>
        requires { IsSound self.old }
        ensures house { IsSameHouse self.old self.new }
        ensures sound { IsSound self.new }
        ensures answers { OnOk result
            (WritesAnswer self.old self.new 0 (command.Commit commit) out.old.items out.new.items) }
        ensures err { OnErr result (Reaches self.old self.new) }
    {
        match self.press.commit(alloc, commit) {
            Ok(version) => said_text(&Said::Committed(version), out),
            Err(CommitRefusal::NoMemory) => Err(NoMemory),
            Err(why) => said_text(&Said::Refused(why), out),
        }
    }

    fn settle<R: Threads + Sync>(
        &mut self,
        rt: &R,
        alloc: Global,
        out: &mut Vec<u8>,
    ) -> Result<(), NoMemory>
        requires { IsSound self.old }
        ensures house { IsSameHouse self.old self.new }
        ensures sound { OnOk result (IsSound self.new) }
        ensures answers { OnOk result
            (WritesAnswer self.old self.new 0 command.Settle out.old.items out.new.items) }
        ensures err { OnErr result (Reaches self.old self.new) }
    {
        let summary = self.press.settle(rt, alloc, &mut self.meter)?;
        self.tally.settle(summary.expanded, summary.joined);
        said_text(&settled(summary), out)?;
        Ok(())
    }

    fn status(&self, out: &mut Vec<u8>) -> Result<(), NoMemory>
        ensures { OnOk result
            (WritesAnswer self.now self.now 0 command.Status out.old.items out.new.items) }
    {
        let status = self.press.status();
        said_text(&status_said(status), out)?;
        Ok(())
    }

    fn add_node(
        &mut self,
        alloc: Global,
        number: u16,
        capacity: u32,
        mode: Mode,
        out: &mut Vec<u8>,
    ) -> Result<(), NoMemory>
        requires sound { IsSound self.old }
        requires room { HasRoom (command.Node number capacity mode) }
        ensures house { IsSameHouse self.old self.new }
        ensures sound { OnOk result (IsSound self.new) }
        ensures answers { OnOk result (WritesAnswer self.old self.new 0
            (command.Node number capacity mode) out.old.items out.new.items) }
        ensures err { OnErr result (Reaches self.old self.new) }
    {
        let said = add_node(alloc, &mut self.nodes, number, capacity, mode)?;
        said_text(&said, out)?;
        Ok(())
    }

    fn deliver(&mut self, alloc: Global, number: u16, out: &mut Vec<u8>) -> Result<(), NoMemory>
        requires { IsSound self.old }
        ensures house { IsSameHouse self.old self.new }
        ensures sound { IsSound self.new }
        ensures answers { OnOk result
            (WritesAnswer self.old self.new 0 (command.Deliver number) out.old.items out.new.items) }
        ensures err { OnErr result (Reaches self.old self.new) }
    {
        let said = deliver(alloc, &mut self.nodes, self.press.outlet(), number)?;
        said_text(&said, out)?;
        Ok(())
    }

    fn get(
        &mut self,
        alloc: Global,
        number: u16,
        pass: u64,
        path: &Path,
        out: &mut Vec<u8>,
    ) -> Result<(), NoMemory>
        requires { IsSound self.old }
        ensures house { IsSameHouse self.old self.new }
        ensures sound { IsSound self.new }
        ensures answers { OnOk result (WritesAnswer self.old self.new 0
            (command.Get number pass path.now) out.old.items out.new.items) }
        ensures err { OnErr result (Reaches self.old self.new) }
    {
        let said = get(
            alloc,
            &mut self.nodes,
            self.press.outlet(),
            number,
            pass,
            path,
        )?;
        self.tally.get(&said);
        said_text(&said, out)?;
        Ok(())
    }

    fn evict(&mut self, number: u16, path: &Path, out: &mut Vec<u8>) -> Result<(), NoMemory>
        requires { IsSound self.old }
        ensures house { IsSameHouse self.old self.new }
        ensures sound { IsSound self.new }
        ensures answers { OnOk result (WritesAnswer self.old self.new 0
            (command.Evict number path.now) out.old.items out.new.items) }
        ensures err { OnErr result (Reaches self.old self.new) }
    {
        let said = evict(&mut self.nodes, number, path);
        said_text(&said, out)?;
        Ok(())
    }

    /// Its press. It takes no memory.
    pub fn press(&self) -> &Press<PlainOutlet>
        ensures { result.now ≡ self.now.press }
    {
        &self.press
    }

    /// What was done so far. It takes no memory.
    pub fn tally(&self) -> Tally
        ensures { result ≡ self.now.tally }
    {
        self.tally
    }

    /// Does the command that stands in the line of this number, and appends what is written of it. A commit and a
    /// settle cost what they cost the press, a request and a delivery what they cost the node.
    ///
    /// After want of memory nothing more is to be done with the hall: its press and its nodes are those of a state
    /// of the machine, but a job may be out.
    pub fn act<R: Threads + Sync>(
        &mut self,
        rt: &R,
        alloc: Global,
        number: u64,
        command: Command<Commit>,
        out: &mut Vec<u8>,
    ) -> Result<(), NoMemory>
        requires sound { IsSound self.old }
        requires room { HasRoom command }
        ensures house { IsSameHouse self.old self.new }
        ensures sound { OnOk result (IsSound self.new) }
        ensures answers { OnOk result
            (WritesAnswer self.old self.new number command out.old.items out.new.items) }
        ensures err { OnErr result (Reaches self.old self.new) }
    {
        match command {
            Command::Blank => Ok(()),
            Command::Commit(commit) => self.commit(alloc, commit, out),
            Command::BadFeed(why) => bad_feed(why, out),
            Command::Settle => self.settle(rt, alloc, out),
            Command::Node {
                number,
                capacity,
                mode,
            } => self.add_node(alloc, number, capacity, mode, out),
            Command::Deliver(number) => self.deliver(alloc, number, out),
            Command::Get { node, pass, path } => self.get(alloc, node, pass, &path, out),
            Command::Evict { node, path } => self.evict(node, &path, out),
            Command::Status => self.status(out),
            Command::NotBuilt => said_text(&Said::NotBuilt(number), out),
            Command::Bad => said_text(&Said::BadLine(number), out),
        }
    }
}

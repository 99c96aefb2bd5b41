// What is kept of a site text.
ghost use Rattle.std.specs.Prelude.{◌≡◌, ◌≤◌, ◌<◌, ◌+◌, false};
ghost use Rattle.dup_names.specs.declared.limits.TheConstants.{MAX_STATEMENTS};
ghost use Rattle.dup_site.specs.KeptStatements as kept;
ghost use Rattle.dup_site.specs.Drafted.{drafted, keeping_of, Goes};

use crate::draft::{SiteReading, Stands, step};
use crate::site_line::{Head, SiteLine};
use dup_names::{MAX_NESTING, MAX_STATEMENTS};
use std::alloc::Global;

/// What was read so far, of each template its first statements: one more than a good template has. A
/// text may nest as deep as it is long; what is kept of it doesn't: behind the first statement that is
/// too deep, or past those that are kept, `nl` stands for a statement as long as there is room.
#[derive(Drop)]
pub struct Keeping {
    pub reading: SiteReading,
    /// The statements of the open template that were begun, up to those that are kept.
    pub begun: u64,
    /// The open statements that weren't kept.
    pub passed: u64,
    /// Whether the open template has a statement that is too deep.
    pub deep: bool,
}

fn head_size(head: &Head) -> u64
    ensures value { result ≡ kept.head_size head.now }
    ensures small { result ≤ 1 }
{
    match head {
        Head::Template { name: _, kind: _ } => 0,
        Head::If(_) => 1,
        Head::Each {
            kind: _,
            by: _,
            order: _,
        } => 1,
        Head::Link {
            template: _,
            via: _,
        } => 1,
    }
}

fn begins(line: &SiteLine) -> u64
    ensures value { result ≡ kept.begins line.now }
    ensures small { result ≤ 1 }
{
    match line {
        SiteLine::Blank | SiteLine::Page(_) | SiteLine::End => 0,
        SiteLine::Kind { name: _, fields: _ } => 0,
        SiteLine::Open(head) => head_size(head),
        SiteLine::Say(_) | SiteLine::Nl | SiteLine::Field(_) | SiteLine::Key => 1,
        SiteLine::Embed {
            template: _,
            via: _,
        } => 1,
    }
}

fn opens(line: &SiteLine) -> bool
    ensures { result ≡ kept.opens line.now }
{
    match line {
        SiteLine::Open(head) => head_size(head) == 1,
        SiteLine::Blank | SiteLine::Page(_) | SiteLine::End => false,
        SiteLine::Kind { name: _, fields: _ } => false,
        SiteLine::Say(_) | SiteLine::Nl | SiteLine::Field(_) | SiteLine::Key => false,
        SiteLine::Embed {
            template: _,
            via: _,
        } => false,
    }
}

#[tactic(auto, using(crate::proofs::OpenStack::outward_none, crate::proofs::OpenStack::outward_some))]
fn count(keeping: &mut Keeping, begun: u64, deep: bool)
    ensures { keeping_of keeping.new ≡ kept.counted begun deep (drafted keeping.old.reading) }
{
    let is_open = !keeping.reading.stack.is_empty();
    keeping.begun = if is_open { begun } else { 0 };
    keeping.deep = is_open && deep;
    keeping.passed = 0;
}

fn within(alloc: Global, keeping: &mut Keeping, line: SiteLine) -> Stands
    requires { keeping.old.begun < MAX_STATEMENTS + 1 }
    ensures step { Goes result (keeping_of keeping.new) (kept.within (keeping_of keeping.old) line) }
    ensures passed { keeping.new.passed ≤ keeping.old.passed + 1 }
{
    let begun = keeping.begun + begins(&line);
    let stands = step(alloc, &mut keeping.reading, line)?;
    count(keeping, begun, false);
    Ok(stands)
}

/// A statement that isn't kept.
fn mark(alloc: Global, keeping: &mut Keeping, passed: u64) -> Stands
    ensures step { Goes result (keeping_of keeping.new) (kept.mark (keeping_of keeping.old) passed) }
    ensures passed { keeping.new.passed ≡ passed }
{
    keeping.passed = passed;
    if keeping.begun > MAX_STATEMENTS as u64 {
        return Ok(true);
    }
    keeping.begun += 1;
    keeping.deep = true;
    step(alloc, &mut keeping.reading, SiteLine::Nl)
}

fn pass_head(alloc: Global, keeping: &mut Keeping, head: &Head) -> Stands
    requires { keeping.old.passed < u64.MAX }
    ensures step { Goes result (keeping_of keeping.new) (kept.pass_head (keeping_of keeping.old) head.now) }
    ensures passed { keeping.new.passed ≤ keeping.old.passed + 1 }
{
    if head_size(head) == 0 {
        return Ok(false);
    }
    let passed = keeping.passed + 1;
    mark(alloc, keeping, passed)
}

#[tactic(auto, using(crate::proofs::OpenStack::pass_end_some, crate::proofs::OpenStack::pass_end_none))]
fn pass_end(alloc: Global, keeping: &mut Keeping) -> Stands
    ensures step { Goes result (keeping_of keeping.new)
        (kept.pass_end (keeping_of keeping.old) keeping.old.passed) }
    ensures passed { keeping.new.passed ≤ keeping.old.passed + 1 }
{
    if keeping.passed > 0 {
        keeping.passed -= 1;
        return Ok(true);
    }
    let begun = keeping.begun;
    let deep = keeping.deep;
    let stands = step(alloc, &mut keeping.reading, SiteLine::End)?;
    count(keeping, begun, deep);
    Ok(stands)
}

fn beyond(alloc: Global, keeping: &mut Keeping, line: SiteLine) -> Stands
    requires { keeping.old.passed < u64.MAX }
    ensures step { Goes result (keeping_of keeping.new) (kept.beyond (keeping_of keeping.old) line) }
    ensures passed { keeping.new.passed ≤ keeping.old.passed + 1 }
{
    let passed = keeping.passed;
    match &line {
        SiteLine::Blank => Ok(true),
        SiteLine::Kind { name: _, fields: _ } | SiteLine::Page(_) => Ok(false),
        SiteLine::Open(head) => pass_head(alloc, keeping, head),
        SiteLine::End => pass_end(alloc, keeping),
        SiteLine::Say(_) | SiteLine::Nl | SiteLine::Field(_) | SiteLine::Key => mark(
            alloc, keeping, passed,
        ),
        SiteLine::Embed {
            template: _,
            via: _,
        } => mark(alloc, keeping, passed),
    }
}

fn is_past(keeping: &Keeping) -> bool
    ensures value { result ≡ kept.is_past (keeping_of keeping.now) }
    ensures room { result ≡ false → keeping.now.begun < MAX_STATEMENTS + 1 }
{
    keeping.deep || keeping.begun > MAX_STATEMENTS as u64
}

#[tactic(auto, using(crate::proofs::OpenStack::outward_length))]
fn is_too_deep(keeping: &Keeping, line: &SiteLine) -> bool
    ensures { result ≡ kept.is_too_deep (keeping_of keeping.now) line.now }
{
    opens(line) && keeping.reading.stack.len() > MAX_NESTING
}

/// Takes one line more; false where it may not stand there.
pub(crate) fn keep(alloc: Global, keeping: &mut Keeping, line: SiteLine) -> Stands
    requires { keeping.old.passed < u64.MAX }
    ensures step { Goes result (keeping_of keeping.new) (kept.keep (keeping_of keeping.old) line) }
    ensures passed { keeping.new.passed ≤ keeping.old.passed + 1 }
{
    if is_past(keeping) {
        beyond(alloc, keeping, line)
    } else if is_too_deep(keeping, &line) {
        mark(alloc, keeping, 1)
    } else {
        within(alloc, keeping, line)
    }
}

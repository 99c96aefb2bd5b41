// What the lines of a site text say, one line after another.
ghost use Rattle.std.specs.Prelude.{◌≡◌, Some, None, IfOk, IfSome, [], if◌then◌else◌};
ghost use Rattle.dup_site.specs.Draft as draft;
ghost use Rattle.dup_site.specs.Drafted.{drafted, Goes};
ghost use Rattle.dup_template.specs.declared.statement.Statement.TheVariants as statement;

use crate::site_line::{Head, SiteLine};
use dup_names::NoMemory;
use dup_template::{Body, KindPart, PageRule, SharedBody, Statement, TemplatePart};
use std::alloc::Global;

/// A template or a statement that is still open, and its statements so far.
#[derive(Drop)]
pub struct Open {
    pub head: Head,
    pub done: Vec<Statement>,
}

/// The parts so far, and what is open, the innermost last.
#[derive(Drop)]
pub struct SiteReading {
    pub kinds: Vec<KindPart>,
    pub templates: Vec<TemplatePart>,
    pub pages: Vec<PageRule>,
    pub stack: Vec<Open>,
}

/// Whether the line may stand there.
pub(crate) type Stands = Result<bool, NoMemory>;

#[tactic(auto, using(crate::proofs::OpenStack::outward_last))]
fn put(reading: &mut SiteReading, statement: Statement) -> Stands
    ensures { Goes result (drafted reading.new)
        (draft.put statement (drafted reading.old) (drafted reading.old).stack) }
{
    match reading.stack.pop() {
        None => Ok(false),
        Some(open) => {
            let Open { head, mut done } = open;
            done.push(statement)?;
            reading.stack.push(Open { head, done })?;
            Ok(true)
        }
    }
}

#[tactic(auto, using(crate::proofs::OpenStack::outward_last))]
fn open_statement(alloc: Global, reading: &mut SiteReading, head: Head) -> Stands
    ensures { Goes result (drafted reading.new)
        (draft.open_statement head (drafted reading.old) (drafted reading.old).stack) }
{
    match reading.stack.pop() {
        None => Ok(false),
        Some(outer) => {
            let done = Vec::new(alloc);
            reading.stack.push(outer)?;
            reading.stack.push(Open { head, done })?;
            Ok(true)
        }
    }
}

#[tactic(auto, using(crate::proofs::OpenStack::outward_last))]
fn put_template(reading: &mut SiteReading, template: TemplatePart) -> Stands
    ensures { Goes result (drafted reading.new)
        (draft.put_template template (drafted reading.old) (drafted reading.old).stack) }
{
    match reading.stack.pop() {
        None => {
            reading.templates.push(template)?;
            Ok(true)
        }
        Some(_) => Ok(false),
    }
}

#[tactic(auto, using(crate::proofs::OpenStack::outward_last))]
fn put_page(reading: &mut SiteReading, rule: PageRule) -> Stands
    ensures { Goes result (drafted reading.new)
        (draft.put_page rule (drafted reading.old) (drafted reading.old).stack) }
{
    match reading.stack.pop() {
        None => {
            reading.pages.push(rule)?;
            Ok(true)
        }
        Some(_) => Ok(false),
    }
}

fn close(alloc: Global, reading: &mut SiteReading, head: Head, done: Vec<Statement>) -> Stands
    ensures { Goes result (drafted reading.new)
        (draft.close head done.items (drafted reading.old) (drafted reading.old).stack) }
{
    match head {
        Head::Template { name, kind } => {
            let body = SharedBody::of(alloc, Body::of(done))?;
            put_template(reading, TemplatePart { name, kind, body })
        }
        Head::If(field) => put(
            reading,
            Statement::If {
                field,
                body: Body::of(done),
            },
        ),
        Head::Each { kind, by, order } => put(
            reading,
            Statement::Each {
                kind,
                by,
                order,
                body: Body::of(done),
            },
        ),
        Head::Link { template, via } => put(
            reading,
            Statement::Link {
                template,
                via,
                body: Body::of(done),
            },
        ),
    }
}

#[tactic(auto, using(crate::proofs::OpenStack::outward_last))]
fn end(alloc: Global, reading: &mut SiteReading) -> Stands
    ensures { Goes result (drafted reading.new)
        (draft.end (drafted reading.old) (drafted reading.old).stack) }
{
    match reading.stack.pop() {
        None => Ok(false),
        Some(open) => {
            let Open { head, done } = open;
            close(alloc, reading, head, done)
        }
    }
}

fn open_template(alloc: Global, reading: &mut SiteReading, head: Head) -> Stands
    ensures { Goes result (drafted reading.new)
        (draft.open_template head (drafted reading.old) (drafted reading.old).stack reading.old.pages.items) }
{
    if !reading.pages.as_slice().is_empty() {
        return Ok(false);
    }
    open_first(alloc, reading, head)
}

#[tactic(auto, using(crate::proofs::OpenStack::outward_last))]
fn open_first(alloc: Global, reading: &mut SiteReading, head: Head) -> Stands
    ensures { Goes result (drafted reading.new)
        (draft.open_first head (drafted reading.old) (drafted reading.old).stack) }
{
    match reading.stack.pop() {
        None => {
            let done = Vec::new(alloc);
            reading.stack.push(Open { head, done })?;
            Ok(true)
        }
        Some(_) => Ok(false),
    }
}

#[tactic(auto, using(crate::proofs::OpenStack::outward_last))]
fn put_first(reading: &mut SiteReading, kind: KindPart) -> Stands
    ensures { Goes result (drafted reading.new)
        (draft.put_first kind (drafted reading.old) (drafted reading.old).stack) }
{
    match reading.stack.pop() {
        None => {
            reading.kinds.push(kind)?;
            Ok(true)
        }
        Some(_) => Ok(false),
    }
}

fn put_kind(reading: &mut SiteReading, kind: KindPart) -> Stands
    ensures { Goes result (drafted reading.new)
        (draft.put_kind kind (drafted reading.old)
        (drafted reading.old).stack reading.old.templates.items reading.old.pages.items) }
{
    if !reading.templates.as_slice().is_empty() || !reading.pages.as_slice().is_empty() {
        return Ok(false);
    }
    put_first(reading, kind)
}

fn open_head(alloc: Global, reading: &mut SiteReading, head: Head) -> Stands
    ensures { Goes result (drafted reading.new) (draft.open_head head (drafted reading.old)) }
{
    match head {
        Head::Template { name, kind } => {
            open_template(alloc, reading, Head::Template { name, kind })
        }
        Head::If(field) => open_statement(alloc, reading, Head::If(field)),
        Head::Each { kind, by, order } => {
            open_statement(alloc, reading, Head::Each { kind, by, order })
        }
        Head::Link { template, via } => {
            open_statement(alloc, reading, Head::Link { template, via })
        }
    }
}

/// Takes one line more; false where it may not stand there.
pub(crate) fn step(alloc: Global, reading: &mut SiteReading, line: SiteLine) -> Stands
    ensures { Goes result (drafted reading.new) (draft.step (drafted reading.old) line) }
{
    match line {
        SiteLine::Blank => Ok(true),
        SiteLine::Kind { name, fields } => put_kind(reading, KindPart { name, fields }),
        SiteLine::Page(rule) => put_page(reading, rule),
        SiteLine::Open(head) => open_head(alloc, reading, head),
        SiteLine::Say(text) => put(reading, Statement::Say(text)),
        SiteLine::Nl => put(reading, Statement::Nl),
        SiteLine::Field(field) => put(reading, Statement::Field(field)),
        SiteLine::Key => put(reading, Statement::Key),
        SiteLine::Embed { template, via } => put(reading, Statement::Embed { template, via }),
        SiteLine::End => end(alloc, reading),
    }
}

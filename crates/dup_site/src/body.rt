// The body of a template as lines.
ghost use Rattle.std.specs.Prelude.{◌≡◌, ◌≤◌, Some, IfOk, IfSome};
ghost use Rattle.std.specs.List.{AllByRecursion};
ghost use Rattle.dup_names.specs.Lines.{text_lines};
ghost use Rattle.dup_names.specs.declared.limits.TheConstants.{MAX_TEXT_BYTES};
ghost use Rattle.dup_template.specs.BodyLines.{body_text, longest_of};
ghost use Rattle.dup_site.specs.Draft.{step_at};
ghost use Rattle.dup_site.specs.Drafted.{drafted, outward, Goes};
ghost use Rattle.dup_site.specs.SaidBody as said;
ghost use Rattle.dup_site.specs.SaidBody.{body_line, body_said};
ghost use Rattle.dup_site.specs.declared.site_line.Head.{Head};

use crate::draft::{Open, SiteReading, Stands, step};
use crate::read_line::read_line;
use crate::reading::cut_line;
use crate::site_line::Head;
use crate::writing::put_body;
use dup_names::{Name, NoMemory, Text};
use dup_template::{Body, SharedBody};
use std::alloc::Global;

fn is_one_line(line: &[u8]) -> bool
    ensures { result ≡ said.is_one_line line.now }
{
    line.iter().all(|byte| *byte != b'\n')
}

/// A reading behind the line of a template.
fn begun(alloc: Global, head: Head) -> Result<SiteReading, NoMemory>
    ensures { IfOk result (λ made. drafted made ≡ said.begun head) }
{
    let mut stack = Vec::new(alloc);
    let done = Vec::new(alloc);
    stack.push(Open { head, done })?;
    Ok(SiteReading {
        kinds: Vec::new(alloc),
        templates: Vec::new(alloc),
        pages: Vec::new(alloc),
        stack,
    })
}

fn take_line(alloc: Global, reading: &mut SiteReading, line: &[u8]) -> Stands
    ensures { Goes result (drafted reading.new) (step_at (drafted reading.old) (body_line line.now)) }
{
    if !is_one_line(line) {
        return Ok(false);
    }
    match read_line(alloc, line)? {
        None => Ok(false),
        Some(line) => step(alloc, reading, line),
    }
}

/// The statements of what is open, where that is one.
#[tactic(auto, using(crate::proofs::OpenStack::one_open, crate::proofs::OpenStack::more_open))]
fn of_one(alloc: Global, stack: Vec<Open>) -> Result<Option<SharedBody>, NoMemory>
    ensures { IfOk result (λ read. read ≡ said.of_one (outward stack.items)) }
{
    let mut stack = stack;
    let Some(open) = stack.pop() else {
        return Ok(None);
    };
    if !stack.is_empty() {
        return Ok(None);
    }
    let Open { head: _, done } = open;
    let body = SharedBody::of(alloc, Body::of(done))?;
    Ok(Some(body))
}

/// The statements of the template that was begun, where no line closed it, and nothing in it is open.
fn finished(alloc: Global, reading: SiteReading) -> Result<Option<SharedBody>, NoMemory>
    ensures { IfOk result (λ read. read ≡ said.statements_of (drafted reading)) }
{
    if !reading.templates.as_slice().is_empty() {
        return Ok(None);
    }
    of_one(alloc, reading.stack)
}

/// The body that these lines say, where they may stand between the line of a template and its `end`:
/// none where a line has no form or may not stand where it stands, where one closes the template, where
/// something is left open, and where a line holds a byte 10. Each canonical line of the body has at most
/// 4,096 bytes, so `body_lines` takes it. It costs the lines.
pub fn read_body(alloc: Global, lines: &[Text]) -> Result<Option<SharedBody>, NoMemory>
    ensures value { IfOk result (λ read. read ≡ body_said lines.now) }
    ensures fits { IfOk result (λ read. IfSome read (λ body. longest_of (body_text body) ≤ MAX_TEXT_BYTES)) }
{
    let Some(name) = Name::read(b"t") else {
        unreachable!()
    };
    let mut reading = begun(alloc, Head::Template { name, kind: None })?;
    for line in lines {
        if !take_line(alloc, &mut reading, line.bytes())? {
            return Ok(None);
        }
    }
    let read = finished(alloc, reading)?;
    Ok(read)
}

/// The lines of a text, each of which is one of at most 4,096 bytes.
fn texts_of(alloc: Global, text: &[u8]) -> Result<Vec<Text>, NoMemory>
    requires { AllByRecursion said.is_text (text_lines text.now) }
    ensures { IfOk result (λ lines. lines.items ≡ text_lines text.now) }
{
    let mut lines = Vec::new(alloc);
    let mut rest = text;
    while !rest.is_empty() {
        let (line, more) = cut_line(rest);
        let Some(line) = Text::read(alloc, line)? else {
            unreachable!()
        };
        lines.push(line)?;
        rest = more;
    }
    Ok(lines)
}

/// The canonical lines of a body, each of which has at most 4,096 bytes. Read again, they give the same body.
pub fn body_lines(alloc: Global, body: &SharedBody) -> Result<Vec<Text>, NoMemory>
    requires fits { longest_of (body_text body.now) ≤ MAX_TEXT_BYTES }
    ensures lines { IfOk result (λ lines. lines.items ≡ body_text body.now) }
    ensures again { IfOk result (λ lines. body_said lines.items ≡ Some body.now) }
{
    let mut text = Vec::new(alloc);
    put_body(body.items(), &mut text)?;
    let lines = texts_of(alloc, &text)?;
    Ok(lines)
}

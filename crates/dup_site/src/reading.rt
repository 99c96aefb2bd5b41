// A site text is read line by line.
ghost use Rattle.std.specs.Prelude.{◌≡◌, ◌≤◌, ◌<◌, ◌+◌, ◌∷◌, length};
ghost use Rattle.dup_names.specs.Lines as lines;
ghost use Rattle.dup_site.specs.LineSpans as spans;
ghost use Rattle.dup_site.specs.Draft as draft;
ghost use Rattle.dup_site.specs.Drafted.{drafted, keeping_of, Goes};
ghost use Rattle.dup_site.specs.KeptStatements as kept;
ghost use Rattle.dup_site.specs.KeptStatements.{Keeps};
ghost use Rattle.dup_site.specs.Reads.{Reads, Says, site_says};
ghost use Rattle.dup_site.specs.Spelling.{line_of, text_says};

use crate::draft::SiteReading;
use crate::keeping::{Keeping, keep};
use crate::read_line::read_line;
use dup_lists::Listed;
use dup_names::NoMemory;
use dup_template::{Parts, Site, SiteRefusal, SiteTextRefusal};
use std::alloc::Global;

/// How many bytes stand before the first line feed.
fn line_span(bytes: &[u8]) -> usize
    ensures value { result ≡ spans.line_span bytes.now }
    ensures within { result ≤ length bytes.now }
{
    let mut at = 0;
    while at < bytes.len() && bytes[at] != b'\n' {
        at += 1;
    }
    at
}

/// The first line, and the text behind it.
pub(crate) fn cut_line(text: &[u8]) -> (&[u8], &[u8])
    requires { 0 < length text.now }
    ensures lines { lines.text_lines text.now ≡ result.0.now ∷ lines.text_lines result.1.now }
    ensures shorter { length result.1.now < length text.now }
{
    let end = line_span(text);
    let rest = if end < text.len() { end + 1 } else { end };
    (&text[..end], &text[rest..])
}

fn take_line(alloc: Global, keeping: &mut Keeping, line: &[u8]) -> Result<bool, NoMemory>
    requires { keeping.old.passed < u64.MAX }
    ensures step { Goes result (keeping_of keeping.new)
        (kept.keep_at (keeping_of keeping.old) (line_of line.now)) }
    ensures passed { keeping.new.passed ≤ keeping.old.passed + 1 }
{
    match read_line(alloc, line)? {
        None => Ok(false),
        Some(line) => Ok(keep(alloc, keeping, line)?),
    }
}

#[tactic(auto, using(crate::proofs::OpenStack::outward_last))]
fn finished(reading: SiteReading, number: u64) -> Result<Parts, SiteTextRefusal>
    ensures { Says result (draft.finished number (drafted reading) (drafted reading).stack) }
{
    let SiteReading {
        kinds,
        templates,
        pages,
        mut stack,
    } = reading;
    match stack.pop() {
        None => Ok(Parts {
            kinds: Listed::of(kinds),
            templates: Listed::of(templates),
            pages: Listed::of(pages),
        }),
        Some(_) => Err(SiteTextRefusal::BadLine(number)),
    }
}

/// The parts that a text says, save the statements of a template past those that are kept.
fn read_parts(alloc: Global, text: &[u8]) -> Result<Parts, SiteTextRefusal>
    ensures { Keeps result (text_says text.now) }
{
    let reading = SiteReading {
        kinds: Vec::new(alloc),
        templates: Vec::new(alloc),
        pages: Vec::new(alloc),
        stack: Vec::new(alloc),
    };
    let mut keeping = Keeping {
        reading,
        begun: 0,
        passed: 0,
        deep: false,
    };
    let mut rest = text;
    let mut number = 1;
    while !rest.is_empty() {
        let (line, more) = cut_line(rest);
        let stands = take_line(alloc, &mut keeping, line)?;
        if !stands {
            return Err(SiteTextRefusal::BadLine(number));
        }
        rest = more;
        number += 1;
    }
    finished(keeping.reading, number)
}

/// The site of a text.
pub fn read_site(alloc: Global, text: &[u8]) -> Result<Site, SiteTextRefusal>
    ensures { Reads result (site_says text.now) }
{
    let parts = read_parts(alloc, text)?;
    match Site::check(parts) {
        Ok(site) => Ok(site),
        Err(SiteRefusal::NoMemory) => Err(SiteTextRefusal::NoMemory),
        Err(fault) => Err(SiteTextRefusal::Check(fault)),
    }
}

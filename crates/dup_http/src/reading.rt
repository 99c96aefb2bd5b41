// Reading the head of a request.
ghost use Rattle.std.specs.Prelude.{◌≡◌, IfOk, length, map, take, if◌then◌else◌};
ghost use Rattle.std.specs.List.{count_by};
ghost use Rattle.httparse.specs.Spans.{IsRequestWithin, span_bytes, header_bytes};
ghost use Rattle.dup_names.specs.Lines.{is_feed};
ghost use Rattle.dup_http.specs.Readings.{window as window_of, is_full as full, parts_say, Reads, ReadsItsHead, RefusesManyFields, ReadsHoweverCut, IsInBounds};

use crate::ask::Reading;
use crate::fields::fields;
use crate::rules::ask;
use dup_names::NoMemory;
use httparse::spans::{EMPTY_HEADER_SPAN, HeaderSpan, RequestSpans, parse_request};
use httparse::{Error, Status};
use std::alloc::Global;

/// The longest head, in bytes.
const MAX_HEAD: usize = 8192;

/// The most fields of a head.
const MAX_FIELDS: usize = 64;

/// What is looked at.
fn window(bytes: &[u8]) -> &[u8]
    ensures { result.now ≡ window_of bytes.now }
{
    if bytes.len() > MAX_HEAD {
        &bytes[..MAX_HEAD]
    } else {
        bytes
    }
}

/// How many line feeds there are.
fn feeds(window: &[u8]) -> usize
    ensures { result ≡ count_by is_feed window.now }
{
    window.iter().filter(|byte| **byte == b'\n').count()
}

/// Whether it is as long as a head may be, or has more line feeds than a head of 64 fields.
fn is_full(window: &[u8]) -> bool
    ensures { result ≡ full window.now }
{
    window.len() >= MAX_HEAD || feeds(window) > MAX_FIELDS + 2
}

/// What a window is read as in which no head is whole, and which the grammar doesn't refuse.
fn unfinished(window: &[u8]) -> Reading
    ensures { result ≡ (if full window.now then Reading.Bad 431 else Reading.More) }
{
    if is_full(window) {
        Reading::Bad(431)
    } else {
        Reading::More
    }
}

/// What the whole head whose parts lie at these places is read as.
fn whole(
    alloc: Global,
    window: &[u8],
    head: &RequestSpans,
    spans: &[HeaderSpan],
) -> Result<Reading, NoMemory>
    requires { IsRequestWithin window.now spans.now head.now }
    ensures { IfOk result (λ reading. reading ≡ parts_say head.now.version
        (span_bytes window.now head.now.method) (span_bytes window.now head.now.path)
        (map (header_bytes window.now) (take head.now.headers spans.now)) head.now.len) }
{
    let Some(fields) = fields(alloc, window, &spans[..head.headers])? else {
        return Ok(Reading::Bad(400));
    };
    match ask(
        head.version,
        head.method.of(window),
        head.path.of(window),
        &fields,
    ) {
        Ok(ask) => Ok(Reading::Complete(ask, head.len)),
        Err(code) => Ok(Reading::Bad(code)),
    }
}

fn read_window(alloc: Global, window: &[u8]) -> Result<Reading, NoMemory>
    ensures { IfOk result (Reads window.now) }
{
    let mut spans = [EMPTY_HEADER_SPAN; MAX_FIELDS];
    match parse_request(window, &mut spans) {
        Ok(Status::Complete(head)) => whole(alloc, window, &head, &spans),
        Ok(Status::Partial) => Ok(unfinished(window)),
        Err(Error::TooManyHeaders) => Ok(unfinished(window)),
        Err(_) => Ok(Reading::Bad(400)),
    }
}

/// What the first bytes of a connection are read as. At most 8,192 of them are looked at.
///
/// `Complete` comes once a whole head of at most 64 fields is there that no rule refuses, `Bad` where a
/// rule or the grammar refuses the bytes, or the head is too large, and `More` else.
///
/// It reads all the bytes anew at each call, in time that grows with their number, and keeps no memory.
/// Want of memory may come where a head is whole, for the copies of its fields.
pub fn read_ask(alloc: Global, bytes: &[u8]) -> Result<Reading, NoMemory>
    ensures reads { IfOk result (Reads (window_of bytes.now)) }
    ensures whole { IfOk result (ReadsItsHead (window_of bytes.now)) }
    ensures many { IfOk result (RefusesManyFields (window_of bytes.now)) }
    ensures bounds { IfOk result (IsInBounds (length bytes.now)) }

    // A request is read in the same way however it is cut.
    ensures cut { IfOk result (ReadsHoweverCut bytes.now) }
{
    read_window(alloc, window(bytes))
}

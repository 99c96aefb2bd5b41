// What a line of a site text says.
ghost use Rattle.std.specs.Prelude.{◌≡◌, Some, None, IfOk, IsUtf8, if◌then◌else◌};
ghost use Rattle.std.specs.Str.{is_utf8};
ghost use Rattle.dup_template.specs.Texts.{is_plain};
ghost use Rattle.dup_site.specs.Spelling as spelling;
ghost use Rattle.dup_names.specs.LineWords as words;

use crate::forms::by_word;
use crate::site_line::SiteLine;
use dup_names::{NoMemory, trimmed, words_of};
use dup_template::Plain;
use std::alloc::Global;
use std::str;

#[tactic(auto, using(crate::proofs::Utf8::utf8_true, crate::proofs::Utf8::utf8_false))]
fn is_text(bytes: &[u8]) -> bool
    ensures { result ≡ is_utf8 bytes.now }
{
    str::from_utf8(bytes).is_ok()
}

#[tactic(auto, using(crate::proofs::Utf8::false_since))]
fn plain(alloc: Global, text: &[u8]) -> Result<Option<Plain>, NoMemory>
    requires { IsUtf8 text.now }
    ensures { IfOk result (λ read. read ≡ (if is_plain text.now then Some text.now else None)) }
{
    Plain::read(alloc, text)
}

fn say_line(alloc: Global, rest: &[u8]) -> Result<Option<SiteLine>, NoMemory>
    requires { IsUtf8 rest.now }
    ensures { IfOk result (λ read. read ≡ spelling.say_line rest.now) }
{
    match rest {
        [first, text @ ..] => {
            if *first != b' ' {
                return Ok(None);
            }
            match plain(alloc, text)? {
                None => Ok(None),
                Some(text) => Ok(Some(SiteLine::Say(text))),
            }
        }
        [] => Ok(None),
    }
}

fn words_line(alloc: Global, bytes: &[u8]) -> Result<Option<SiteLine>, NoMemory>
    ensures { IfOk result (λ read. read ≡ spelling.by_words (words.line_words bytes.now)) }
{
    let words = words_of(alloc, bytes)?;
    match words.as_slice() {
        [first, rest @ ..] => by_word(alloc, first, rest),
        [] => Ok(Some(SiteLine::Blank)),
    }
}

fn by_start(alloc: Global, bytes: &[u8]) -> Result<Option<SiteLine>, NoMemory>
    requires { IsUtf8 bytes.now }
    ensures { IfOk result (λ read. read ≡ spelling.by_start bytes.now) }
{
    match bytes {
        [first, rest @ ..] => {
            if *first == b'#' {
                Ok(Some(SiteLine::Blank))
            } else if *first == b'=' {
                say_line(alloc, rest)
            } else {
                words_line(alloc, bytes)
            }
        }
        [] => Ok(Some(SiteLine::Blank)),
    }
}

/// What one line says, where it has a form.
pub(crate) fn read_line(alloc: Global, line: &[u8]) -> Result<Option<SiteLine>, NoMemory>
    ensures { IfOk result (λ read. read ≡ spelling.line_of line.now) }
{
    if is_text(line) {
        by_start(alloc, trimmed(line))
    } else {
        Ok(None)
    }
}

// The words of a line.
ghost use Rattle.std.specs.Prelude.{◌≡◌, ◌≤◌, false, IfOk, map, length};
ghost use Rattle.std.specs.List.{list_all};
ghost use Rattle.dup_names.specs.LineWords as words;
ghost use Rattle.dup_names.specs.Words.{same};

use std::alloc::{AllocError, Global};

/// Whether a word is this one.
pub fn is_word(word: &[u8], wanted: &[u8]) -> bool
    ensures { result ≡ same word.now wanted.now }
{
    word == wanted
}

fn is_space(byte: u8) -> bool
    ensures { result ≡ words.is_space byte }
{
    byte == b' '
}

/// Whether there is nothing but spaces.
pub fn are_spaces(bytes: &[u8]) -> bool
    ensures { result ≡ list_all words.is_space bytes.now }
{
    bytes.iter().all(|byte| is_space(*byte))
}

/// The bytes without the spaces at the start.
pub fn trimmed(bytes: &[u8]) -> &[u8]
    ensures value { result.now ≡ words.trimmed bytes.now }
    ensures start { words.starts_spaced result.now ≡ false }
    ensures within { length result.now ≤ length bytes.now }
{
    let mut rest = bytes;
    while let [b' ', more @ ..] = rest {
        rest = more;
    }
    rest
}

/// How many bytes stand before the first space.
fn span(bytes: &[u8]) -> usize
    ensures value { result ≡ words.span bytes.now }
    ensures within { result ≤ length bytes.now }
{
    let mut at = 0;
    while at < bytes.len() && bytes[at] != b' ' {
        at += 1;
    }
    at
}

/// The words of a line: what stands between its spaces.
pub fn words_of<'a>(alloc: Global, line: &'a [u8]) -> Result<Vec<&'a [u8]>, AllocError>
    ensures { IfOk result (λ found. map (λ w. w.now) found.items ≡ words.line_words line.now) }
{
    let mut found = Vec::new(alloc);
    let mut rest = trimmed(line);
    while !rest.is_empty() {
        let (word, more) = rest.split_at(span(rest));
        found.push(word)?;
        rest = trimmed(more);
    }
    Ok(found)
}

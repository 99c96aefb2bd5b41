// Paths of pages.
ghost use Rattle.std.specs.Prelude.{◌≡◌, ◌↔◌, IsTrue, IsSome, IfSome};
ghost use Rattle.dup_names.specs.Grammar.{is_path_byte as path_byte_grammar};
ghost use Rattle.dup_names.specs.Grammar.{are_segments as segments_grammar};
ghost use Rattle.dup_names.specs.Grammar.{is_path as path_grammar};

use crate::key::is_key_byte;
use crate::limits::MAX_PATH_BYTES;
use crate::short::Short;
use std::fmt::{self, Display, Formatter, Write};
use std::marker::Model;

fn is_path_byte(byte: u8) -> bool
    ensures { result ≡ path_byte_grammar byte }
{
    is_key_byte(byte) || byte == b'.'
}

fn are_segments(after_slash: bool, bytes: &[u8]) -> bool
    ensures { result ≡ segments_grammar after_slash bytes.now }
{
    match bytes {
        [] => !after_slash,
        [b'/', rest @ ..] => !after_slash && are_segments(true, rest),
        [byte, rest @ ..] => is_path_byte(*byte) && are_segments(false, rest),
    }
}

fn is_path(bytes: &[u8]) -> bool
    ensures { result ≡ path_grammar bytes.now }
{
    match bytes {
        [b'/'] => true,
        [b'/', rest @ ..] => bytes.len() <= MAX_PATH_BYTES && are_segments(true, rest),
        _ => false,
    }
}

/// At most 200 bytes: `/` alone, or segments, each `/` and 1 or more bytes of a-z, 0-9, _, - and `.`.
/// Paths have the order of their bytes.
#[derive(Clone, Copy, Debug, PartialEq, Eq, PartialOrd, Ord, Hash)]
pub struct Path {
    text: Short<MAX_PATH_BYTES>,
}

impl Model for Path {
    ghost use Rattle.std.specs.Prelude.{List, ℕ, IsTrue};
    ghost use Rattle.dup_names.specs.Grammar.{is_path};

    ghost Value = { List ℕ };

    ghost view = { λ n. n.text };

    ghost invariant = { λ n. IsTrue (is_path n.text) };

    ghost inverse = { λ xs. record { text = xs } };
}

impl Display for Path {
    fn fmt<W: Write>(&self, f: &mut Formatter<W>) -> fmt::Result {
        write!(f, "{}", self.text)
    }
}

impl Path {
    /// The path of these bytes, or `None` where they are none.
    pub fn read(bytes: &[u8]) -> Option<Path>
        ensures some { IsSome result ↔ IsTrue (path_grammar bytes.now) }
        ensures value { IfSome result (λ path. path ≡ bytes.now) }
    {
        if !is_path(bytes) {
            return None;
        }
        Some(Path {
            text: Short::of(bytes),
        })
    }

    /// Its bytes.
    pub fn bytes(&self) -> &[u8]
        ensures value { result.now ≡ self.now }
        ensures valid { IsTrue (path_grammar self.now) }
    {
        self.text.as_slice()
    }
}

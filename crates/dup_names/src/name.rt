// Names of kinds, fields and templates.
ghost use Rattle.std.specs.Prelude.{◌≡◌, ◌↔◌, ◌≤◌, IsTrue, IsSome, IfSome, length};
ghost use Rattle.std.specs.List.{list_all};
ghost use Rattle.dup_names.specs.Grammar.{is_name as name_grammar, is_name_byte as name_byte_grammar};
ghost use Rattle.dup_names.specs.Words.{place};

use crate::limits::MAX_NAME_BYTES;
use crate::short::Short;
use std::fmt::{self, Display, Formatter, Write};
use std::marker::Model;

pub(crate) fn is_name_byte(byte: u8) -> bool
    ensures { result ≡ name_byte_grammar byte }
{
    matches!(byte, b'a'..=b'z' | b'0'..=b'9' | b'_')
}

fn are_name_bytes(bytes: &[u8]) -> bool
    ensures { result ≡ list_all name_byte_grammar bytes.now }
{
    bytes.iter().all(|byte| is_name_byte(*byte))
}

fn is_name(bytes: &[u8]) -> bool
    ensures { result ≡ name_grammar bytes.now }
{
    matches!(bytes, [b'a'..=b'z', ..]) && are_name_bytes(bytes) && bytes.len() <= MAX_NAME_BYTES
}

/// 1 to 32 bytes, the first of a-z, the others of a-z, 0-9 and _. Names have the order of their bytes.
#[derive(Clone, Copy, Debug, PartialEq, Eq, PartialOrd, Ord)]
pub struct Name {
    text: Short<MAX_NAME_BYTES>,
}

impl Model for Name {
    ghost use Rattle.std.specs.Prelude.{List, ℕ, IsTrue};
    ghost use Rattle.dup_names.specs.Grammar.{is_name};

    ghost Value = { List ℕ };

    ghost view = { λ n. n.text };

    ghost invariant = { λ n. IsTrue (is_name n.text) };

    ghost inverse = { λ xs. record { text = xs } };
}

impl Display for Name {
    fn fmt<W: Write>(&self, f: &mut Formatter<W>) -> fmt::Result {
        write!(f, "{}", self.text)
    }
}

impl Name {
    /// The name of these bytes, or `None` where they are none.
    pub fn read(bytes: &[u8]) -> Option<Name>
        ensures some { IsSome result ↔ IsTrue (name_grammar bytes.now) }
        ensures value { IfSome result (λ name. name ≡ bytes.now) }
    {
        if !is_name(bytes) {
            return None;
        }
        Some(Name {
            text: Short::of(bytes),
        })
    }

    /// Its bytes.
    pub fn bytes(&self) -> &[u8]
        ensures value { result.now ≡ self.now }
        ensures valid { IsTrue (name_grammar self.now) }
    {
        self.text.as_slice()
    }
}

/// The place of a name among names, from 0, or their number where it is absent.
pub fn place_of(names: &[Name], name: &Name) -> usize
    ensures value { result ≡ place name.now names.now }
    ensures within { result ≤ length names.now }
{
    for (index, other) in names.iter().enumerate() {
        if other == name {
            return index;
        }
    }
    names.len()
}

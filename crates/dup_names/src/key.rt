// Keys of rows.
ghost use Rattle.std.specs.Prelude.{◌≡◌, ◌↔◌, IsTrue, IsSome, IfSome};
ghost use Rattle.std.specs.List.{list_all};
ghost use Rattle.dup_names.specs.Grammar.{is_key_byte as key_byte_grammar, is_key as key_grammar};

use crate::limits::MAX_KEY_BYTES;
use crate::name::is_name_byte;
use crate::short::Short;
use dup_lists::Listed;
use std::fmt::{self, Display, Formatter, Write};
use std::marker::Model;

pub(crate) fn is_key_byte(byte: u8) -> bool
    ensures { result ≡ key_byte_grammar byte }
{
    is_name_byte(byte) || byte == b'-'
}

fn are_key_bytes(bytes: &[u8]) -> bool
    ensures { result ≡ list_all key_byte_grammar bytes.now }
{
    bytes.iter().all(|byte| is_key_byte(*byte))
}

fn is_key(bytes: &[u8]) -> bool
    ensures { result ≡ key_grammar bytes.now }
{
    1 <= bytes.len() && are_key_bytes(bytes) && bytes.len() <= MAX_KEY_BYTES
}

/// 1 to 48 bytes of a-z, 0-9, _ and -. Keys have the order of their bytes.
#[derive(Clone, Copy, Debug, PartialEq, Eq, PartialOrd, Ord, Hash)]
pub struct Key {
    text: Short<MAX_KEY_BYTES>,
}

impl Model for Key {
    ghost use Rattle.std.specs.Prelude.{List, ℕ, IsTrue};
    ghost use Rattle.dup_names.specs.Grammar.{is_key};

    ghost Value = { List ℕ };

    ghost view = { λ n. n.text };

    ghost invariant = { λ n. IsTrue (is_key n.text) };

    ghost inverse = { λ xs. record { text = xs } };
}

impl Display for Key {
    fn fmt<W: Write>(&self, f: &mut Formatter<W>) -> fmt::Result {
        write!(f, "{}", self.text)
    }
}

impl Key {
    /// The key of these bytes, or `None` where they are none.
    pub fn read(bytes: &[u8]) -> Option<Key>
        ensures some { IsSome result ↔ IsTrue (key_grammar bytes.now) }
        ensures value { IfSome result (λ key. key ≡ bytes.now) }
    {
        if !is_key(bytes) {
            return None;
        }
        Some(Key {
            text: Short::of(bytes),
        })
    }

    /// Its bytes.
    pub fn bytes(&self) -> &[u8]
        ensures value { result.now ≡ self.now }
        ensures valid { IsTrue (key_grammar self.now) }
    {
        self.text.as_slice()
    }
}

/// A list of keys.
pub type KeyList = Listed<Key>;

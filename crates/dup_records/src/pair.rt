// The pairs of an index.
ghost use Rattle.std.specs.Prelude.{◌≡◌};
ghost use Rattle.std.specs.Ordering.{is_lt};
ghost use Rattle.dup_names.specs.Order.{text_cmp};
ghost use Rattle.dup_records.specs.Pairs.{pair_cmp};

use dup_chunks::{Probe, Share};
use dup_names::{Key, NoMemory, Text};
use std::cmp::Ordering;
use std::marker::Model;

/// A text, which is shared, and the key of a row that has it.
#[derive(Drop)]
pub(crate) struct Pair {
    text: Text,
    key: Key,
}

impl Model for Pair {
    ghost use Rattle.std.specs.Prelude.{List, ℕ};

    ghost Value = { List ℕ × List ℕ };

    ghost view = { λ p. (p.text, p.key) };
}

impl Pair {
    /// A row's text with its key.
    pub(crate) fn of(text: Text, key: Key) -> Pair
        ensures { result ≡ (text, key) }
    {
        Pair { text, key }
    }

    /// The bytes of its text.
    pub(crate) fn text(&self) -> &[u8]
        ensures { result.now ≡ self.now.0 }
    {
        self.text.bytes()
    }

    /// Its key.
    pub(crate) fn key(&self) -> &Key
        ensures { result.now ≡ self.now.1 }
    {
        &self.key
    }
}

impl Share for Pair {
    fn share(&self) -> Result<Pair, NoMemory> {
        let text = self.text.share()?;
        Ok(Pair {
            text,
            key: self.key,
        })
    }
}

/// The place of a pair.
#[derive(Drop)]
pub(crate) struct PairBefore<'a> {
    pub(crate) text: &'a [u8],
    pub(crate) key: &'a Key,
}

impl<'a> Probe<Pair> for PairBefore<'a> {
    ghost is_below = { λ p q. is_lt (pair_cmp q (p.text.now, p.key.now)) };

    fn is_below(&self, item: &Pair) -> bool {
        match item.text().cmp(self.text) {
            Ordering::Less => true,
            Ordering::Equal => item.key() < self.key,
            Ordering::Greater => false,
        }
    }
}

/// The place of the first pair of a text.
#[derive(Drop)]
pub(crate) struct TextBefore<'a> {
    pub(crate) text: &'a [u8],
}

impl<'a> Probe<Pair> for TextBefore<'a> {
    ghost is_below = { λ p q. is_lt (text_cmp q.0 p.text.now) };

    fn is_below(&self, item: &Pair) -> bool {
        match item.text().cmp(self.text) {
            Ordering::Less => true,
            _ => false,
        }
    }
}

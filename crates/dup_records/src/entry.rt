// Rows.
ghost use Rattle.std.specs.Prelude.{◌≡◌, IfOk};
ghost use Rattle.std.specs.Ordering.{is_lt};
ghost use Rattle.dup_names.specs.Order.{text_cmp};

use dup_chunks::{Probe, Share};
use dup_lists::Listed;
use dup_names::{Key, NoMemory, Text};
use std::alloc::Global;
use std::marker::Model;
use std::sync::Arc;

/// A row: its key, and the text of each field, which the contents that have the row share.
#[derive(Drop)]
pub(crate) struct Entry {
    key: Key,
    texts: Arc<Listed<Text>, Global>,
}

impl Model for Entry {
    ghost use Rattle.std.specs.Prelude.{List, ℕ};

    ghost Value = { List ℕ × List (List ℕ) };

    ghost view = { λ e. (e.key, e.texts.value) };
}

impl Entry {
    /// The row of these texts under a key.
    pub(crate) fn of(alloc: Global, key: Key, texts: Vec<Text>) -> Result<Entry, NoMemory>
        ensures { IfOk result (λ made. made ≡ (key, texts.items)) }
    {
        let texts = Arc::new(alloc, Listed::of(texts))?;
        Ok(Entry { key, texts })
    }

    /// Its key.
    pub(crate) fn key(&self) -> &Key
        ensures { result.now ≡ self.now.0 }
    {
        &self.key
    }

    /// Its texts.
    pub(crate) fn texts(&self) -> &[Text]
        ensures { result.now ≡ self.now.1 }
    {
        self.texts.items()
    }
}

impl Share for Entry {
    fn share(&self) -> Result<Entry, NoMemory> {
        let texts = Arc::try_clone(&self.texts)?;
        Ok(Entry {
            key: self.key,
            texts,
        })
    }
}

/// The place of a key among rows.
#[derive(Drop)]
pub(crate) struct RowBefore<'a> {
    pub(crate) key: &'a Key,
}

impl<'a> Probe<Entry> for RowBefore<'a> {
    ghost is_below = { λ p e. is_lt (text_cmp e.0 p.key.now) };

    fn is_below(&self, item: &Entry) -> bool {
        item.key() < self.key
    }
}

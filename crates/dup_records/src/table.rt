// The rows of a kind.
ghost use Rattle.std.specs.Prelude.{◌≡◌, ◌+◌, ◌≤◌, ◌<◌, ◌^◌, [], ℕ, Some, map, not, nat_lt, length, is_some, IfOk};
ghost use Rattle.std.specs.List.{find, filter};
ghost use Rattle.std.specs.Option.{option_copied, option_map, unwrap_or};
ghost use Rattle.std.specs.Cmp.Lexicographic.{pointwise};
ghost use Rattle.dup_names.specs.Words.{same};
ghost use Rattle.dup_model.specs.Content.{texts_at};
ghost use Rattle.dup_model.specs.Commits.{put_row};
ghost use Rattle.dup_model.specs.Tables.{IsRising};

use crate::entry::{Entry, RowBefore};
use crate::index::{Index, all_moved, has_keys_in, item_at, keys_in};
use dup_chunks::{Chunked, Walk};
use dup_names::{Key, NoMemory, Text};
use dup_steps::Steps;
use std::alloc::Global;
use std::marker::{Brand, Model};
use std::sync::ledger::{Blank, Ledger};

/// The rows of a kind in the order of their keys, in chunks that are shared with the tables that this one
/// was made from.
#[derive(Drop)]
pub(crate) struct Table {
    rows: Chunked<Entry>,
    // For each field the texts of the rows with their keys, in order.
    indexes: Vec<Index>,
}

impl Model for Table {
    ghost use Rattle.std.specs.Prelude.{List, ℕ};
    ghost use Rattle.dup_model.specs.Tables.{IsRising};
    ghost use Rattle.dup_records.specs.Pairs.{AreIndexes};

    ghost Value = { List (List ℕ × List (List ℕ)) };

    ghost view = { λ t. t.rows };

    ghost invariant = { λ t. IsRising t.rows × AreIndexes t.rows t.indexes.items };
}

// The row with a key.
fn found<'a, L: Ledger>(
    rows: &'a Chunked<Entry>,
    key: &Key,
    steps: &mut Steps<L>,
) -> Option<&'a Entry>
    requires { IsRising rows.now }
    ensures { option_copied result ≡ find (λ e. same e.0 key.now) rows.now }
{
    match rows.first_from(&RowBefore { key }, steps) {
        None => None,
        Some(row) => { if row.key() == key { Some(row) } else { None } }
    }
}

fn found_by<'a, L: Ledger>(blank: Blank, rows: &'a Chunked<Entry>, key: &Key) -> Option<&'a Entry>
    requires name { blank.name ≡ L.name }
    requires parts { blank.parts ≡ L.parts }
    requires some { 0 < blank.parts }
    requires rising { IsRising rows.now }
    ensures { option_copied result ≡ find (λ e. same e.0 key.now) rows.now }
{
    let mut steps = Steps::<L>::new(blank);
    found(rows, key, &mut steps)
}

// The same, whose steps no one counts.
fn found_in<'a>(rows: &'a Chunked<Entry>, key: &Key) -> Option<&'a Entry>
    requires { IsRising rows.now }
    ensures { option_copied result ≡ find (λ e. same e.0 key.now) rows.now }
{
    found_by::<Brand>(Blank::new(1), rows, key)
}

// Whether a row with a key is there.
fn is_there(rows: &Chunked<Entry>, key: &Key) -> bool
    requires { IsRising rows.now }
    ensures { result ≡ is_some (find (λ e. same e.0 key.now) rows.now) }
{
    found_in(rows, key).is_some()
}

// The texts of the row with a key, none where it isn't there.
fn texts_in<'a>(rows: &'a Chunked<Entry>, key: &Key) -> &'a [Text]
    requires { IsRising rows.now }
    ensures { result.now
        ≡ unwrap_or (option_map (λ e. e.1) (find (λ e. same e.0 key.now) rows.now)) [] }
{
    match found_in(rows, key) {
        None => &[],
        Some(row) => row.texts(),
    }
}

fn rows_with(alloc: Global, rows: &Chunked<Entry>, row: Entry) -> Result<Chunked<Entry>, NoMemory>
    requires { IsRising rows.now }
    ensures { IfOk result (λ made. made ≡ put_row row rows.now) }
{
    let key = *row.key();
    let before = RowBefore { key: &key };
    if is_there(rows, &key) {
        rows.replaced(alloc, &before, row)
    } else {
        rows.inserted(alloc, &before, row)
    }
}

fn rows_without(alloc: Global, rows: &Chunked<Entry>, key: &Key) -> Result<Chunked<Entry>, NoMemory>
    requires { IsRising rows.now }
    ensures { IfOk result (λ made. made ≡ filter (λ e. not (same e.0 key.now)) rows.now) }
{
    if is_there(rows, key) {
        rows.removed(alloc, &RowBefore { key })
    } else {
        rows.copy(alloc)
    }
}

impl Table {
    /// No rows. It takes no memory.
    pub(crate) fn new(alloc: Global) -> Table
        ensures { result ≡ [] }
    {
        Table {
            rows: Chunked::new(alloc),
            indexes: Vec::new(alloc),
        }
    }

    /// Its rows, in order.
    pub(crate) fn walk(&self) -> Walk<'_, Entry>
        ensures { result ≡ self.now }
    {
        self.rows.walk()
    }

    /// Whether it has so many rows.
    pub(crate) fn has_at_least(&self, count: usize) -> bool
        ensures { result ≡ not (nat_lt (length self.now) count) }
    {
        self.rows.has_at_least(count)
    }

    /// The row with this key.
    pub(crate) fn find<L: Ledger>(&self, key: &Key, steps: &mut Steps<L>) -> Option<&Entry>
        ensures { option_copied result ≡ find (λ e. same e.0 key.now) self.now }
    {
        found(&self.rows, key, steps)
    }

    /// The same, whose steps no one counts.
    pub(crate) fn row(&self, key: &Key) -> Option<&Entry>
        ensures { option_copied result ≡ find (λ e. same e.0 key.now) self.now }
    {
        found_in(&self.rows, key)
    }

    /// The same rows with this one put under its key. It copies the chunk of its place, and for each field
    /// whose text differs the chunks of two pairs.
    pub(crate) fn with_row(&self, alloc: Global, row: Entry) -> Result<Table, NoMemory>
        ensures { IfOk result (λ made. made ≡ put_row row self.now) }
    {
        let key = row.key();
        let old = texts_in(&self.rows, key);
        let indexes = all_moved(alloc, &self.indexes, key, old, row.texts())?;
        let rows = rows_with(alloc, &self.rows, row)?;
        Ok(Table { rows, indexes })
    }

    /// The same rows without the one with this key. It copies the chunk of its place, and for each field that
    /// of a pair.
    pub(crate) fn without(&self, alloc: Global, key: &Key) -> Result<Table, NoMemory>
        ensures { IfOk result (λ made. made ≡ filter (λ e. not (same e.0 key.now)) self.now) }
    {
        let old = texts_in(&self.rows, key);
        let indexes = all_moved(alloc, &self.indexes, key, old, &[])?;
        let rows = rows_without(alloc, &self.rows, key)?;
        Ok(Table { rows, indexes })
    }

    /// The keys of the rows whose field has the bytes of a key, in order.
    pub(crate) fn group<L: Ledger>(
        &self,
        alloc: Global,
        field: usize,
        key: &Key,
        steps: &mut Steps<L>,
    ) -> Result<Vec<Key>, NoMemory>
        ensures value { IfOk result (λ made. made.items
            ≡ map (λ e. e.0) (filter (λ e. same (texts_at (Some e.1) field) key.now) self.now)) }
        ensures cost { IfOk result (λ made. (d : ℕ) → length self.now < 2 ^ d →
            steps.new ≤ steps.old + length made.items + d + 8) }
    {
        let _bytes = key.bytes();
        match item_at(&self.indexes, field) {
            None => Ok(Vec::new(alloc)),
            Some(index) => keys_in(alloc, index, key, steps),
        }
    }

    /// Whether these are the keys of the rows whose field has the bytes of a key, in order.
    pub(crate) fn has_group<L: Ledger>(
        &self,
        field: usize,
        key: &Key,
        keys: &[Key],
        steps: &mut Steps<L>,
    ) -> bool
        ensures { result ≡ pointwise same
            (map (λ e. e.0) (filter (λ e. same (texts_at (Some e.1) field) key.now) self.now)) keys.now }
    {
        let _bytes = key.bytes();
        match item_at(&self.indexes, field) {
            None => keys.is_empty(),
            Some(index) => has_keys_in(index, key, keys, steps),
        }
    }
}

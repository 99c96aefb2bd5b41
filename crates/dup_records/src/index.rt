// The index of a field.
ghost use Rattle.std.specs.Prelude.{◌≡◌, ◌+◌, ◌≤◌, ◌<◌, ◌^◌, [], ℕ, false, true, not, map, length, IfOk};
ghost use Rattle.std.specs.List.{filter, slice_get};
ghost use Rattle.std.specs.Option.{option_copied, unwrap_or};
ghost use Rattle.std.specs.Cmp.Lexicographic.{pointwise};
ghost use Rattle.dup_names.specs.Words.{same};
ghost use Rattle.dup_chunks.specs.Cut.{Rises, front};
ghost use Rattle.dup_records.specs.Pairs.{HasText, IsMoved, has_pair, is_text, pair_cmp, pairs_at, same_pair};

use crate::pair::{Pair, PairBefore, TextBefore};
use dup_chunks::{Chunked, Walk};
use dup_names::{Key, NoMemory, Text};
use dup_steps::Steps;
use std::alloc::Global;
use std::sync::ledger::Ledger;

/// The pairs of a field, in order.
pub(crate) type Index = Chunked<Pair>;

fn without_pair(alloc: Global, index: &Index, text: &Text, key: &Key) -> Result<Index, NoMemory>
    requires rises { Rises (λ q. q) pair_cmp index.now }
    requires there { has_pair index.now (text.now, key.now) ≡ true }
    ensures { IfOk result (λ made.
        made ≡ filter (λ q. not (same_pair q (text.now, key.now))) index.now) }
{
    let text = text.bytes();
    index.removed(alloc, &PairBefore { text, key })
}

// The pairs with the text of a row that has none.
fn with_text(
    alloc: Global,
    index: &Index,
    key: &Key,
    text: Option<&Text>,
) -> Result<Index, NoMemory>
    requires rises { Rises (λ q. q) pair_cmp index.now }
    requires free { (t : _) → has_pair index.now (t, key.now) ≡ false }
    ensures { IfOk result (λ made. IsMoved index.now made key.now (option_copied text.entry)) }
{
    match text {
        None => index.copy(alloc),
        Some(text) => {
            let pair = Pair::of(text.share()?, *key);
            let text = text.bytes();
            index.inserted(alloc, &PairBefore { text, key }, pair)
        }
    }
}

fn is_same(old: &Text, new: Option<&Text>) -> bool
    ensures { result ≡ is_text (option_copied new.entry) old.now }
{
    match new {
        None => false,
        Some(new) => new.bytes() == old.bytes(),
    }
}

// The pairs with a row's new text in place of its old one.
fn moved(
    alloc: Global,
    index: &Index,
    key: &Key,
    old: Option<&Text>,
    new: Option<&Text>,
) -> Result<Index, NoMemory>
    requires { HasText index.now key.now (option_copied old) }
    ensures { IfOk result (λ made. IsMoved index.now made key.now (option_copied new.entry)) }
{
    let Some(old) = old else {
        return with_text(alloc, index, key, new);
    };
    if is_same(old, new) {
        return index.copy(alloc);
    }
    let less = without_pair(alloc, index, old, key)?;
    with_text(alloc, &less, key, new)
}

// The same for a field that may be new.
fn moved_at(
    alloc: Global,
    index: Option<&Index>,
    key: &Key,
    old: Option<&Text>,
    new: Option<&Text>,
) -> Result<Index, NoMemory>
    requires { HasText (unwrap_or (option_copied index) []) key.now (option_copied old) }
    ensures { IfOk result (λ made.
        IsMoved (unwrap_or (option_copied index.entry) []) made key.now (option_copied new.entry)) }
{
    match index {
        None => moved(alloc, &Chunked::new(alloc), key, old, new),
        Some(index) => moved(alloc, index, key, old, new),
    }
}

/// The item with this number, if it is there.
pub(crate) fn item_at<T>(items: &[T], number: usize) -> Option<&T>
    ensures { option_copied result ≡ slice_get items.now number }
{
    items.get(number)
}

/// The indexes with a row's new texts in place of its old ones. A field whose text stays costs one more
/// owner of its chunks.
pub(crate) fn all_moved(
    alloc: Global,
    indexes: &[Index],
    key: &Key,
    old: &[Text],
    new: &[Text],
) -> Result<Vec<Index>, NoMemory>
    requires { (field : ℕ) → HasText (pairs_at indexes.now field) key.now (slice_get old.now field) }
    ensures { IfOk result (λ made. (field : ℕ) →
        IsMoved (pairs_at indexes.now field) (pairs_at made.items field) key.now (slice_get new.now field)) }
{
    let count = indexes.len().max(new.len());
    let mut made = Vec::with_capacity(alloc, count)?;
    for field in 0..count {
        let index = item_at(indexes, field);
        let moved = moved_at(alloc, index, key, item_at(old, field), item_at(new, field))?;
        made.push(moved)?;
    }
    Ok(made)
}

// The keys of the first pairs that have a text.
fn first_keys<L: Ledger>(
    alloc: Global,
    mut pairs: Walk<'_, Pair>,
    text: &[u8],
    steps: &mut Steps<L>,
) -> Result<Vec<Key>, NoMemory>
    ensures value { IfOk result (λ made.
        made.items ≡ map (λ q. q.1) (front (λ q. same q.0 text.now) pairs.entry)) }
    ensures cost { IfOk result (λ made. steps.new ≤ steps.old + length made.items + 1) }
{
    let mut made = Vec::new(alloc);
    while let Some(pair) = pairs.next(steps) {
        if pair.text() != text {
            return Ok(made);
        }
        made.push(*pair.key())?;
    }
    Ok(made)
}

// Whether these are the keys of the first pairs that have a text.
fn have_first_keys<L: Ledger>(
    mut pairs: Walk<'_, Pair>,
    text: &[u8],
    keys: &[Key],
    steps: &mut Steps<L>,
) -> bool
    ensures { result
        ≡ pointwise same (map (λ q. q.1) (front (λ q. same q.0 text.now) pairs.entry)) keys.now }
{
    let mut rest = keys;
    while let Some(pair) = pairs.next(steps) {
        if pair.text() != text {
            return rest.is_empty();
        }
        let Some((first, others)) = rest.split_first() else {
            return false;
        };
        if pair.key() != first {
            return false;
        }
        rest = others;
    }
    rest.is_empty()
}

/// The keys of the pairs whose text is that of a key, in order. It looks at a pair of each, at one more,
/// and at those that a binary search looks at.
pub(crate) fn keys_in<L: Ledger>(
    alloc: Global,
    index: &Index,
    key: &Key,
    steps: &mut Steps<L>,
) -> Result<Vec<Key>, NoMemory>
    requires { Rises (λ q. q) pair_cmp index.now }
    ensures value { IfOk result (λ made.
        made.items ≡ map (λ q. q.1) (filter (λ q. same q.0 key.now) index.now)) }
    ensures cost { IfOk result (λ made. (d : ℕ) → length index.now < 2 ^ d →
        steps.new ≤ steps.old + length made.items + d + 8) }
{
    let text = key.bytes();
    let pairs = index.walk_from(&TextBefore { text }, steps);
    let made = first_keys(alloc, pairs, text, steps)?;
    Ok(made)
}

/// Whether these are the keys of the pairs whose text is that of a key, in order.
pub(crate) fn has_keys_in<L: Ledger>(
    index: &Index,
    key: &Key,
    keys: &[Key],
    steps: &mut Steps<L>,
) -> bool
    requires { Rises (λ q. q) pair_cmp index.now }
    ensures { result
        ≡ pointwise same (map (λ q. q.1) (filter (λ q. same q.0 key.now) index.now)) keys.now }
{
    let text = key.bytes();
    let pairs = index.walk_from(&TextBefore { text }, steps);
    have_first_keys(pairs, text, keys, steps)
}

// The keys of rows.
ghost use Rattle.std.specs.Prelude.{◌≡◌, IfOk, map};
ghost use Rattle.std.specs.Cmp.Lexicographic.{pointwise};
ghost use Rattle.dup_names.specs.Words.{same};

use crate::entry::Entry;
use dup_chunks::Walk;
use dup_names::{Key, NoMemory};
use dup_steps::Steps;
use std::alloc::Global;
use std::sync::ledger::Ledger;

/// The keys of these rows.
pub(crate) fn keys_of<L: Ledger>(
    alloc: Global,
    mut rows: Walk<'_, Entry>,
    steps: &mut Steps<L>,
) -> Result<Vec<Key>, NoMemory>
    ensures { IfOk result (λ made. made.items ≡ map (λ e. e.0) rows.entry) }
{
    let mut made = Vec::new(alloc);
    while let Some(row) = rows.next(steps) {
        made.push(*row.key())?;
    }
    Ok(made)
}

/// Whether these are the keys of the rows, in order.
pub(crate) fn have_keys<L: Ledger>(
    mut rows: Walk<'_, Entry>,
    keys: &[Key],
    steps: &mut Steps<L>,
) -> bool
    ensures { result ≡ pointwise same (map (λ e. e.0) rows.entry) keys.now }
{
    let mut rest = keys;
    while let Some(row) = rows.next(steps) {
        let Some((first, others)) = rest.split_first() else {
            return false;
        };
        if row.key() != first {
            return false;
        }
        rest = others;
    }
    rest.is_empty()
}

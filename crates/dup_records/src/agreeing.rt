// Whether what an item is now is what was seen of it.
ghost use Rattle.std.specs.Prelude.{◌≡◌, ◌↔◌, IsTrue, Some, map};
ghost use Rattle.std.specs.List.{filter};
ghost use Rattle.dup_names.specs.Words.{same};
ghost use Rattle.dup_template.specs.declared.value.Value.TheVariants as seen_as;
ghost use Rattle.dup_model.specs.Content.{texts_at};

use crate::entry::Entry;
use crate::keys::have_keys;
use crate::table::Table;
use dup_chunks::Walk;
use dup_names::Key;
use dup_steps::Steps;
use dup_template::{Statement, Value};
use std::sync::ledger::Ledger;

pub(crate) fn is_text(bytes: &[u8], seen: &Value) -> bool
    ensures { IsTrue result ↔ (seen_as.Text bytes.now ≡ seen.now) }
{
    match seen {
        Value::Text(text) => text.bytes() == bytes,
        _ => false,
    }
}

pub(crate) fn is_answer(answer: bool, seen: &Value) -> bool
    ensures { IsTrue result ↔ (seen_as.Exists answer ≡ seen.now) }
{
    match seen {
        Value::Exists(exists) => *exists == answer,
        _ => false,
    }
}

pub(crate) fn is_body(body: &[Statement], seen: &Value) -> bool
    ensures { IsTrue result ↔ (seen_as.Body body.now ≡ seen.now) }
{
    match seen {
        Value::Body(shared) => shared.items() == body,
        _ => false,
    }
}

pub(crate) fn are_keys<L: Ledger>(rows: Walk<'_, Entry>, seen: &Value, steps: &mut Steps<L>) -> bool
    ensures { IsTrue result ↔ (seen_as.Keys (map (λ e. e.0) rows.entry) ≡ seen.now) }
{
    match seen {
        Value::Keys(keys) => have_keys(rows, keys.items(), steps),
        _ => false,
    }
}

pub(crate) fn are_group<L: Ledger>(
    table: &Table,
    field: usize,
    key: &Key,
    seen: &Value,
    steps: &mut Steps<L>,
) -> bool
    ensures { IsTrue result
        ↔ (seen_as.Keys (map (λ e. e.0) (filter (λ e. same (texts_at (Some e.1) field) key.now) table.now))
        ≡ seen.now) }
{
    match seen {
        Value::Keys(keys) => table.has_group(field, key, keys.items(), steps),
        _ => false,
    }
}

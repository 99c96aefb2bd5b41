// The rows of an `each`.
ghost use Rattle.std.specs.Prelude.{◌≡◌, IfOk};
ghost use Rattle.dup_render.specs.Rows as rows;

use dup_names::{Item, Key, KeyList, Name, NoMemory};
use dup_records::Content;
use std::alloc::Global;

/// Rows of a kind: all of them, or those whose field is this key.
#[derive(Clone, Copy)]
pub(crate) enum Rows {
    All { kind: u16 },
    Group { kind: u16, field: u16, key: Key },
}

impl Rows {
    /// Their kind.
    pub(crate) fn kind(&self) -> u16
        ensures { result ≡ rows.kind_of self.now }
    {
        match self {
            Rows::All { kind } => *kind,
            Rows::Group { kind, .. } => *kind,
        }
    }

    /// The item that gives them.
    pub(crate) fn item(&self) -> Item
        ensures { result ≡ rows.item_of self.now }
    {
        match self {
            Rows::All { kind } => Item::List { kind: *kind },
            Rows::Group { kind, field, key } => Item::Group {
                kind: *kind,
                field: *field,
                key: *key,
            },
        }
    }

    /// Their keys, in order, from the content.
    pub(crate) fn keys(&self, alloc: Global, content: &Content) -> Result<KeyList, NoMemory>
        ensures { IfOk result (λ made. made ≡ rows.keys_of content.now self.now) }
    {
        match self {
            Rows::All { kind } => content.keys(alloc, *kind),
            Rows::Group { kind, field, key } => content.group(alloc, *kind, *field, key),
        }
    }
}

/// The rows of an `each`: all of a kind, or those whose field `by` is the current row's key. `None`
/// where there is a `by` and no current row.
pub(crate) fn rows_of(
    content: &Content,
    name: &Name,
    by: &Option<Name>,
    key: &Option<Key>,
) -> Option<Rows>
    ensures { result ≡ rows.rows_of content.now name.now by.now key.now }
{
    let kind = content.kind_number(name);
    match by {
        None => Some(Rows::All { kind }),
        Some(by) => match key {
            None => None,
            Some(key) => Some(Rows::Group {
                kind,
                field: content.field_number(kind, by),
                key: *key,
            }),
        },
    }
}

// Objects, which are shown, and items, which are read.
use crate::key::Key;

/// A template without kind, or a template of a kind with the key of a row. Objects are ordered by
/// template, no key before a key, then by key.
#[derive(Clone, Copy, Debug, PartialEq, Eq, PartialOrd, Ord, Hash)]
pub struct Obj {
    /// The number of the template, counted from 0.
    pub template: u16,
    /// The key, where the template is of a kind.
    pub key: Option<Key>,
}

/// What may be read of a content. Kinds, their fields and templates are counted from 0. Items are
/// ordered by their form, then by their numbers and keys from left to right.
#[derive(Clone, Copy, Debug, PartialEq, Eq, PartialOrd, Ord)]
pub enum Item {
    /// The text of a row's field.
    Field { kind: u16, key: Key, field: u16 },
    /// Whether a row exists.
    Row { kind: u16, key: Key },
    /// The keys of a kind.
    List { kind: u16 },
    /// The keys of a kind's rows whose field equals the key.
    Group { kind: u16, field: u16, key: Key },
    /// The statements of a template.
    Template { template: u16 },
}

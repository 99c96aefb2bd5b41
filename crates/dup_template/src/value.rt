// What is read of a content.
use crate::shared_body::SharedBody;
use dup_names::{KeyList, Text};

/// The value of an item.
#[derive(Debug, Drop, PartialEq, Eq)]
pub enum Value {
    /// Of a field.
    Text(Text),
    /// Of a row.
    Exists(bool),
    /// Of a list or a group.
    Keys(KeyList),
    /// Of a template.
    Body(SharedBody),
}

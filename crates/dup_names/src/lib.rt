//! Names, keys, paths and texts; the objects that are shown and the items that are read; the words
//! of a line, want of memory, and the limits of all.
//!
//! Each is read exactly where the bytes are in its grammar; orders are byte orders.
#![tactic(auto)]

mod count;
mod key;
mod limits;
mod line_words;
mod name;
mod no_memory;
mod object;
mod path;
mod shared;
mod short;
mod value;

pub use count::{Meter, Pass};
pub use key::{Key, KeyList};
pub use limits::{
    MAX_CHANGES, MAX_COMMITS, MAX_FIELDS, MAX_INPUT_BYTES, MAX_JOURNAL_BYTES, MAX_KEY_BYTES,
    MAX_KINDS, MAX_LINE_BYTES, MAX_NAME_BYTES, MAX_NESTING, MAX_PAGE_RULES, MAX_PATH_BYTES,
    MAX_PREFIX_BYTES, MAX_ROWS, MAX_STATEMENTS, MAX_TEMPLATES, MAX_TEXT_BYTES,
};
pub use line_words::{are_spaces, is_word, trimmed, words_of};
pub use name::{Name, place_of};
pub use no_memory::NoMemory;
pub use object::{Item, Obj};
pub use path::Path;
pub use shared::{Bytes, Text};
pub use value::{Look, Piece, Skeleton};

#[cfg(test)]
mod tests;

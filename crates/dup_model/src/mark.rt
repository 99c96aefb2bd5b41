use dup_lists::Listed;
use dup_names::{Item, Obj, Path};

/// What a statement gives: bytes, an embedding, an item that it reads, or the path of a link.
#[derive(Debug, Drop, PartialEq, Eq)]
pub enum Mark {
    Plain(Listed<u8>),
    Hole(Obj),
    Read(Item),
    Goes(Path),
}

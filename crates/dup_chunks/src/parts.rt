// Parts of chunks.
ghost use Rattle.std.specs.Prelude.{◌≡◌, suc, drop};
ghost use Rattle.dup_chunks.specs.Chunks.{items_at};

use dup_lists::Listed;
use std::alloc::Global;
use std::sync::Arc;

pub(crate) type Chunk<T> = Arc<Listed<T>, Global>;

/// The items of the chunk with this number, none where there is no such chunk.
pub(crate) fn items_of<T>(chunks: &[Chunk<T>], number: usize) -> &[T]
    ensures { result.now ≡ items_at (λ c. c.value) chunks.now number }
{
    if number < chunks.len() {
        chunks[number].items()
    } else {
        &[]
    }
}

/// The items from a number on.
pub(crate) fn rest_of<T>(items: &[T], number: usize) -> &[T]
    ensures { result.now ≡ drop number items.now }
{
    if number < items.len() {
        &items[number..]
    } else {
        &[]
    }
}

/// The chunks behind the one with this number.
pub(crate) fn behind<T>(chunks: &[Chunk<T>], number: usize) -> &[Chunk<T>]
    ensures { result.now ≡ drop (suc number) chunks.now }
{
    if number < chunks.len() {
        &chunks[number + 1..]
    } else {
        &[]
    }
}

// Edits of chunks.
ghost use Rattle.std.specs.Prelude.{◌≡◌, ◌≤◌, ◌++◌, suc, IfOk, length, take, drop};
ghost use Rattle.std.specs.List.{flat_map};
ghost use Rattle.std.specs.Option.{option_to_list};
ghost use Rattle.dup_chunks.specs.Chunks.{AreChunks, items_at};

use crate::parts::{Chunk, behind, items_of, rest_of};
use crate::place::Place;
use crate::share::Share;
use dup_lists::Listed;
use dup_names::NoMemory;
use std::alloc::Global;
use std::sync::Arc;

// The most items of a chunk.
const MOST: usize = 64;

/// Puts shared items behind others.
fn push_items<T: Share + Drop>(made: &mut Vec<T>, items: &[T]) -> Result<(), NoMemory>
    ensures { IfOk result (λ _. made.new.items ≡ made.old.items ++ items.now) }
{
    for item in items {
        made.push(item.share()?)?;
    }
    Ok(())
}

/// Puts shared chunks behind others.
pub(crate) fn push_shared<T: Drop>(
    made: &mut Vec<Chunk<T>>,
    chunks: &[Chunk<T>],
) -> Result<(), NoMemory>
    requires made { AreChunks (λ c. c.value) made.old.items }
    requires chunks { AreChunks (λ c. c.value) chunks.now }
    ensures value { IfOk result (λ _. flat_map (λ c. c.value) made.new.items
        ≡ flat_map (λ c. c.value) made.old.items ++ flat_map (λ c. c.value) chunks.now) }
    ensures chunks { IfOk result (λ _. AreChunks (λ c. c.value) made.new.items) }
{
    for chunk in chunks {
        made.push(Arc::try_clone(chunk)?)?;
    }
    Ok(())
}

// Puts a chunk of at most 64 items behind others, where there are items.
fn push_chunk<T: Drop>(
    alloc: Global,
    made: &mut Vec<Chunk<T>>,
    items: Vec<T>,
) -> Result<(), NoMemory>
    requires few { length items.items ≤ 64 }
    requires made { AreChunks (λ c. c.value) made.old.items }
    ensures value { IfOk result (λ _. flat_map (λ c. c.value) made.new.items
        ≡ flat_map (λ c. c.value) made.old.items ++ items.items) }
    ensures chunks { IfOk result (λ _. AreChunks (λ c. c.value) made.new.items) }
{
    if items.is_empty() {
        return Ok(());
    }
    made.push(Arc::new(alloc, Listed::of(items))?)?;
    Ok(())
}

// Puts an item behind others, where there is one.
fn push_some<T: Drop>(made: &mut Vec<T>, item: Option<T>) -> Result<(), NoMemory>
    ensures { IfOk result (λ _. made.new.items ≡ made.old.items ++ option_to_list item) }
{
    if let Some(item) = item {
        made.push(item)?;
    }
    Ok(())
}

// The items of a chunk with one more, or one less, at a place.
fn edited<T: Share + Drop>(
    alloc: Global,
    items: &[T],
    at: usize,
    skip: usize,
    item: Option<T>,
) -> Result<Vec<T>, NoMemory>
    requires at { at ≤ length items.now }
    requires skip { skip ≤ 1 }
    ensures { IfOk result (λ made. made.items
        ≡ take at items.now ++ option_to_list item ++ drop skip (drop at items.now)) }
{
    let mut made = Vec::with_capacity(alloc, items.len())?;
    let (before, behind) = items.split_at(at);
    push_items(&mut made, before)?;
    push_some(&mut made, item)?;
    push_items(&mut made, rest_of(behind, skip))?;
    Ok(made)
}

// Puts at most 65 items behind chunks, in one chunk or in two.
fn push_chunks<T: Drop>(
    alloc: Global,
    made: &mut Vec<Chunk<T>>,
    mut items: Vec<T>,
) -> Result<(), NoMemory>
    requires few { length items.items ≤ 65 }
    requires made { AreChunks (λ c. c.value) made.old.items }
    ensures value { IfOk result (λ _. flat_map (λ c. c.value) made.new.items
        ≡ flat_map (λ c. c.value) made.old.items ++ items.items) }
    ensures chunks { IfOk result (λ _. AreChunks (λ c. c.value) made.new.items) }
{
    if items.len() <= MOST {
        return push_chunk(alloc, made, items);
    }
    let behind = items.split_off(MOST / 2)?;
    push_chunk(alloc, made, items)?;
    push_chunk(alloc, made, behind)
}

/// The same chunks with an item put in at a place, an item taken out there, or both.
pub(crate) fn spliced<T: Share + Drop>(
    alloc: Global,
    chunks: &[Chunk<T>],
    place: Place,
    skip: usize,
    item: Option<T>,
) -> Result<Vec<Chunk<T>>, NoMemory>
    requires chunks { AreChunks (λ c. c.value) chunks.now }
    requires there { place.chunk ≤ length chunks.now }
    requires within { place.at ≤ length (items_at (λ c. c.value) chunks.now place.chunk) }
    requires skip { skip ≤ 1 }
    ensures value { IfOk result (λ made. flat_map (λ c. c.value) made.items ≡
        let items = items_at (λ c. c.value) chunks.now place.chunk in
        flat_map (λ c. c.value) (take place.chunk chunks.now)
        ++ (take place.at items ++ option_to_list item ++ drop skip (drop place.at items))
        ++ flat_map (λ c. c.value) (drop (suc place.chunk) chunks.now)) }
    ensures chunks { IfOk result (λ made. AreChunks (λ c. c.value) made.items) }
{
    let mut made = Vec::new(alloc);
    push_shared(&mut made, &chunks[..place.chunk])?;
    let items = edited(alloc, items_of(chunks, place.chunk), place.at, skip, item)?;
    push_chunks(alloc, &mut made, items)?;
    push_shared(&mut made, behind(chunks, place.chunk))?;
    Ok(made)
}

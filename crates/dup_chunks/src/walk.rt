// Walks over the items of chunks.
ghost use Rattle.std.specs.Prelude.{◌≡◌, ◌+◌, ◌++◌, ◌≤◌, [], suc, length, drop, is_some, if◌then◌else◌};
ghost use Rattle.std.specs.List.{flat_map};
ghost use Rattle.std.specs.Option.{option_to_list, option_copied};
ghost use Rattle.dup_chunks.specs.Chunks.{AreChunks, items_at};

use crate::parts::{Chunk, behind, items_of};
use crate::place::Place;
use dup_lists::Listed;
use dup_steps::Steps;
use std::alloc::Global;
use std::marker::Model;
use std::sync::Arc;
use std::sync::ledger::Ledger;

/// What is left of a list.
#[derive(Drop)]
pub struct Walk<'a, T> {
    items: &'a [T],
    chunks: &'a [Arc<Listed<T>, Global>],
}

impl<'a, T> Model for Walk<'a, T> {
    ghost use Rattle.std.specs.Prelude.{List, ◌++◌};
    ghost use Rattle.std.specs.List.{flat_map};
    ghost use Rattle.std.specs.Coded.{coded_list};
    ghost use Rattle.dup_chunks.specs.Chunks.{AreChunks};

    ghost Value = { List T };

    ghost coded = { coded_list T.code };

    ghost view = { λ w. w.items.now ++ flat_map (λ c. c.value) w.chunks.now };

    ghost invariant = { λ w. AreChunks (λ c. c.value) w.chunks.now };
}

/// The items from a place on.
pub(crate) fn walk_at<T>(chunks: &[Chunk<T>], place: Place) -> Walk<'_, T>
    requires chunks { AreChunks (λ c. c.value) chunks.now }
    requires within { place.at ≤ length (items_at (λ c. c.value) chunks.now place.chunk) }
    ensures { result ≡ drop place.at (items_at (λ c. c.value) chunks.now place.chunk)
        ++ flat_map (λ c. c.value) (drop (suc place.chunk) chunks.now) }
{
    Walk {
        items: &items_of(chunks, place.chunk)[place.at..],
        chunks: behind(chunks, place.chunk),
    }
}

impl<'a, T> Walk<'a, T> {
    /// The next item, a step where there is one.
    pub fn next<L: Ledger>(&mut self, steps: &mut Steps<L>) -> Option<&'a T>
        ensures value { self.old ≡ option_to_list (option_copied result) ++ self.new }
        ensures end { result ≡ None → self.new ≡ [] }
        ensures cost { steps.new ≡ steps.old + (if is_some result then 1 else 0) }
    {
        if let Some((first, rest)) = self.items.split_first() {
            self.items = rest;
            steps.add(1);
            return Some(first);
        }
        match self.chunks.split_first() {
            None => None,
            Some((chunk, chunks)) => {
                self.chunks = chunks;
                match chunk.items().split_first() {
                    None => None,
                    Some((first, rest)) => {
                        self.items = rest;
                        steps.add(1);
                        Some(first)
                    }
                }
            }
        }
    }
}

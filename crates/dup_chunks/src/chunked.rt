// Lists in chunks.
ghost use Rattle.std.specs.Prelude.{◌≡◌, ◌+◌, ◌≤◌, ◌<◌, ◌^◌, ◌++◌, ◌∷◌, [], ℕ, IfOk, length, drop, not, nat_lt};
ghost use Rattle.std.specs.Option.{option_to_list, option_copied};
ghost use Rattle.std.specs.List.{slice_get};
ghost use Rattle.dup_chunks.specs.Cut.{Falls, front, back};

use crate::edits::{push_shared, spliced};
use crate::place::{Place, place_counted, place_of};
use crate::probe::Probe;
use crate::share::Share;
use crate::walk::{Walk, walk_at};
use dup_lists::Listed;
use dup_names::NoMemory;
use dup_steps::Steps;
use std::alloc::Global;
use std::marker::Model;
use std::sync::Arc;
use std::sync::ledger::Ledger;

/// A list in chunks of 1 to 64 items, which are shared with the lists that it was made from. An edit copies
/// one chunk, and notes one more owner of each other chunk.
#[derive(Drop)]
pub struct Chunked<T> {
    chunks: Vec<Arc<Listed<T>, Global>>,
}

impl<T> Model for Chunked<T> {
    ghost use Rattle.std.specs.Prelude.{List};
    ghost use Rattle.std.specs.List.{flat_map};
    ghost use Rattle.std.specs.Coded.{coded_list};
    ghost use Rattle.dup_chunks.specs.Chunks.{AreChunks};

    ghost Value = { List T };

    ghost coded = { coded_list T.code };

    ghost view = { λ l. flat_map (λ c. c.value) l.chunks.items };

    ghost invariant = { λ l. AreChunks (λ c. c.value) l.chunks.items };
}

impl<T: Drop> Chunked<T> {
    /// The list without items. It takes no memory.
    pub fn new(alloc: Global) -> Chunked<T>
        ensures { result ≡ [] }
    {
        Chunked {
            chunks: Vec::new(alloc),
        }
    }

    /// An equal list, which shares all chunks.
    pub fn copy(&self, alloc: Global) -> Result<Chunked<T>, NoMemory>
        ensures { IfOk result (λ made. made ≡ self.now) }
    {
        let mut chunks = Vec::with_capacity(alloc, self.chunks.len())?;
        push_shared(&mut chunks, &self.chunks)?;
        Ok(Chunked { chunks })
    }

    /// Whether it has so many items. It looks at the chunks alone.
    pub fn has_at_least(&self, count: usize) -> bool
        ensures { result ≡ not (nat_lt (length self.now) count) }
    {
        let mut rest = count;
        for chunk in &self.chunks {
            let some = chunk.items().len();
            if rest <= some {
                return true;
            }
            rest -= some;
        }
        rest == 0
    }

    /// Its items, in order.
    pub fn walk(&self) -> Walk<'_, T>
        ensures { result ≡ self.now }
    {
        walk_at(&self.chunks, Place { chunk: 0, at: 0 })
    }

    /// The items from a place on. It looks at items as a binary search does.
    pub fn walk_from<P: Probe<T>, L: Ledger>(&self, probe: &P, steps: &mut Steps<L>) -> Walk<'_, T>
        requires { Falls (P.is_below probe.now) self.now }
        ensures value { result ≡ back (P.is_below probe.now) self.now }
        ensures cost { (d : ℕ) → length self.now < 2 ^ d → steps.new ≤ steps.old + d + 7 }
    {
        let place = place_counted(&self.chunks, probe, steps);
        walk_at(&self.chunks, place)
    }

    /// The first item that isn't before a place. It looks at items as a binary search does.
    pub fn first_from<P: Probe<T>, L: Ledger>(&self, probe: &P, steps: &mut Steps<L>) -> Option<&T>
        requires { Falls (P.is_below probe.now) self.now }
        ensures { option_copied result ≡ slice_get (back (P.is_below probe.now) self.now) 0 }
    {
        self.walk_from(probe, steps).next(steps)
    }
}

impl<T: Share + Drop> Chunked<T> {
    // The same list, edited at a place.
    fn edited<P: Probe<T>>(
        &self,
        alloc: Global,
        probe: &P,
        skip: usize,
        item: Option<T>,
    ) -> Result<Chunked<T>, NoMemory>
        requires falls { Falls (P.is_below probe.now) self.now }
        requires skip { skip ≤ 1 }
        ensures { IfOk result (λ made. made ≡ front (P.is_below probe.now) self.now
            ++ option_to_list item ++ drop skip (back (P.is_below probe.now) self.now)) }
    {
        let place = place_of(&self.chunks, probe);
        let chunks = spliced(alloc, &self.chunks, place, skip, item)?;
        Ok(Chunked { chunks })
    }

    /// The same list with an item put in at a place.
    pub fn inserted<P: Probe<T>>(
        &self,
        alloc: Global,
        probe: &P,
        item: T,
    ) -> Result<Chunked<T>, NoMemory>
        requires { Falls (P.is_below probe.now) self.now }
        ensures { IfOk result (λ made. made
            ≡ front (P.is_below probe.now) self.now ++ item ∷ back (P.is_below probe.now) self.now) }
    {
        let made = self.edited(alloc, probe, 0, Some(item))?;
        Ok(made)
    }

    /// The same list with an item in place of the one behind a place.
    pub fn replaced<P: Probe<T>>(
        &self,
        alloc: Global,
        probe: &P,
        item: T,
    ) -> Result<Chunked<T>, NoMemory>
        requires { Falls (P.is_below probe.now) self.now }
        ensures { IfOk result (λ made. made
            ≡ front (P.is_below probe.now) self.now ++ item ∷ drop 1 (back (P.is_below probe.now) self.now)) }
    {
        let made = self.edited(alloc, probe, 1, Some(item))?;
        Ok(made)
    }

    /// The same list without the item behind a place.
    pub fn removed<P: Probe<T>>(&self, alloc: Global, probe: &P) -> Result<Chunked<T>, NoMemory>
        requires { Falls (P.is_below probe.now) self.now }
        ensures { IfOk result (λ made. made
            ≡ front (P.is_below probe.now) self.now ++ drop 1 (back (P.is_below probe.now) self.now)) }
    {
        let made = self.edited(alloc, probe, 1, None)?;
        Ok(made)
    }
}

// Places in chunks.
ghost use Rattle.std.specs.Prelude.{◌≡◌, ◌+◌, ◌≤◌, ◌<◌, ◌^◌, ℕ, length};
ghost use Rattle.std.specs.List.{flat_map};
ghost use Rattle.dup_chunks.specs.Cut.{Falls};
ghost use Rattle.dup_chunks.specs.Chunks.{AreChunks, IsPlace};

use crate::cut::{First, cut};
use crate::parts::{Chunk, items_of};
use crate::probe::Probe;
use dup_steps::Steps;
use std::marker::Brand;
use std::sync::ledger::{Blank, Ledger};

/// A chunk's number, and how many of its items stand before the place.
#[derive(Clone, Copy)]
pub(crate) struct Place {
    pub(crate) chunk: usize,
    pub(crate) at: usize,
}

/// Where a test cuts the items of chunks.
pub(crate) fn place_counted<T, P: Probe<T>, L: Ledger>(
    chunks: &[Chunk<T>],
    probe: &P,
    steps: &mut Steps<L>,
) -> Place
    requires chunks { AreChunks (λ c. c.value) chunks.now }
    requires falls { Falls (P.is_below probe.now) (flat_map (λ c. c.value) chunks.now) }
    ensures value { IsPlace (λ c. c.value) (P.is_below probe.now) chunks.now result.chunk result.at }
    ensures cost { (d : ℕ) → length (flat_map (λ c. c.value) chunks.now) < 2 ^ d →
        steps.new ≤ steps.old + d + 7 }
{
    let count = cut(chunks, &First { probe }, steps);
    if count == 0 {
        return Place { chunk: 0, at: 0 };
    }
    let items = items_of(chunks, count - 1);
    let at = cut(items, probe, steps);
    if at == items.len() && count < chunks.len() {
        Place {
            chunk: count,
            at: 0,
        }
    } else {
        Place {
            chunk: count - 1,
            at,
        }
    }
}

fn counted<T, P: Probe<T>, L: Ledger>(blank: Blank, chunks: &[Chunk<T>], probe: &P) -> Place
    requires name { blank.name ≡ L.name }
    requires parts { blank.parts ≡ L.parts }
    requires some { 0 < blank.parts }
    requires chunks { AreChunks (λ c. c.value) chunks.now }
    requires falls { Falls (P.is_below probe.now) (flat_map (λ c. c.value) chunks.now) }
    ensures { IsPlace (λ c. c.value) (P.is_below probe.now) chunks.now result.chunk result.at }
{
    let mut steps = Steps::<L>::new(blank);
    place_counted(chunks, probe, &mut steps)
}

/// The same, whose steps no one counts.
pub(crate) fn place_of<T, P: Probe<T>>(chunks: &[Chunk<T>], probe: &P) -> Place
    requires chunks { AreChunks (λ c. c.value) chunks.now }
    requires falls { Falls (P.is_below probe.now) (flat_map (λ c. c.value) chunks.now) }
    ensures { IsPlace (λ c. c.value) (P.is_below probe.now) chunks.now result.chunk result.at }
{
    counted::<T, P, Brand>(Blank::new(1), chunks, probe)
}

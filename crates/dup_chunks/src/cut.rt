// The binary search.
ghost use Rattle.std.specs.Prelude.{◌≡◌, ◌+◌, ◌≤◌, ◌<◌, ◌^◌, ℕ, length};
ghost use Rattle.dup_chunks.specs.Cut.{Falls, front, first_passes};

use crate::probe::Probe;
use dup_lists::Listed;
use dup_steps::Steps;
use std::alloc::Global;
use std::sync::Arc;
use std::sync::ledger::Ledger;

/// How many items stand before a place. Each step is an item that is looked at.
pub(crate) fn cut<T, P: Probe<T>, L: Ledger>(items: &[T], probe: &P, steps: &mut Steps<L>) -> usize
    requires { Falls (P.is_below probe.now) items.now }
    ensures value { result ≡ length (front (P.is_below probe.now) items.now) }
    ensures cost { (d : ℕ) → length items.now < 2 ^ d → steps.new ≤ steps.old + d }
{
    let (before, rest) = items.split_at(items.len() / 2);
    let Some((first, behind)) = rest.split_first() else {
        return 0;
    };
    steps.add(1);
    if probe.is_below(first) {
        before.len() + 1 + cut(behind, probe, steps)
    } else {
        cut(before, probe, steps)
    }
}

/// A place, told by the first items of chunks.
pub(crate) struct First<'a, P> {
    pub(crate) probe: &'a P,
}

impl<P> Drop for First<'_, P> {
    fn drop(self) {
        let First { probe: _ } = self;
    }
}

impl<'a, T, P: Probe<T>> Probe<Arc<Listed<T>, Global>> for First<'a, P> {
    ghost is_below = { λ f c. first_passes (P.is_below f.probe.now) c.value };

    fn is_below(&self, item: &Arc<Listed<T>, Global>) -> bool {
        match item.items() {
            [] => false,
            [first, ..] => self.probe.is_below(first),
        }
    }
}

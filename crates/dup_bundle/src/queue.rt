// The changed paths that may be knots, and those that wait.
ghost use Rattle.std.specs.Prelude.{◌≡◌, ◌||◌, true, IfOk, OnOk};
ghost use Rattle.std.specs.List.Sorted.{IsStrictlySortedBy};
ghost use Rattle.dup_names.specs.Order.{text_cmp};
ghost use Rattle.dup_names.specs.Words.{Path as Word};
ghost use Rattle.dup_model.specs.Editions.{has};
ghost use Rattle.dup_bundle.specs.Hinted.{linkers_of};

use crate::changed::Changed;
use crate::hints::noted;
use crate::path_set::{add_path, copied};
use dup_names::{NoMemory, Path};
use std::alloc::Global;
use std::collections::{BTreeMap, BTreeSet};

/// The paths that may be knots, and under each path those that it holds.
#[derive(Drop)]
pub(crate) struct Queue {
    pub(crate) ready: BTreeSet<Path>,
    pub(crate) waiting: BTreeMap<Path, Vec<Path>>,
}

// Adds these paths.
fn add_all(ready: &mut BTreeSet<Path>, paths: &[Path]) -> Result<(), NoMemory>
    requires { IsStrictlySortedBy text_cmp ready.old.keys }
    ensures has { OnOk result ((q : Word) → has ready.new.keys q ≡ (has ready.old.keys q || has paths.now q)) }
    ensures order { IsStrictlySortedBy text_cmp ready.new.keys }
{
    for path in paths {
        add_path(ready, path)?;
    }
    Ok(())
}

/// Adds the paths that wait at one of these.
pub(crate) fn wake(
    ready: &mut BTreeSet<Path>,
    waiting: &BTreeMap<Path, Vec<Path>>,
    out: &BTreeSet<Path>,
) -> Result<(), NoMemory>
    requires { IsStrictlySortedBy text_cmp ready.old.keys }
    ensures keeps { OnOk result ((p : Word) →
        has ready.old.keys p ≡ true → has ready.new.keys p ≡ true) }
    ensures wakes { OnOk result ((p q : Word) → has out.now.keys q ≡ true →
        has (linkers_of waiting.now q) p ≡ true → has ready.new.keys p ≡ true) }
    ensures order { IsStrictlySortedBy text_cmp ready.new.keys }
{
    for path in out {
        add_all(ready, noted(waiting, path))?;
    }
    Ok(())
}

impl Queue {
    /// All changed paths, of which none waits.
    pub(crate) fn of(alloc: Global, changed: &Changed) -> Result<Queue, NoMemory>
        requires { IsStrictlySortedBy text_cmp changed.now }
        ensures { IfOk result (λ made. made.ready.keys ≡ changed.now) }
    {
        let ready = copied(alloc, changed.paths())?;
        Ok(Queue {
            ready,
            waiting: BTreeMap::new(alloc),
        })
    }
}

// Sets of paths.
ghost use Rattle.std.specs.Prelude.{◌≡◌, ◌||◌, ◌&&◌, ◌+◌, not, IfOk, OnOk, length, if◌then◌else◌};
ghost use Rattle.std.specs.List.Sorted.{IsStrictlySortedBy};
ghost use Rattle.std.specs.Ordering.{eq_by_cmp};
ghost use Rattle.dup_names.specs.Order.{text_cmp};
ghost use Rattle.dup_names.specs.Words.{Path as Word};
ghost use Rattle.dup_model.specs.Editions.{has};

use dup_names::{NoMemory, Path};
use std::alloc::Global;
use std::collections::BTreeSet;

/// Adds a path.
pub(crate) fn add_path(paths: &mut BTreeSet<Path>, path: &Path) -> Result<(), NoMemory>
    ensures has { OnOk result ((q : Word) →
        has paths.new.keys q ≡ (eq_by_cmp text_cmp q path.now || has paths.old.keys q)) }
    ensures count { OnOk result (length paths.new.keys ≡
        length paths.old.keys + (if has paths.old.keys path.now then 0 else 1)) }
    ensures order { IsStrictlySortedBy text_cmp paths.new.keys }
{
    paths.insert(*path)?;
    Ok(())
}

/// Takes a path away.
pub(crate) fn take_path(paths: &mut BTreeSet<Path>, path: &Path)
    ensures has { (q : Word) →
        has paths.new.keys q ≡ (not (eq_by_cmp text_cmp q path.now) && has paths.old.keys q) }
    ensures order { IsStrictlySortedBy text_cmp paths.new.keys }
{
    paths.remove(path);
}

/// An equal set.
pub(crate) fn copied(alloc: Global, paths: &BTreeSet<Path>) -> Result<BTreeSet<Path>, NoMemory>
    requires { IsStrictlySortedBy text_cmp paths.now.keys }
    ensures { IfOk result (λ made. made.keys ≡ paths.now.keys) }
{
    let mut made = BTreeSet::new(alloc);
    for path in paths {
        add_path(&mut made, path)?;
    }
    Ok(made)
}

/// The paths of a set, in order.
pub(crate) fn listed(alloc: Global, paths: &BTreeSet<Path>) -> Result<Vec<Path>, NoMemory>
    ensures value { IfOk result (λ made. made.items ≡ paths.now.keys) }
    ensures order { IsStrictlySortedBy text_cmp paths.now.keys }
{
    let mut made = Vec::with_capacity(alloc, paths.len())?;
    for path in paths {
        made.push(*path)?;
    }
    Ok(made)
}

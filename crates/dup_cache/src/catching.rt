// How the entries of a cache catch up with an edition.
ghost use Rattle.std.specs.Prelude.{
  ◌≡◌,
  ◌≤◌,
  ◌++◌,
  ◌∷◌,
  [],
  IfOk,
  IsOk,
  OnErr,
  OnOk,
  drop,
  length,
  map,
  take,
};
ghost use Rattle.std.specs.List.{flat_map, fold};
ghost use Rattle.std.specs.FinMap as fin;
ghost use Rattle.dup_model.specs.Caches.{caught_up};
ghost use Rattle.dup_model.specs.Editions.{edition as edition_of};
ghost use Rattle.dup_cache.specs.Entries.{without};
ghost use Rattle.dup_cache.specs.Holding.{AreOf};
ghost use Rattle.dup_cache.specs.Kept.{IsKeyed, pages_of};
ghost use Rattle.dup_cache.specs.Renewing.{
  asked,
  due,
  due_by,
  left_by,
  named,
  paths_of,
  renewed,
  seen,
  seen_one,
  unnamed,
};

use crate::entries::{Entries, Shared, has, remove, renew};
use crate::path_key::PathKey;
use crate::renewal::Renewal;
use dup_edition::{BundleRec, Changes, Edition};
use dup_model::Mode;
use dup_names::{NoMemory, Path};
use std::alloc::Global;
use std::sync::Arc;

// Takes the pages at these paths away.
fn remove_drops(entries: &mut Entries, drops: &[Path])
    requires { IsKeyed entries.old.entries }
    ensures pages { pages_of entries.new.entries ≡ fold without (pages_of entries.old.entries) drops.now }
    ensures keyed { IsKeyed entries.new.entries }
    ensures cap { entries.new.cap ≡ entries.old.cap }
{
    for path in drops {
        remove(entries, path);
    }
}

// Takes the pages at the paths of these away.
fn remove_puts(entries: &mut Entries, puts: &[Shared])
    requires { IsKeyed entries.old.entries }
    ensures pages { pages_of entries.new.entries
        ≡ fold without (pages_of entries.old.entries) (map (λ p. p.value.path) puts.now) }
    ensures keyed { IsKeyed entries.new.entries }
    ensures cap { entries.new.cap ≡ entries.old.cap }
{
    for page in puts {
        remove(entries, page.path());
    }
}

// Takes the pages away that these bundles name.
fn remove_named(entries: &mut Entries, bundles: &[Arc<BundleRec, Global>])
    requires { IsKeyed entries.old.entries }
    ensures pages { pages_of entries.new.entries
        ≡ unnamed (pages_of entries.old.entries) (map (λ r. r.value) bundles.now) }
    ensures keyed { IsKeyed entries.new.entries }
    ensures cap { entries.new.cap ≡ entries.old.cap }
{
    for bundle in bundles {
        remove_puts(entries, bundle.puts());
        remove_drops(entries, bundle.drops());
    }
}

// What stands at a path from now on: the edition's page, with one more owner, or none.
fn renewal(edition: &Edition, path: &Path) -> Result<Renewal, NoMemory>
    ensures { IfOk result (λ made. seen_one made
        ≡ (path.now, fin.get (edition_of edition.now.log) path.now)) }
{
    let key = PathKey::of(path);
    match edition.get(path) {
        Some(page) => Ok(Renewal {
            key,
            page: Some(Arc::try_clone(page)?),
        }),
        None => Ok(Renewal { key, page: None }),
    }
}

// Notes what becomes of the entry of a path, if there is one.
fn note(
    all: &mut Vec<Renewal>,
    entries: &Entries,
    edition: &Edition,
    path: &Path,
) -> Result<(), NoMemory>
    requires { IsKeyed entries.now.entries }
    ensures { OnOk result (seen all.new.items ≡ seen all.old.items
        ++ due (edition_of edition.now.log) (pages_of entries.now.entries) (path.now ∷ [])) }
{
    if !has(entries, path) {
        return Ok(());
    }
    all.push(renewal(edition, path)?)?;
    Ok(())
}

// Notes what becomes of the entries at these paths.
fn note_drops(
    all: &mut Vec<Renewal>,
    entries: &Entries,
    edition: &Edition,
    drops: &[Path],
) -> Result<(), NoMemory>
    requires { IsKeyed entries.now.entries }
    ensures { OnOk result (seen all.new.items ≡ seen all.old.items
        ++ due (edition_of edition.now.log) (pages_of entries.now.entries) drops.now) }
{
    for path in drops {
        note(all, entries, edition, path)?;
    }
    Ok(())
}

// Notes what becomes of the entries at the paths of these.
fn note_puts(
    all: &mut Vec<Renewal>,
    entries: &Entries,
    edition: &Edition,
    puts: &[Shared],
) -> Result<(), NoMemory>
    requires { IsKeyed entries.now.entries }
    ensures { OnOk result (seen all.new.items ≡ seen all.old.items
        ++ due (edition_of edition.now.log) (pages_of entries.now.entries)
        (map (λ p. p.value.path) puts.now)) }
{
    for page in puts {
        note(all, entries, edition, page.path())?;
    }
    Ok(())
}

// What becomes of the entries that these bundles name.
fn due_named(
    alloc: Global,
    entries: &Entries,
    edition: &Edition,
    bundles: &[Arc<BundleRec, Global>],
) -> Result<Vec<Renewal>, NoMemory>
    requires { IsKeyed entries.now.entries }
    ensures { IfOk result (λ made. seen made.items ≡ due (edition_of edition.now.log)
        (pages_of entries.now.entries) (flat_map named (map (λ r. r.value) bundles.now))) }
{
    let mut made = Vec::new(alloc);
    for bundle in bundles {
        note_puts(&mut made, entries, edition, bundle.puts())?;
        note_drops(&mut made, entries, edition, bundle.drops())?;
    }
    Ok(made)
}

// What becomes of each entry.
fn due_all(alloc: Global, entries: &Entries, edition: &Edition) -> Result<Vec<Renewal>, NoMemory>
    ensures { IfOk result (λ made. seen made.items ≡ asked (edition_of edition.now.log)
        (paths_of (pages_of entries.now.entries))) }
{
    let mut made = Vec::new(alloc);
    for (_key, page) in entries {
        made.push(renewal(edition, page.path())?)?;
    }
    Ok(made)
}

// What becomes of the entries by these changes.
fn due_since(
    alloc: Global,
    entries: &Entries,
    edition: &Edition,
    changes: Changes<'_>,
) -> Result<Vec<Renewal>, NoMemory>
    requires { IsKeyed entries.now.entries }
    ensures { IfOk result (λ made. seen made.items
        ≡ due_by changes.entry (edition_of edition.now.log) (pages_of entries.now.entries)) }
{
    match changes {
        Changes::All => due_all(alloc, entries, edition),
        Changes::Named(bundles) => due_named(alloc, entries, edition, bundles),
    }
}

// Takes the pages away that have changed.
fn remove_changed(entries: &mut Entries, changes: Changes<'_>)
    requires { IsKeyed entries.old.entries }
    ensures pages { pages_of entries.new.entries ≡ left_by changes.entry (pages_of entries.old.entries) }
    ensures keyed { IsKeyed entries.new.entries }
    ensures cap { entries.new.cap ≡ entries.old.cap }
{
    match changes {
        Changes::All => entries.clear(),
        Changes::Named(bundles) => remove_named(entries, bundles),
    }
}

// Gives the pages that have changed way to those of the edition.
fn renew_changed(
    alloc: Global,
    entries: &mut Entries,
    edition: &Edition,
    changes: Changes<'_>,
) -> Result<(), NoMemory>
    requires { IsKeyed entries.old.entries }
    ensures ok { OnOk result (pages_of entries.new.entries ≡ fold renewed (pages_of entries.old.entries)
        (due_by changes.entry (edition_of edition.now.log) (pages_of entries.old.entries))) }
    ensures keyed { IsKeyed entries.new.entries }
    ensures cap { entries.new.cap ≡ entries.old.cap }
    ensures err { OnErr result (entries.new ≡ entries.old) }
{
    let renewals = due_since(alloc, entries, edition, changes)?;
    renew(entries, renewals);
    Ok(())
}

/// Catches up with an edition from the one of this number on: what was no older stays in its order.
pub(crate) fn catch_up(
    alloc: Global,
    entries: &mut Entries,
    mode: Mode,
    edition: &Edition,
    from: u64,
) -> Result<(), NoMemory>
    requires keyed { IsKeyed entries.old.entries }
    requires within { from ≤ length edition.now.log }
    ensures ok { OnOk result (AreOf (edition_of (take from edition.now.log)) (pages_of entries.old.entries)
        → pages_of entries.new.entries ≡ caught_up mode (drop from edition.now.log)
        (edition_of edition.now.log) (pages_of entries.old.entries)) }
    ensures invalidate { mode ≡ Mode.Invalidate → IsOk result × (pages_of entries.new.entries
        ≡ caught_up mode (drop from edition.now.log) (edition_of edition.now.log)
        (pages_of entries.old.entries)) }
    ensures keyed { IsKeyed entries.new.entries }
    ensures cap { entries.new.cap ≡ entries.old.cap }
    ensures err { OnErr result (entries.new ≡ entries.old) }
{
    let changes = edition.changed_since(from);
    match mode {
        Mode::Invalidate => {
            remove_changed(entries, changes);
            Ok(())
        }
        Mode::Update => {
            renew_changed(alloc, entries, edition, changes)?;
            Ok(())
        }
    }
}

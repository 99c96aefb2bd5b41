// The set of changed paths, kept from one publication to the next.
ghost use Rattle.std.specs.Prelude.{◌≡◌, ◌↔◌, [], ◌++◌, ◌∷◌, List, length, not, ◌&&◌, IsTrue, IfOk, OnOk, if◌then◌else◌};
ghost use Rattle.std.specs.Option.{option_copied};
ghost use Rattle.std.specs.List.{filter};
ghost use Rattle.std.specs.List.Sorted.{IsStrictlySortedBy};
ghost use Rattle.std.specs.Ordering.{eq_by_cmp};
ghost use Rattle.dup_names.specs.Order.{text_cmp};
ghost use Rattle.dup_names.specs.Words.{Path as Word};
ghost use Rattle.dup_model.specs.Commits.{Commit};
ghost use Rattle.dup_model.specs.Editions.{bundle_of, has};
ghost use Rattle.dup_edition.specs.Logged.{Logged, appended};
ghost use Rattle.dup_bundle.specs.Between.{changed_paths, has_look, has_page, is_changed as changed_between};
ghost use Rattle.dup_bundle.specs.Targets.{Aim, IsSameElsewhere};

use crate::needing::is_changed;
use crate::path_set::{add_path, copied, take_path};
use crate::sorted::SortedTarget;
use dup_edition::{BundleRec, Edition, Page};
use dup_names::{Look, NoMemory, Path};
use std::alloc::Global;
use std::collections::BTreeSet;
use std::marker::Model;
use std::sync::Arc;

/// The paths at which an edition and a target have other looks, in path order.
#[derive(Drop)]
pub struct Changed {
    paths: BTreeSet<Path>,
}

impl Model for Changed {
    ghost use Rattle.std.specs.Prelude.{List};
    ghost use Rattle.dup_names.specs.Words.{Path as Word};

    ghost Value = { List Word };

    ghost view = { λ c. c.paths.keys };

    ghost use Rattle.std.specs.List.Sorted.{IsStrictlySortedBy};
    ghost use Rattle.dup_names.specs.Order.{text_cmp};

    ghost invariant = { λ c. IsStrictlySortedBy text_cmp c.paths.keys };
}

// Looks at one path anew.
fn look_at(
    paths: &mut BTreeSet<Path>,
    edition: &Edition,
    target: &SortedTarget<'_>,
    path: &Path,
) -> Result<(), NoMemory>
    requires { IsStrictlySortedBy text_cmp paths.old.keys }
    ensures order { IsStrictlySortedBy text_cmp paths.new.keys }
    ensures has { OnOk result ((q : Word) →
        has paths.new.keys q ≡
        (if eq_by_cmp text_cmp q path.now then changed_between edition.now target.now q else
        has paths.old.keys q)) }
{
    if is_changed(edition, target, path) {
        add_path(paths, path)?;
        return Ok(());
    }
    take_path(paths, path);
    Ok(())
}

// Looks at these paths anew.
fn look_at_all(
    paths: &mut BTreeSet<Path>,
    edition: &Edition,
    target: &SortedTarget<'_>,
    touched: &[Path],
) -> Result<(), NoMemory>
    requires { IsStrictlySortedBy text_cmp paths.old.keys }
    ensures order { IsStrictlySortedBy text_cmp paths.new.keys }
    ensures has { OnOk result ((q : Word) →
        has paths.new.keys q ≡
        (if has touched.now q then changed_between edition.now target.now q else has paths.old.keys q)) }
{
    for path in touched {
        look_at(paths, edition, target, path)?;
    }
    Ok(())
}

// Looks at the paths of these pages.
fn look_at_shown(
    paths: &mut BTreeSet<Path>,
    edition: &Edition,
    target: &SortedTarget<'_>,
    pages: &[Arc<Page, Global>],
) -> Result<(), NoMemory>
    requires { IsStrictlySortedBy text_cmp paths.old.keys }
    ensures order { IsStrictlySortedBy text_cmp paths.new.keys }
    ensures has { OnOk result ((q : Word) →
        has paths.new.keys q ≡
        (if has_page pages.now q then changed_between edition.now target.now q else has paths.old.keys q)) }
{
    for page in pages {
        look_at(paths, edition, target, page.path())?;
    }
    Ok(())
}

// Looks at the paths of these looks.
fn look_at_aimed(
    paths: &mut BTreeSet<Path>,
    edition: &Edition,
    target: &SortedTarget<'_>,
    pages: &[(Path, Arc<Look, Global>)],
) -> Result<(), NoMemory>
    requires { IsStrictlySortedBy text_cmp paths.old.keys }
    ensures order { IsStrictlySortedBy text_cmp paths.new.keys }
    ensures has { OnOk result ((q : Word) →
        has paths.new.keys q ≡
        (if has_look pages.now q then changed_between edition.now target.now q else has paths.old.keys q)) }
{
    for page in pages {
        look_at(paths, edition, target, &page.0)?;
    }
    Ok(())
}

// Takes away the paths of these pages.
fn take_pages(paths: &mut BTreeSet<Path>, pages: &[Arc<Page, Global>])
    requires { IsStrictlySortedBy text_cmp paths.old.keys }
    ensures has { (q : Word) → has paths.new.keys q ≡ (not (has_page pages.now q) && has paths.old.keys q) }
    ensures order { IsStrictlySortedBy text_cmp paths.new.keys }
{
    for page in pages {
        take_path(paths, page.path());
    }
}

// Takes these paths away.
fn take_paths(paths: &mut BTreeSet<Path>, gone: &[Path])
    requires { IsStrictlySortedBy text_cmp paths.old.keys }
    ensures has { (q : Word) → has paths.new.keys q ≡ (not (has gone.now q) && has paths.old.keys q) }
    ensures order { IsStrictlySortedBy text_cmp paths.new.keys }
{
    for path in gone {
        take_path(paths, path);
    }
}

// Takes the paths of a set away.
fn take_set(paths: &mut BTreeSet<Path>, gone: &BTreeSet<Path>)
    requires { IsStrictlySortedBy text_cmp paths.old.keys }
    ensures has { (q : Word) → has paths.new.keys q ≡ (not (has gone.now.keys q) && has paths.old.keys q) }
    ensures order { IsStrictlySortedBy text_cmp paths.new.keys }
{
    for path in gone {
        take_path(paths, path);
    }
}

impl Changed {
    /// No path: so it is between edition 0 and the target without pages.
    pub fn none(alloc: Global) -> Changed
        ensures { result ≡ [] }
    {
        Changed {
            paths: BTreeSet::new(alloc),
        }
    }

    /// The changed paths between these, from scratch: it compares the looks of all pages.
    pub fn between(
        alloc: Global,
        edition: &Edition,
        target: &SortedTarget<'_>,
    ) -> Result<Changed, NoMemory>
        ensures { IfOk result (λ made. made ≡ changed_paths edition.now target.now) }
    {
        let mut paths = BTreeSet::new(alloc);
        look_at_shown(&mut paths, edition, target, edition.pages())?;
        look_at_aimed(&mut paths, edition, target, target.pages())?;
        Ok(Changed { paths })
    }

    /// The set for a new target, which is the old one but at the touched paths. It compares the looks
    /// at these alone.
    pub fn retargeted(
        &self,
        alloc: Global,
        edition: &Edition,
        target: &SortedTarget<'_>,
        touched: &[Path],
    ) -> Result<Changed, NoMemory>
        ensures { IfOk result (λ made. (old : Aim) → IsSameElsewhere touched.now old target.now →
            self.now ≡ changed_paths edition.now old → made ≡ changed_paths edition.now target.now) }
    {
        let mut paths = copied(alloc, &self.paths)?;
        look_at_all(&mut paths, edition, target, touched)?;
        Ok(Changed { paths })
    }

    /// The set once the target's paths of this record are published. It takes no memory.
    pub fn publish(&mut self, rec: &BundleRec)
        ensures { (e : Logged) (t : Aim) (commits : List Commit) (paths : List Word) →
            rec.now ≡ bundle_of t.pages t.version commits paths →
            self.old ≡ changed_paths e t → self.new ≡ changed_paths (appended e rec.now) t }
    {
        take_pages(&mut self.paths, rec.puts());
        take_paths(&mut self.paths, rec.drops());
    }

    /// An equal set.
    pub(crate) fn copy(&self, alloc: Global) -> Result<Changed, NoMemory>
        ensures { IfOk result (λ made. made ≡ self.now) }
    {
        let paths = copied(alloc, &self.paths)?;
        Ok(Changed { paths })
    }

    /// Takes these paths away. It takes no memory.
    pub(crate) fn leave(&mut self, gone: &BTreeSet<Path>)
        requires { IsStrictlySortedBy text_cmp self.old }
        ensures { self.new ≡ filter (λ q. not (has gone.now.keys q)) self.old }
    {
        take_set(&mut self.paths, gone);
    }

    /// Whether no path is changed.
    pub fn is_empty(&self) -> bool
        ensures { IsTrue result ↔ (self.now ≡ []) }
    {
        self.paths.is_empty()
    }

    /// How many there are.
    pub(crate) fn len(&self) -> usize
        ensures { result ≡ length self.now }
    {
        self.paths.len()
    }

    /// Whether a path is one of them.
    pub(crate) fn has(&self, path: &Path) -> bool
        ensures { result ≡ has self.now path.now }
    {
        self.paths.contains(path)
    }

    /// The paths.
    pub(crate) fn paths(&self) -> &BTreeSet<Path>
        ensures { result.now.keys ≡ self.now }
    {
        &self.paths
    }
}

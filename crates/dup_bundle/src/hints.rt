// Which changed pages a page may need.
ghost use Rattle.std.specs.Prelude.{◌≡◌, ◌++◌, ◌∷◌, ◌&&◌, [], true, not, IfOk, OnOk};
ghost use Rattle.std.specs.List.{list_any};
ghost use Rattle.std.specs.Option.{is_none, option_copied, option_map};
ghost use Rattle.std.specs.FinMap as fin;
ghost use Rattle.std.specs.Ordering.{eq_by_cmp};
ghost use Rattle.dup_names.specs.Order.{text_cmp};
ghost use Rattle.dup_names.specs.Words.{Path as Word};
ghost use Rattle.dup_names.specs.declared.object.Obj.{Obj as Object};
ghost use Rattle.dup_model.specs.Editions.{has, target_looks};
ghost use Rattle.dup_model.specs.Needs.{IsSound};
ghost use Rattle.dup_names.specs.Objects.{same_obj};
ghost use Rattle.dup_bundle.specs.Between.{changed_paths};
ghost use Rattle.dup_bundle.specs.Hinted.{is_kept, linkers_of, links_of, listed, users_of, uses_of, AreComplete, Grows, IsNoted};

use crate::changed::Changed;
use crate::needing::shown;
use crate::sorted::SortedTarget;
use dup_edition::Edition;
use dup_names::{Bytes, Look, NoMemory, Obj, Path};
use std::alloc::Global;
use std::collections::BTreeMap;
use std::sync::Arc;

/// For each object the changed paths whose pages show it as the target's page there doesn't, and for
/// each path that the target lacks the changed paths whose pages link to it. What a page needs is found
/// among these and its links. A path stays noted once it is published, and is then no hint to anything.
#[derive(Drop)]
pub(crate) struct Hints {
    pub(crate) users: BTreeMap<Obj, Vec<Path>>,
    pub(crate) linkers: BTreeMap<Path, Vec<Path>>,
}

// One path more.
fn with_path(alloc: Global, found: Option<Vec<Path>>, path: &Path) -> Result<Vec<Path>, NoMemory>
    ensures { IfOk result (λ made. made.items ≡ listed found ++ path.now ∷ []) }
{
    let mut paths = match found {
        None => Vec::new(alloc),
        Some(paths) => paths,
    };
    paths.push(*path)?;
    Ok(paths)
}

// Notes the path at an object.
fn note_user(
    alloc: Global,
    users: &mut BTreeMap<Obj, Vec<Path>>,
    obj: &Obj,
    path: &Path,
) -> Result<(), NoMemory>
    ensures notes { OnOk result (has (users_of users.new obj.now) path.now ≡ true) }
    ensures keeps { OnOk result ((o : Object) (q : Word) → has (users_of users.old o) q ≡ true →
        has (users_of users.new o) q ≡ true) }
{
    let paths = with_path(alloc, users.remove(obj), path)?;
    users.insert(*obj, paths)?;
    Ok(())
}

/// Notes the path at another.
pub(crate) fn note_linker(
    alloc: Global,
    linkers: &mut BTreeMap<Path, Vec<Path>>,
    to: &Path,
    path: &Path,
) -> Result<(), NoMemory>
    ensures notes { OnOk result (has (linkers_of linkers.new to.now) path.now ≡ true) }
    ensures keeps { OnOk result ((p q : Word) → has (linkers_of linkers.old p) q ≡ true →
        has (linkers_of linkers.new p) q ≡ true) }
{
    let paths = with_path(alloc, linkers.remove(to), path)?;
    linkers.insert(*to, paths)?;
    Ok(())
}

// Whether one of these shows the object with just these bytes.
pub(crate) fn is_shown(uses: &[(Obj, Bytes)], obj: &Obj, bytes: &Bytes) -> bool
    ensures { result ≡ is_kept uses.now (obj.now, bytes.now) }
{
    uses.iter()
        .any(|other| *obj == other.0 && *bytes == other.1)
}

// Notes the path at an object, unless the others show it in just this way.
fn note_use(
    alloc: Global,
    users: &mut BTreeMap<Obj, Vec<Path>>,
    shown: &(Obj, Bytes),
    others: &[(Obj, Bytes)],
    path: &Path,
) -> Result<(), NoMemory>
    ensures notes { OnOk result ((o : Object) →
        (same_obj o shown.now.0 && not (is_kept others.now shown.now)) ≡ true →
        has (users_of users.new o) path.now ≡ true) }
    ensures keeps { OnOk result ((o : Object) (q : Word) → has (users_of users.old o) q ≡ true →
        has (users_of users.new o) q ≡ true) }
{
    if is_shown(others, &shown.0, &shown.1) {
        return Ok(());
    }
    note_user(alloc, users, &shown.0, path)?;
    Ok(())
}

// Notes the path at each of the objects that isn't shown in just this way by the others.
fn note_uses(
    alloc: Global,
    users: &mut BTreeMap<Obj, Vec<Path>>,
    uses: &[(Obj, Bytes)],
    others: &[(Obj, Bytes)],
    path: &Path,
) -> Result<(), NoMemory>
    ensures notes { OnOk result ((o : Object) →
        list_any (λ u. same_obj o u.0 && not (is_kept others.now u)) uses.now ≡ true →
        has (users_of users.new o) path.now ≡ true) }
    ensures keeps { OnOk result ((o : Object) (q : Word) → has (users_of users.old o) q ≡ true →
        has (users_of users.new o) q ≡ true) }
{
    for shown in uses {
        note_use(alloc, users, shown, others, path)?;
    }
    Ok(())
}

// Notes the path at a link, where the target lacks it.
fn note_link(
    alloc: Global,
    linkers: &mut BTreeMap<Path, Vec<Path>>,
    link: &Path,
    target: &SortedTarget<'_>,
    path: &Path,
) -> Result<(), NoMemory>
    ensures notes { OnOk result ((p : Word) →
        (eq_by_cmp text_cmp p link.now && is_none (fin.get target.now.pages p)) ≡ true →
        has (linkers_of linkers.new p) path.now ≡ true) }
    ensures keeps { OnOk result ((p q : Word) → has (linkers_of linkers.old p) q ≡ true →
        has (linkers_of linkers.new p) q ≡ true) }
{
    match target.look(link) {
        Some(_) => Ok(()),
        None => {
            note_linker(alloc, linkers, link, path)?;
            Ok(())
        }
    }
}

// Notes the path at each of the links that the target lacks.
fn note_links(
    alloc: Global,
    linkers: &mut BTreeMap<Path, Vec<Path>>,
    links: &[Path],
    target: &SortedTarget<'_>,
    path: &Path,
) -> Result<(), NoMemory>
    ensures notes { OnOk result ((p : Word) → (has links.now p && is_none (fin.get target.now.pages p)) ≡
        true → has (linkers_of linkers.new p) path.now ≡ true) }
    ensures keeps { OnOk result ((p q : Word) → has (linkers_of linkers.old p) q ≡ true →
        has (linkers_of linkers.new p) q ≡ true) }
{
    for link in links {
        note_link(alloc, linkers, link, target, path)?;
    }
    Ok(())
}

/// What a page uses.
pub(crate) fn uses(look: Option<&Arc<Look, Global>>) -> &[(Obj, Bytes)]
    ensures { result.now ≡ uses_of (option_map (λ l. l.value) (option_copied look.entry)) }
{
    match look {
        None => &[],
        Some(look) => look.uses.items(),
    }
}

/// What a page links to.
pub(crate) fn links(look: Option<&Arc<Look, Global>>) -> &[Path]
    ensures { result.now ≡ links_of (option_map (λ l. l.value) (option_copied look.entry)) }
{
    match look {
        None => &[],
        Some(look) => look.links.items(),
    }
}

// Notes the path at what its page shows as none of the others does, and at the links that the target
// lacks.
fn note_page(
    alloc: Global,
    hints: &mut Hints,
    edition: &Edition,
    target: &SortedTarget<'_>,
    path: &Path,
    others: &[(Obj, Bytes)],
) -> Result<(), NoMemory>
    ensures notes { OnOk result (IsNoted hints.new edition.now target.now others.now path.now) }
    ensures keeps { OnOk result (Grows hints.old hints.new) }
{
    let old = shown(edition, path);
    note_uses(alloc, &mut hints.users, uses(old), others, path)?;
    note_links(alloc, &mut hints.linkers, links(old), target, path)?;
    Ok(())
}

/// The paths noted at a path.
pub(crate) fn noted<'a>(linkers: &'a BTreeMap<Path, Vec<Path>>, path: &Path) -> &'a [Path]
    ensures { result.now ≡ linkers_of linkers.now path.now }
{
    match linkers.get(path) {
        None => &[],
        Some(paths) => paths,
    }
}

// Notes the path at each of these objects at which another one is noted.
fn note_aimed_uses(
    alloc: Global,
    users: &mut BTreeMap<Obj, Vec<Path>>,
    hints: &Hints,
    uses: &[(Obj, Bytes)],
    path: &Path,
) -> Result<(), NoMemory> {
    for shown in uses {
        if !hints.users(&shown.0).is_empty() {
            note_user(alloc, users, &shown.0, path)?;
        }
    }
    Ok(())
}

// Notes the path at each of these links that the edition lacks.
fn note_aimed_links(
    alloc: Global,
    linkers: &mut BTreeMap<Path, Vec<Path>>,
    edition: &Edition,
    links: &[Path],
    path: &Path,
) -> Result<(), NoMemory> {
    for link in links {
        if shown(edition, link).is_none() {
            note_linker(alloc, linkers, link, path)?;
        }
    }
    Ok(())
}

impl Hints {
    /// No hints yet.
    pub(crate) fn none(alloc: Global) -> Hints {
        Hints {
            users: BTreeMap::new(alloc),
            linkers: BTreeMap::new(alloc),
        }
    }

    /// The hints between an edition and any target, where the changed paths are known. Each path is noted
    /// at all that its page shows.
    pub(crate) fn whole(
        alloc: Global,
        edition: &Edition,
        target: &SortedTarget<'_>,
        changed: &Changed,
    ) -> Result<Hints, NoMemory>
        requires { changed.now ≡ changed_paths edition.now target.now }
        ensures { IfOk result (λ hints. AreComplete hints edition.now target.now) }
    {
        let mut hints = Hints::none(alloc);
        for path in changed.paths() {
            note_page(alloc, &mut hints, edition, target, path, &[])?;
        }
        Ok(hints)
    }

    /// The hints between an edition and a sound target, where the changed paths are known. It walks the
    /// looks at these paths, and notes none at an object that its page goes on to show with the same bytes.
    pub(crate) fn between(
        alloc: Global,
        edition: &Edition,
        target: &SortedTarget<'_>,
        changed: &Changed,
    ) -> Result<Hints, NoMemory>
        requires changed { changed.now ≡ changed_paths edition.now target.now }
        requires sound { IsSound (target_looks target.now.pages) }
        ensures { IfOk result (λ hints. AreComplete hints edition.now target.now) }
    {
        let mut hints = Hints::none(alloc);
        for path in changed.paths() {
            let kept = uses(target.look(path));
            note_page(alloc, &mut hints, edition, target, path, kept)?;
        }
        Ok(hints)
    }

    /// The hints the other way: for each object at which a path is noted the changed paths that will use
    /// it, and for each path that the edition lacks the changed paths that will link to it. What they leave
    /// out costs time and nothing else.
    pub(crate) fn backward(
        alloc: Global,
        edition: &Edition,
        target: &SortedTarget<'_>,
        changed: &Changed,
        hints: &Hints,
    ) -> Result<Hints, NoMemory> {
        let mut back = Hints::none(alloc);
        for path in changed.paths() {
            let look = target.look(path);
            note_aimed_uses(alloc, &mut back.users, hints, uses(look), path)?;
            note_aimed_links(alloc, &mut back.linkers, edition, links(look), path)?;
        }
        Ok(back)
    }

    /// The paths noted at an object.
    pub(crate) fn users(&self, obj: &Obj) -> &[Path]
        ensures { result.now ≡ users_of self.now.users obj.now }
    {
        match self.users.get(obj) {
            None => &[],
            Some(paths) => paths,
        }
    }

    /// The paths noted at a path.
    pub(crate) fn linkers(&self, path: &Path) -> &[Path]
        ensures { result.now ≡ linkers_of self.now.linkers path.now }
    {
        noted(&self.linkers, path)
    }
}

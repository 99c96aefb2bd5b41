// The table of a cache: pages under their paths, the most recently used first. Its length tells that its
// keys differ, so calls that rest on this ask for it.
ghost use Rattle.std.specs.Prelude.{◌≡◌, ◌∷◌, IfSome, IsOk, OnErr, OnOk, Some, bytes_eq, take, true};
ghost use Rattle.std.specs.List.{find, fold};
ghost use Rattle.std.specs.Option.{option_copied, option_map, option_map_or};
ghost use Rattle.dup_cache.specs.Entries.{has_path, without};
ghost use Rattle.dup_cache.specs.Kept.{IsKeyed, pages_of};
ghost use Rattle.dup_cache.specs.Renewing.{ArePlaced, renewed, seen, seen_one};

use crate::path_key::PathKey;
use crate::renewal::Renewal;
use dup_edition::Page;
use dup_names::{NoMemory, Path};
use lru::LruCache;
use std::alloc::Global;
use std::sync::Arc;

pub(crate) type Shared = Arc<Page, Global>;

pub(crate) type Entries = LruCache<PathKey, Shared>;

/// The page of a path.
pub(crate) fn peek<'a>(entries: &'a Entries, path: &Path) -> Option<&'a Shared>
    requires { IsKeyed entries.now.entries }
    ensures { option_map (λ p. p.value) (option_copied result)
        ≡ find (λ page. bytes_eq page.path path.now) (pages_of entries.now.entries) }
{
    entries.peek(&PathKey::of(path))
}

/// Whether a page has this path.
pub(crate) fn has(entries: &Entries, path: &Path) -> bool
    requires { IsKeyed entries.now.entries }
    ensures { result ≡ has_path (pages_of entries.now.entries) path.now }
{
    entries.contains(&PathKey::of(path))
}

/// Brings the page of a path to the front, and tells whether there is one.
pub(crate) fn promote(entries: &mut Entries, path: &Path) -> bool
    requires { IsKeyed entries.old.entries }
    ensures found { result ≡ has_path (pages_of entries.old.entries) path.now }
    ensures pages { pages_of entries.new.entries ≡ option_map_or
        (λ page. take entries.old.cap (page ∷ without (pages_of entries.old.entries) path.now))
        (find (λ page. bytes_eq page.path path.now) (pages_of entries.old.entries))
        (pages_of entries.old.entries) }
    ensures keyed { IsKeyed entries.new.entries }
    ensures cap { entries.new.cap ≡ entries.old.cap }
{
    let _len = entries.len();
    entries.promote(&PathKey::of(path))
}

/// Puts a page first, in the place of the page of its path or else of the last of a full table.
pub(crate) fn put(entries: &mut Entries, page: Shared) -> Result<(), NoMemory>
    requires { IsKeyed entries.old.entries }
    ensures ok { OnOk result (pages_of entries.new.entries
        ≡ take entries.old.cap (page.value ∷ without (pages_of entries.old.entries) page.value.path)) }
    ensures replaced { has_path (pages_of entries.old.entries) page.value.path ≡ true → IsOk result }
    ensures keyed { IsKeyed entries.new.entries }
    ensures cap { entries.new.cap ≡ entries.old.cap }
    ensures err { OnErr result (entries.new ≡ entries.old) }
{
    let _len = entries.len();
    let key = PathKey::of(page.path());
    let _old = entries.put(key, page)?;
    Ok(())
}

/// Takes the page of a path away, and tells whether there was one.
pub(crate) fn remove(entries: &mut Entries, path: &Path) -> bool
    requires { IsKeyed entries.old.entries }
    ensures found { result ≡ has_path (pages_of entries.old.entries) path.now }
    ensures pages { pages_of entries.new.entries ≡ without (pages_of entries.old.entries) path.now }
    ensures keyed { IsKeyed entries.new.entries }
    ensures cap { entries.new.cap ≡ entries.old.cap }
{
    let _len = entries.len();
    entries.pop(&PathKey::of(path)).is_some()
}

// Writes a page over the one of its path, if there is one.
fn overwrite(entries: &mut Entries, key: PathKey, page: Shared)
    requires keyed { IsKeyed entries.old.entries }
    requires placed { page.value.path ≡ key.path }
    ensures pages { pages_of entries.new.entries
        ≡ renewed (pages_of entries.old.entries) (key.path, Some page.value) }
    ensures keyed { IsKeyed entries.new.entries }
    ensures cap { entries.new.cap ≡ entries.old.cap }
{
    let _len = entries.len();
    if let Some(kept) = entries.peek_mut(&key) {
        *kept = page;
    }
}

// Does what is due to an entry.
fn renew_one(entries: &mut Entries, renewal: Renewal)
    requires keyed { IsKeyed entries.old.entries }
    requires placed { IfSome renewal.page (λ page. page.value.path ≡ renewal.key.path) }
    ensures pages { pages_of entries.new.entries ≡ renewed (pages_of entries.old.entries) (seen_one renewal) }
    ensures keyed { IsKeyed entries.new.entries }
    ensures cap { entries.new.cap ≡ entries.old.cap }
{
    let Renewal { key, page } = renewal;
    match page {
        Some(page) => overwrite(entries, key, page),
        None => {
            let _was_there = remove(entries, &key.path);
        }
    }
}

/// Does what is due to these entries. Each keeps its place, or leaves.
pub(crate) fn renew(entries: &mut Entries, renewals: Vec<Renewal>)
    requires keyed { IsKeyed entries.old.entries }
    requires placed { ArePlaced (seen renewals.items) }
    ensures pages { pages_of entries.new.entries
        ≡ fold renewed (pages_of entries.old.entries) (seen renewals.items) }
    ensures keyed { IsKeyed entries.new.entries }
    ensures cap { entries.new.cap ≡ entries.old.cap }
{
    for renewal in renewals {
        renew_one(entries, renewal);
    }
}

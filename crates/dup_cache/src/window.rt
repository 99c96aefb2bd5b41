// Windows on a published log.
ghost use Rattle.std.specs.Prelude.{◌≡◌, ◌≤◌, [], ℕ, IfOk, List, OnErr, OnOk, length};
ghost use Rattle.std.specs.Option.{option_map};
ghost use Rattle.std.specs.FinMap as fin;
ghost use Rattle.dup_model.specs.Caches.{catch_up};
ghost use Rattle.dup_model.specs.Editions.{Bundle, edition};
ghost use Rattle.dup_model.specs.Serving.{HoldsPagesOf};
ghost use Rattle.dup_cache.specs.Holding.{BeginsWith};

use crate::cache::PageCache;
use dup_edition::{Edition, Page};
use dup_names::{NoMemory, Path};
use std::alloc::Global;
use std::marker::Model;
use std::sync::Arc;

/// What shows the newest edition that it has seen: it means that edition's log, which only grows.
pub trait Window {
    /// What tells it of a published log.
    type Notice;

    /// The log that it has seen.
    ghost log: { Self → List Bundle };

    /// Which published log it reads: a word by which these are told apart. It never changes.
    ghost place: { Self → List ℕ };

    /// Which logs it may come to show.
    ghost admits: { Self → List Bundle → Type 0 };

    /// The logs that it has heard of.
    ghost heard: { Self → List Bundle → Type 0 };

    /// The published log that a notice is of.
    ghost notice_place: { Self.Notice → List ℕ };

    /// The logs that a notice stands for.
    ghost stands_for: { Self.Notice → List Bundle → Type 0 };

    /// Reads the newest edition at one step, catches the cache up to it, and gives its page at the path.
    /// After want of memory the log and the cache are as before.
    fn refresh(
        &mut self,
        alloc: Global,
        cache: &mut PageCache,
        path: &Path,
    ) -> Result<Option<Arc<Page, Global>>, NoMemory>
        requires { cache.old.number ≤ length (log self.old) }
        ensures page { IfOk result (λ found. option_map (λ p. p.value) found
            ≡ fin.get (edition (log self.new)) path.now) }
        ensures cache { OnOk result (HoldsPagesOf (log self.new) cache.old
            → cache.new ≡ catch_up (log self.new) cache.old) }
        ensures number { OnOk result (cache.new.number ≡ length (log self.new)) }
        ensures grows { BeginsWith (log self.new) (log self.old) }
        ensures err { OnErr result ((log self.new ≡ log self.old) × (cache.new ≡ cache.old)) }
        ensures place { place self.new ≡ place self.old }
        ensures admits { admits self.old (log self.old) → admits self.new (log self.new) }
        ensures narrows { (l : List Bundle) → admits self.new l → admits self.old l }
        ensures heard { (l : List Bundle) → heard self.old l → heard self.new l };

    /// Hears of a published log, the one that it reads. It takes no memory, and its own log is as before.
    fn hear(&mut self, notice: Self::Notice)
        requires { notice_place notice ≡ place self.old }
        ensures log { log self.new ≡ log self.old }
        ensures place { place self.new ≡ place self.old }
        ensures admits { admits self.old (log self.old) → admits self.new (log self.new) }
        ensures narrows { (l : List Bundle) → admits self.new l → admits self.old l }
        ensures hears { (l : List Bundle) → stands_for notice l → heard self.new l }
        ensures heard { (l : List Bundle) → heard self.old l → heard self.new l };
}

/// A window on one edition, whose log is its own: it shows no other. There is nothing to hear of.
#[derive(Drop)]
pub struct PlainWindow<'e> {
    edition: &'e Edition,
}

impl<'e> Model for PlainWindow<'e> {
    ghost use Rattle.std.specs.Coded.{codes};
    ghost use Rattle.dup_template.specs.contracts.statement.Statement as statement;
    ghost use Rattle.dup_edition.specs.Logged.{Logged};

    ghost Value = { Logged };

    ghost coded = { Prim.hlevel (codes, statement.the_row.coded) };

    ghost view = { λ w. w.edition.now };
}

impl<'e> PlainWindow<'e> {
    /// The window on an edition.
    pub fn new(edition: &'e Edition) -> PlainWindow<'e>
        ensures { result ≡ edition.now }
    {
        PlainWindow { edition }
    }
}

impl<'e> Window for PlainWindow<'e> {
    type Notice = ();

    ghost log = { λ w. w.log };

    ghost place = { λ _. [] };

    ghost admits = { λ w l. l ≡ w.log };

    ghost heard = { λ _ l. l ≡ [] };

    ghost notice_place = { λ _. [] };

    ghost stands_for = { λ _ l. l ≡ [] };

    fn refresh(
        &mut self,
        alloc: Global,
        cache: &mut PageCache,
        path: &Path,
    ) -> Result<Option<Arc<Page, Global>>, NoMemory> {
        let page = match self.edition.get(path) {
            Some(page) => Some(Arc::try_clone(page)?),
            None => None,
        };
        cache.catch_up(alloc, self.edition)?;
        Ok(page)
    }

    fn hear(&mut self, _notice: ()) {}
}

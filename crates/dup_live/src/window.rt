// Windows on what is published.
ghost use Rattle.std.specs.Prelude.{◌≡◌, ◌≤◌, ◌⊎◌, [], IfOk, OnErr, OnOk, length};
ghost use Rattle.std.specs.Option.{option_map};
ghost use Rattle.std.specs.FinMap as fin;
ghost use Rattle.dup_model.specs.Caches.{catch_up};
ghost use Rattle.dup_model.specs.Editions.{edition};
ghost use Rattle.dup_model.specs.Logs.{IsGoodLog};
ghost use Rattle.dup_model.specs.Serving.{HoldsPagesOf};
ghost use Rattle.dup_cache.specs.Holding.{BeginsWith};
ghost use Rattle.dup_live.specs.Deeds.{published};
ghost use Rattle.dup_live.specs.Stories.{word_of};
ghost use Rattle.dup_live.specs.Windows.{IsBlank, ReadsOn, new_pane, new_sight};

use crate::book::Naming;
use crate::eye::Eye;
use crate::notice::Notice;
use dup_cache::{PageCache, Window};
use dup_edition::{Edition, Page};
use dup_names::{NoMemory, Path};
use std::alloc::Global;
use std::marker::Model;
use std::sync::Arc;

/// A window that keeps the edition which its eye saw last, edition 0 at first. It takes no lock and waits for
/// nobody.
#[derive(Drop)]
pub struct LiveWindow<J: Naming> {
    eye: Eye<J>,
    edition: Arc<Edition, Global>,
}

impl<J: Naming> Model for LiveWindow<J> {
    ghost use Rattle.std.specs.Coded.{codes};
    ghost use Rattle.dup_template.specs.contracts.statement.Statement as statement;
    ghost use Rattle.dup_model.specs.Logs.{IsGoodLog};
    ghost use Rattle.dup_cache.specs.Holding.{BeginsWith};
    ghost use Rattle.dup_live.specs.declared.sight.Pane.{Pane};

    ghost Value = { Pane };

    ghost coded = { Prim.hlevel (codes, statement.the_row.coded) };

    ghost view = { λ w. record { eye = w.eye; log = w.edition.value.log } };

    ghost invariant = { λ w. IsGoodLog J.site w.edition.value.log × BeginsWith w.eye.seen w.edition.value.log };
}

// The page of an edition, to which the cache catches up. After want of memory the cache is as before.
fn read_from(
    alloc: Global,
    newest: &Edition,
    cache: &mut PageCache,
    path: &Path,
) -> Result<Option<Arc<Page, Global>>, NoMemory>
    requires { cache.old.number ≤ length newest.now.log }
    ensures page { IfOk result (λ found. option_map (λ p. p.value) found
        ≡ fin.get (edition newest.now.log) path.now) }
    ensures cache { OnOk result (HoldsPagesOf newest.now.log cache.old
        → cache.new ≡ catch_up newest.now.log cache.old) }
    ensures number { OnOk result (cache.new.number ≡ length newest.now.log) }
    ensures err { OnErr result (cache.new ≡ cache.old) }
{
    let page = match newest.get(path) {
        Some(page) => Some(Arc::try_clone(page)?),
        None => None,
    };
    cache.catch_up(alloc, newest)?;
    Ok(page)
}

impl<J: Naming> LiveWindow<J> {
    /// A window on what an eye sees that has seen nothing, at an edition 0.
    #[tactic(auto, using(dup_model::proofs::Push::good_empty))]
    pub(crate) fn new(eye: Eye<J>, edition: Arc<Edition, Global>) -> LiveWindow<J>
        requires seen { eye.seen ≡ [] }
        requires empty { edition.value.log ≡ [] }
        ensures { result ≡ record { eye = eye; log = [] } }
    {
        LiveWindow { eye, edition }
    }

    /// The number of the edition that it keeps, whose log is good.
    pub fn number(&self) -> u64
        ensures number { result ≡ length self.now.log }
        ensures good { IsGoodLog J.site self.now.log }
    {
        self.edition.number()
    }

    /// One more window of the same published log, which has read nothing and was told the same.
    pub fn another(&self) -> Result<LiveWindow<J>, NoMemory>
        requires { self.now.log ≡ [] }
        ensures { IfOk result (λ made. made ≡ new_pane self.now.eye.told) }
    {
        let eye = self.eye.another()?;
        let edition = Arc::try_clone(&self.edition)?;
        Ok(LiveWindow::new(eye, edition))
    }
}

impl<J: Naming> Window for LiveWindow<J> {
    type Notice = Notice<J>;

    ghost log = { λ w. w.log };

    ghost place = { λ _. word_of J.book };

    ghost admits = { λ _ l. IsGoodLog J.site l };

    ghost heard = { λ w l. BeginsWith w.eye.told l };

    ghost notice_place = { λ _. word_of J.book };

    ghost stands_for = { λ notice l. l ≡ notice };

    /// One look of its eye: where the look gives an edition, the window moves to it, and else it stays. With
    /// nothing new it costs an entry, a comparison, and the search for the page.
    fn refresh(
        &mut self,
        alloc: Global,
        cache: &mut PageCache,
        path: &Path,
    ) -> Result<Option<Arc<Page, Global>>, NoMemory>
        requires { cache.old.number ≤ length self.old.log }
        ensures page { IfOk result (λ found. option_map (λ p. p.value) found
            ≡ fin.get (edition self.new.log) path.now) }
        ensures cache { OnOk result (HoldsPagesOf self.new.log cache.old
            → cache.new ≡ catch_up self.new.log cache.old) }
        ensures number { OnOk result (cache.new.number ≡ length self.new.log) }
        ensures good { IsGoodLog J.site self.new.log }
        ensures grows { BeginsWith self.new.log self.old.log }
        ensures err { OnErr result ((self.new.log ≡ self.old.log) × (cache.new ≡ cache.old)) }
        ensures told { self.new.eye.told ≡ self.old.eye.told }
        ensures later { BeginsWith self.new.eye.seen self.old.eye.seen }
        ensures reads { OnOk result (IsBlank self.old self.new ⊎ ReadsOn self.old self.new) }
    {
        match self.eye.look()? {
            Some(newest) => {
                let page = read_from(alloc, &newest, cache, path)?;
                self.edition = newest;
                Ok(page)
            }
            None => {
                let page = read_from(alloc, &self.edition, cache, path)?;
                Ok(page)
            }
        }
    }

    /// Each log that it reads from now on begins with the notice's.
    fn hear(&mut self, notice: Notice<J>)
        ensures log { self.new.log ≡ self.old.log }
        ensures seen { self.new.eye.seen ≡ self.old.eye.seen }
        ensures told { BeginsWith self.new.eye.told self.old.eye.told }
        ensures heard { BeginsWith self.new.eye.told notice }
        ensures counts { (self.new.eye.entries ≡ self.old.eye.entries)
            × (self.new.eye.blanks ≡ self.old.eye.blanks) }
    {
        self.eye.hear(notice);
    }
}

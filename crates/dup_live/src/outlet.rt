// What publishes.
ghost use Rattle.std.specs.Prelude.{◌≡◌, ◌<◌, ◌^◌, [], ◌∷◌, ◌++◌, List, IfOk, OnErr, OnOk, drop};
ghost use Rattle.dup_model.specs.Editions.{Bundle};
ghost use Rattle.dup_model.specs.Logs.{IsGoodLog};
ghost use Rattle.dup_edition.specs.Logged.{appended};
ghost use Rattle.dup_cache.specs.Holding.{BeginsWith};
ghost use Rattle.dup_live.specs.Deeds.{published, tried};
ghost use Rattle.dup_live.specs.Kept.{IsOf};
ghost use Rattle.dup_live.specs.Last.{last_state};
ghost use Rattle.dup_live.specs.Stories.{word_of};
ghost use Rattle.dup_live.specs.Windows.{new_pane};

use crate::book::{Book, Front, Naming, Opened};
use crate::deed::Log;
use crate::eye::Eye;
use crate::notice::Notice;
use crate::rule::{Kept, Sees};
use crate::shown::Shown;
use crate::window::LiveWindow;
use core::mem::replace_with;
use dup_edition::{BundleRec, Edition, Outlet};
use dup_names::NoMemory;
use dup_template::Site;
use left_right::writer::Writer;
use std::alloc::{AllocError, Global};
use std::marker::Model;
use std::sync::{Arc, Wait};

type LiveWriter<J> = Writer<Shown, Shown, Log, Kept<J>>;

/// What publishes editions to live windows. Contracts see it as the site and the log of the edition that is
/// published.
pub struct LiveOutlet<J: Naming, R: Wait + Drop> {
    writer: LiveWriter<J>,
    book: Book<J>,
    front: Front,
    rt: R,
}

impl<J: Naming, R: Wait + Drop> Model for LiveOutlet<J, R> {
    ghost use Rattle.std.specs.Prelude.{◌≡◌};
    ghost use Rattle.std.specs.Coded.{codes};
    ghost use Rattle.dup_template.specs.contracts.statement.Statement as statement;
    ghost use Rattle.dup_edition.specs.Logged.{Logged};
    ghost use Rattle.dup_live.specs.Deeds.{published};
    ghost use Rattle.dup_live.specs.Kept.{IsOf};

    ghost Value = { Logged };

    ghost coded = { Prim.hlevel (codes, statement.the_row.coded) };

    ghost view = { λ o. o.writer.desk.shown.value.edition };

    ghost invariant = { λ o. (o.writer.desk.shown.value.edition.log ≡ published o.front.deeds)
        × (o.front.which ≡ J.book) × IsOf J.book J.site o.writer.desk.shown.value };
}

impl<J: Naming, R: Wait + Drop> Drop for LiveOutlet<J, R> {
    fn drop(self) {
        let Self {
            writer,
            book: _,
            front: _,
            rt,
        } = self;
        drop(writer.take(&rt));
    }
}

// Publishes what was appended last.
fn shows<J: Naming, R: Wait>(
    rt: &R,
    writer: LiveWriter<J>,
) -> (LiveWriter<J>, Result<(), AllocError>)
    requires of { IsOf J.book J.site
        (last_state writer.desk.shown.value (drop writer.behind writer.log.items)) }
    requires grows { BeginsWith
        (last_state writer.desk.shown.value (drop writer.behind writer.log.items)).edition.log
        writer.desk.shown.value.edition.log }
    requires good { IsGoodLog J.site
        (last_state writer.desk.shown.value (drop writer.behind writer.log.items)).edition.log }
    ensures ok { OnOk result.1 (result.0.desk.shown.value
        ≡ last_state writer.desk.shown.value (drop writer.behind writer.log.items)) }
    ensures err { OnErr result.1 (result.0.desk.shown.value ≡ writer.desk.shown.value) }
{
    writer.publish_as::<Sees<J>, R>(rt)
}

// Appends an edition. Readers don't see it yet.
#[tactic(auto, using(crate::proofs::LastState::last_state_after))]
fn append<J: Naming>(writer: &mut LiveWriter<J>, next: Shown) -> Result<(), NoMemory>
    ensures desk { writer.new.desk ≡ writer.old.desk }
    ensures ok { OnOk result
        (last_state writer.old.desk.shown.value (drop writer.new.behind writer.new.log.items) ≡ next) }
{
    if writer.append(next).is_err() {
        return Err(NoMemory);
    }
    Ok(())
}

// The edition with one record more, behind an owner of its own.
fn next_edition(
    alloc: Global,
    edition: &Edition,
    rec: Arc<BundleRec, Global>,
) -> Result<Arc<Edition, Global>, NoMemory>
    ensures { IfOk result (λ next. next.value ≡ appended edition.now rec.value) }
{
    let mut next = edition.copy(alloc)?;
    next.absorb(alloc, rec)?;
    let next = Arc::new(alloc, next)?;
    Ok(next)
}

// The front with one try more.
#[tactic(auto, using(crate::proofs::Telling::published_try, crate::proofs::Telling::tried_try))]
fn with_try<J: Naming>(front: &Front, book: &Book<J>, rec: &BundleRec) -> Result<Front, NoMemory>
    requires { front.now.which ≡ J.book }
    ensures which { IfOk result (λ next. next.which ≡ J.book) }
    ensures same { IfOk result (λ next. published next.deeds ≡ published front.now.deeds) }
    ensures tried { IfOk result (λ next. tried next.deeds ≡ published front.now.deeds ++ rec.now ∷ []) }
{
    let mut next = front.again();
    if !next.tries(book, rec) {
        return Err(NoMemory);
    }
    Ok(next)
}

// The front in which the last try was published. Nobody else adds to the book: it would wait for ever.
#[tactic(auto, using(crate::proofs::Telling::published_done))]
fn with_done<J: Naming, R: Wait>(rt: &R, front: &Front, book: &Book<J>) -> Front
    requires { front.now.which ≡ J.book }
    ensures which { result.which ≡ J.book }
    ensures published { published result.deeds ≡ tried front.now.deeds }
{
    let mut next = front.again();
    if next.done(book) {
        return next;
    }
    for _ in rt.forever() {}
    unreachable!()
}

// Edition 0 of a site, with a front that has seen nothing.
fn nothing_shown(alloc: Global, site: &Arc<Site, Global>, front: &Front) -> Result<Shown, NoMemory>
    requires { front.now.deeds ≡ [] }
    ensures { IfOk result (λ made. made
        ≡ record { which = front.now.which; edition = record { site = site.now.value; log = [] } }) }
{
    let edition = Arc::new(alloc, Edition::empty(alloc, Arc::try_clone(site)?))?;
    Ok(Shown::of(edition, front.again()))
}

impl<J: Naming, R: Wait + Drop> LiveOutlet<J, R> {
    /// Opens with edition 0 of the site, and room for so many readers.
    pub fn open(
        alloc: Global,
        rt: R,
        opened: Opened,
        site: Arc<Site, Global>,
        windows: usize,
    ) -> Result<LiveOutlet<J, R>, NoMemory>
        requires windows { (0 < windows) × (windows < 2 ^ 32) }
        requires book { opened ≡ J.book }
        requires site { site.value ≡ J.site }
        ensures { IfOk result (λ made. made ≡ record { site = site.value; log = [] }) }
    {
        let (book, front) = opened.named::<J>();
        let first = nothing_shown(alloc, &site, &front)?;
        let second = nothing_shown(alloc, &site, &front)?;
        let writer = Writer::new(alloc, first, second, windows)?;
        Ok(LiveOutlet {
            writer,
            book,
            front,
            rt,
        })
    }

    /// A window that has read nothing, before anything was published.
    pub fn window(&self) -> Result<LiveWindow<J>, NoMemory>
        requires { self.now.log ≡ [] }
        ensures { IfOk result (λ made. made ≡ new_pane []) }
    {
        let reader = self.writer.factory().reader()?;
        let eye = Eye::new(reader, self.front.again());
        let edition = Arc::try_clone(self.writer.published().edition())?;
        Ok(LiveWindow::new(eye, edition))
    }

    // Publishes one more record. It may wait for readers.
    fn publish_next(
        &mut self,
        alloc: Global,
        rec: Arc<BundleRec, Global>,
    ) -> Result<Notice<J>, NoMemory>
        requires { IsGoodLog J.site (self.old.log ++ rec.value ∷ []) }
        ensures ok { OnOk result (self.new ≡ appended self.old rec.value) }
        ensures err { OnErr result (self.new ≡ self.old) }
        ensures notice { IfOk result (λ notice. notice ≡ self.new.log) }
    {
        let front = with_try(&self.front, &self.book, &*rec)?;
        self.front = front.again();
        let edition = next_edition(alloc, self.writer.published().edition(), rec)?;
        append(&mut self.writer, Shown::of(edition, front))?;
        let Self {
            writer,
            book,
            front,
            rt,
        } = self;
        let done = replace_with(
            writer,
            &*rt,
            |writer: LiveWriter<J>, rt: &R| -> (LiveWriter<J>, Result<(), AllocError>)
                requires of { IsOf J.book J.site
                    (last_state writer.desk.shown.value (drop writer.behind writer.log.items)) }
                requires grows { BeginsWith
                    (last_state writer.desk.shown.value (drop writer.behind writer.log.items)).edition.log
                    writer.desk.shown.value.edition.log }
                requires good { IsGoodLog J.site
                    (last_state writer.desk.shown.value (drop writer.behind writer.log.items)).edition.log }
                ensures ok { OnOk result.1 (result.0.desk.shown.value
                    ≡ last_state writer.desk.shown.value (drop writer.behind writer.log.items)) }
                ensures err { OnErr result.1 (result.0.desk.shown.value ≡ writer.desk.shown.value) }
            { shows(rt, writer) },
        );
        if done.is_err() {
            return Err(NoMemory);
        }
        *front = with_done(&*rt, front, book);
        Ok(Notice::of(front.again()))
    }
}

impl<J: Naming, R: Wait + Drop> Outlet for LiveOutlet<J, R> {
    type Notice = Notice<J>;

    ghost log = { λ o. o.log };

    ghost place = { λ _. word_of J.book };

    ghost admits = { λ _ l. IsGoodLog J.site l };

    ghost notice_place = { λ _. word_of J.book };

    ghost stands_for = { λ notice l. l ≡ notice };

    /// Makes the next edition of owners of the pages and the records of the last, and of no bytes of theirs,
    /// and shows it to each reader at one step. It may wait for readers.
    fn publish(
        &mut self,
        alloc: Global,
        rec: Arc<BundleRec, Global>,
    ) -> Result<Notice<J>, NoMemory> {
        self.publish_next(alloc, rec)
    }

    fn current(&self) -> &Edition {
        self.writer.published().edition()
    }
}

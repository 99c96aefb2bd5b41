// The press: the journal, the works over it, and what is published.
ghost use Rattle.std.specs.Prelude.{◌≡◌, ◌≢◌, ◌↔◌, ◌||◌, [], IfErr, IfOk, IfSome, IsSome, List, None, OnErr, OnOk, Some, length, map, not};
ghost use Rattle.std.specs.Option.{option_map};
ghost use Rattle.dup_build.specs.Answers.{begun_told, finish_told, joined_told};
ghost use Rattle.dup_build.specs.Closing.{IsClosing};
ghost use Rattle.dup_machine.specs.Presses.{
  begin_step,
  begun_version,
  commit_step,
  finish_step,
  hand_step,
  join_step,
  publish_step,
  put_step,
};
ghost use Rattle.dup_machine.specs.Status.{is_of};
ghost use Rattle.dup_machine.specs.World as machine;
ghost use Rattle.dup_model.specs.Journal.{commit_refusal};
ghost use Rattle.dup_model.specs.Pages.{live};
ghost use Rattle.dup_model.specs.Versions.{content as content_after, version as content_at};
ghost use Rattle.dup_records.specs.JournalSizes.{limits_of};
ghost use Rattle.dup_records.specs.Refusals.{Names};
ghost use Rattle.dup_template.specs.Frame.{frame_of};
ghost use Rattle.dup_bundle.specs.Plans.{plan_of};
ghost use Rattle.dup_names.specs.Words.{Path};
ghost use Rattle.dup_press.specs.Press.{AdmitsGood, IsDue, aim, due_paths};
ghost use Rattle.dup_press.specs.Pressed.{Hands, IsSamePlace, Tells, TellsPut, pressed};
ghost use Rattle.dup_press.specs.Told.{ForNotice, IsStatus, published_told};
ghost use Rattle.dup_press.specs.Worked.{built_of};

use crate::answers::{Published, Status};
use crate::workshop::Workshop;
use dup_build::{Begun, Closing, Finish, Job, Joined, Put};
use dup_bundle::{Changed, Plan, Schedule, SortedTarget};
use dup_edition::{BundleRec, Outlet};
use dup_names::NoMemory;
use dup_records::{Commit, CommitRefusal, Content, Limits};
use dup_render::Expanded;
use dup_template::Site;
use std::alloc::Global;
use std::marker::Model;
use std::sync::Arc;
use std::thread::Threads;

// The commits, each with one more owner.
fn shared(
    alloc: Global,
    commits: &[Arc<Commit, Global>],
) -> Result<Vec<Arc<Commit, Global>>, NoMemory>
    ensures { IfOk result (λ made. map (λ c. c.value) made.items ≡ map (λ c. c.value) commits.now) }
{
    let mut made = Vec::with_capacity(alloc, commits.len())?;
    for commit in commits {
        made.push(Arc::try_clone(commit)?)?;
    }
    Ok(made)
}

// Whether there is a version, and it is this.
fn is_of(version: u64, made: Option<u64>) -> bool
    ensures { result ≡ is_of version made }
{
    match made {
        Some(made) => made == version,
        None => false,
    }
}

// Whether something is left to do.
fn is_pending(is_open: bool, is_made: bool, is_calm: bool) -> bool
    ensures { result ≡ (is_open || not is_made || not is_calm) }
{
    is_open || !is_made || !is_calm
}

/// A press: the commits that came, the works over them, and the outlet to which bundles of pages go. What
/// is published is kept with it: which paths are changed, and in which bundles they go out.
#[derive(Drop)]
pub struct Press<O: Outlet + Drop> {
    workshop: Workshop,
    changed: Changed,
    schedule: Schedule,
    published: u64,
    outlet: O,
}

impl<O: Outlet + Drop> Model for Press<O> {
    ghost use Rattle.std.specs.Coded.{codes};
    ghost use Rattle.dup_template.specs.contracts.statement.Statement as statement;
    ghost use Rattle.dup_press.specs.Press.{IsPress};
    ghost use Rattle.dup_press.specs.Pressed.{Pressed};

    ghost Value = { Pressed };

    ghost coded = { Prim.hlevel (codes, statement.the_row.coded) };

    ghost view = { λ p. record { works = p.workshop; log = O.log p.outlet; place = O.place p.outlet } };

    ghost invariant = { λ p.
        IsPress (O.admits p.outlet) p.workshop (O.log p.outlet) p.published p.changed p.schedule };
}

impl<O: Outlet + Drop> Press<O> {
    /// The press of a site before any commit, over an outlet that nothing was published to.
    pub fn new(
        alloc: Global,
        site: Arc<Site, Global>,
        limits: Limits,
        outlet: O,
    ) -> Result<Press<O>, NoMemory>
        requires log { O.log outlet ≡ [] }
        requires admits { AdmitsGood site.value (O.admits outlet) }
        ensures { IfOk result (λ made. made ≡ record {
          works = record {
            journal = record { site = site.value; limits = limits_of limits; commits = [] };
            target = None;
            work = None;
          };
          log = [];
          place = O.place outlet;
        }) }
    {
        let workshop = Workshop::new(alloc, site, limits)?;
        Ok(Press {
            workshop,
            changed: Changed::none(alloc),
            schedule: Schedule::none(alloc),
            published: 0,
            outlet,
        })
    }

    /// Takes a commit that is accepted, and gives the version that it makes. Whether the journal has room is
    /// looked at first, then the changes in their order. A refused commit leaves the press as it was, as
    /// does want of memory. The cost is that of `apply`.
    pub fn commit(&mut self, alloc: Global, commit: Commit) -> Result<u64, CommitRefusal>
        ensures step { IfOk result (λ version. Tells (commit_step commit (commit_refusal
            self.old.works.journal.site self.old.works.journal.limits self.old.works.journal.commits commit))
            self.old (machine.Told.Committed version) self.new) }
        ensures refused { IfErr result (λ why. Names why (commit_refusal
            self.old.works.journal.site self.old.works.journal.limits self.old.works.journal.commits commit)) }
        ensures place { IsSamePlace self.old self.new }
        ensures err { OnErr result (self.new ≡ self.old) }
    {
        self.workshop.commit(alloc, commit)
    }

    /// Opens a work at the last version, or moves the open one to it. The cost is that of `Build::begin`
    /// over the commits since the last time.
    pub fn begin(&mut self, alloc: Global) -> Result<Begun, NoMemory>
        ensures step { IfOk result (λ begun. Tells
            (begin_step self.old.works.journal.site self.old.works.work self.old.works.target) self.old
            (machine.Told.Begins (begun_told begun)) self.new) }
        ensures place { IsSamePlace self.old self.new }
        ensures err { OnErr result (self.new ≡ self.old) }
    {
        let begun = self.workshop.begin(alloc)?;
        Ok(begun)
    }

    /// The next object to expand, with the content to expand it over, where one waits: the least behind the
    /// one last handed, or else the least of all. The cost is a search in what waits.
    pub fn hand(&mut self, alloc: Global) -> Result<Option<Job>, NoMemory>
        ensures step { IfOk result (λ job. Hands
            (hand_step self.old.works.journal.site self.old.works.work self.old.works.target) self.old
            (option_map (λ j. j.obj) job) self.new) }
        ensures content { IfOk result (λ job. IfSome job (λ j. j.content ≡ content_at
            self.old.works.journal.site self.old.works.journal.commits
            (begun_version self.old.works.work self.old.works.target))) }
        ensures place { IsSamePlace self.old self.new }
        ensures err { OnErr result (self.new ≡ self.old) }
    {
        let job = self.workshop.hand(alloc)?;
        Ok(job)
    }

    /// Takes back an expansion, from whatever version of the site. One of a site with another frame is
    /// foreign, and changes nothing. The cost is that of `Build::put`.
    pub fn put(&mut self, alloc: Global, expanded: Arc<Expanded, Global>) -> Result<Put, NoMemory>
        ensures foreign { IfOk result (λ put. (put ≡ Put.Foreign)
            ↔ (expanded.value.frame ≢ frame_of self.old.works.journal.site)) }
        ensures stays { expanded.value.frame ≢ frame_of self.old.works.journal.site → self.new ≡ self.old }

        // The frames are the same.
        ensures ours { IfOk result (λ put. put ≢ Put.Foreign →
            expanded.value.frame ≡ frame_of self.old.works.journal.site) }
        ensures step { expanded.value.frame ≡ frame_of self.old.works.journal.site → IfOk result (λ put.
            TellsPut (put_step self.old.works.journal.site expanded.value.obj expanded.value.notes
            self.old.works.work self.old.works.target) self.old expanded.value.obj put self.new) }
        ensures place { IsSamePlace self.old self.new }
        ensures err { OnErr result (self.new ≡ self.old) }
    {
        let put = self.workshop.put(alloc, expanded)?;
        Ok(put)
    }

    /// Gives looks to the next level, in as many threads as there are processors. The cost is that of
    /// `Build::join`.
    pub fn join(&mut self, rt: &(impl Threads + Sync), alloc: Global) -> Result<Joined, NoMemory>
        ensures step { IfOk result (λ joined. Tells
            (join_step self.old.works.journal.site self.old.works.work self.old.works.target) self.old
            (machine.Told.Joins (joined_told joined)) self.new) }
        ensures place { IsSamePlace self.old self.new }
        ensures err { OnErr result (self.new ≡ self.old) }
    {
        let joined = self.workshop.join(rt, alloc)?;
        Ok(joined)
    }

    // Closes the open work, given what this comes to, and finds what is changed and its bundles.
    fn close(&mut self, alloc: Global, closing: Closing) -> Result<Finish, NoMemory>
        requires { IsClosing (built_of self.old.works) closing }
        ensures step { IfOk result (λ finish. Tells
            (finish_step self.old.works.journal.site self.old.works.work self.old.works.target) self.old
            (machine.Told.Finished (finish_told finish)) self.new) }
        ensures place { IsSamePlace self.old self.new }
        ensures err { OnErr result (self.new ≡ self.old) }
    {
        let target = SortedTarget::of(&closing.target);
        let edition = self.outlet.current();
        let touched = closing.touched.items();
        let changed = self.changed.retargeted(alloc, edition, &target, touched)?;
        let schedule = Schedule::between(alloc, edition, &target, &changed)?;
        let finish = self.workshop.close(alloc, closing)?;
        self.changed = changed;
        self.schedule = schedule;
        Ok(finish)
    }

    /// Closes the open work, where all that is found has a look: its looks are the target. Which paths are
    /// changed then, and in which bundles they go out, is found by the paths that the work touched.
    ///
    /// The cost is that of `Build::finish`, and of `Schedule::between` over the changed paths.
    pub fn finish(&mut self, alloc: Global) -> Result<Finish, NoMemory>
        ensures step { IfOk result (λ finish. Tells
            (finish_step self.old.works.journal.site self.old.works.work self.old.works.target) self.old
            (machine.Told.Finished (finish_told finish)) self.new) }
        ensures place { IsSamePlace self.old self.new }
        ensures err { OnErr result (self.new ≡ self.old) }
    {
        match self.workshop.closing(alloc)? {
            Err(finish) => Ok(finish),
            Ok(closing) => {
                let finish = self.close(alloc, closing)?;
                Ok(finish)
            }
        }
    }

    // The record of a plan, which is published next.
    fn recorded(&self, alloc: Global, plan: Plan, version: u64) -> Result<BundleRec, NoMemory>
        requires version { version ≡ (aim self.now.works).version }
        requires plan { (paths : List Path) × (due_paths self.now ≡ Some paths) × (plan ≡ plan_of (aim self.now.works) paths) }
        ensures { IfOk result (IsDue self.now) }
    {
        let journal = self.workshop.journal();
        let commits = shared(alloc, journal.between(self.published, version))?;
        let (puts, drops) = plan.into_parts();
        Ok(BundleRec::new(version, commits, puts, drops))
    }

    // The record that is published next, if any, given the target.
    fn record_to(
        &self,
        alloc: Global,
        target: &SortedTarget<'_>,
    ) -> Result<Option<BundleRec>, NoMemory>
        requires { target.now ≡ aim self.now.works }
        ensures some { IfOk result (λ rec. IfSome rec (IsDue self.now)) }
        ensures none { IfOk result (λ rec. rec ≡ None → due_paths self.now ≡ None) }
    {
        match self.schedule.plan(alloc, target)? {
            None => Ok(None),
            Some(plan) => {
                let rec = self.recorded(alloc, plan, target.version())?;
                Ok(Some(rec))
            }
        }
    }

    // The record that is published next, if any.
    fn record(&self, alloc: Global) -> Result<Option<BundleRec>, NoMemory>
        ensures some { IfOk result (λ rec. IfSome rec (IsDue self.now)) }
        ensures none { IfOk result (λ rec. rec ≡ None → due_paths self.now ≡ None) }
    {
        match self.workshop.target() {
            None => Ok(None),
            Some(target) => {
                let rec = self.record_to(alloc, &SortedTarget::of(target))?;
                Ok(rec)
            }
        }
    }

    // Sends the record that is published next to the outlet.
    fn send(&mut self, alloc: Global, rec: BundleRec) -> Result<Published<O::Notice>, NoMemory>
        requires { IsDue self.old rec }
        ensures step { IfOk result (λ told. Tells
            (publish_step self.old.works.journal.site self.old.works.target) self.old
            (published_told told) self.new) }
        ensures notice { IfOk result (λ told. ForNotice told (λ notice.
            (O.notice_place notice ≡ self.old.place) × O.stands_for notice self.new.log)) }
        ensures place { IsSamePlace self.old self.new }
        ensures err { OnErr result (self.new ≡ self.old) }
    {
        let rec = Arc::new(alloc, rec)?;
        let kept = Arc::try_clone(&rec)?;
        let notice = self.outlet.publish(alloc, rec)?;
        self.changed.publish(&kept);
        self.schedule.advance();
        self.published = kept.version();
        Ok(Published::Bundle {
            number: self.outlet.current().number(),
            version: kept.version(),
            puts: kept.puts().len() as u64,
            drops: kept.drops().len() as u64,
            notice,
        })
    }

    /// Publishes the next bundle. `Nothing`, exactly where no path is changed, takes no memory. The cost is
    /// that of the bundle's pages and of the commits since the last one.
    pub fn publish(&mut self, alloc: Global) -> Result<Published<O::Notice>, NoMemory>
        ensures step { IfOk result (λ told. Tells
            (publish_step self.old.works.journal.site self.old.works.target) self.old
            (published_told told) self.new) }
        ensures notice { IfOk result (λ told. ForNotice told (λ notice.
            (O.notice_place notice ≡ self.old.place) × O.stands_for notice self.new.log)) }
        ensures due { OnErr result ((publish_step self.old.works.journal.site self.old.works.target
            (pressed self.old)).0 ≢ machine.Told.NothingChanged) }
        ensures place { IsSamePlace self.old self.new }
        ensures err { OnErr result (self.new ≡ self.old) }
    {
        if self.changed.is_empty() {
            return Ok(Published::Nothing);
        }
        match self.record(alloc)? {
            None => Ok(Published::Nothing),
            Some(rec) => {
                let told = self.send(alloc, rec)?;
                Ok(told)
            }
        }
    }

    /// How it stands. It takes no memory.
    pub fn status(&self) -> Status
        ensures { IsStatus self.now result }
    {
        let version = self.workshop.journal().version();
        let work = self.workshop.work();
        let target = self.target_version();
        let pending = is_pending(
            work.is_some(),
            is_of(version, target),
            self.changed.is_empty(),
        );
        Status {
            version,
            work,
            target,
            edition: self.outlet.current().number(),
            pending,
        }
    }

    // The version of the target, if there is one.
    fn target_version(&self) -> Option<u64>
        ensures { result ≡ self.now.works.target }
    {
        match self.workshop.target() {
            Some(target) => Some(target.version),
            None => None,
        }
    }

    // The number of commits, which is that of the last version.
    pub(crate) fn version(&self) -> u64
        ensures { result ≡ length self.now.works.journal.commits }
    {
        self.workshop.journal().version()
    }

    // The number of the newest edition.
    pub(crate) fn edition(&self) -> u64
        ensures { result ≡ length self.now.log }
    {
        self.outlet.current().number()
    }

    // The content of the last version.
    pub(crate) fn content(&self) -> &Content
        ensures { result.now ≡ content_after self.now.works.journal.site self.now.works.journal.commits }
    {
        self.workshop.journal().content()
    }

    // How many live objects there are, where no work is open and there is a target.
    pub(crate) fn live(&self) -> u64
        requires idle { self.now.works.work ≡ None }
        requires made { IsSome self.now.works.target }
        ensures { IfSome self.now.works.target (λ v. result ≡ length (live (content_at
            self.now.works.journal.site self.now.works.journal.commits v))) }
    {
        self.workshop.live()
    }

    /// The outlet.
    pub fn outlet(&self) -> &O
        ensures log { O.log result.now ≡ self.now.log }
        ensures place { O.place result.now ≡ self.now.place }
    {
        &self.outlet
    }
}

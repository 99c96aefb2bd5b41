// Commits and works.
ghost use Rattle.std.specs.Prelude.{◌≡◌, ◌≢◌, ◌↔◌, ◌++◌, ◌∷◌, [], IfErr, IfOk, IfSome, IsSome, IsTrue, None, OnErr, OnOk, Some, length};
ghost use Rattle.std.specs.FinMap.Entries.{is_sorted};
ghost use Rattle.dup_names.specs.Order.{text_cmp};
ghost use Rattle.std.specs.Option.{option_map};
ghost use Rattle.dup_build.specs.Answers.{IsUnclosed, begun_told, finish_told, joined_told};
ghost use Rattle.dup_build.specs.Closing.{IsClosing};
ghost use Rattle.dup_build.specs.Targets.{looks_of};
ghost use Rattle.dup_machine.specs.Presses.{begin_step, begun_version, commit_step, finish_step, hand_step, join_step, put_step};
ghost use Rattle.dup_machine.specs.World as machine;
ghost use Rattle.dup_model.specs.Journal.{commit_refusal};
ghost use Rattle.dup_model.specs.Pages.{live};
ghost use Rattle.dup_model.specs.Versions.{version as content_at};
ghost use Rattle.dup_records.specs.JournalSizes.{limits_of};
ghost use Rattle.dup_records.specs.Refusals.{Names};
ghost use Rattle.dup_template.specs.Frame.{frame_of};
ghost use Rattle.dup_press.specs.Worked.{IsHand, IsPut, IsStep, built_of, pages_at};

use crate::journal::Journal;
use dup_build::{Begun, Build, Closing, Finish, Job, Joined, Put};
use dup_names::NoMemory;
use dup_records::{Commit, CommitRefusal, Limits};
use dup_render::{Expanded, Target};
use dup_template::Site;
use std::alloc::Global;
use std::marker::Model;
use std::sync::Arc;
use std::thread::Threads;

/// The journal and the works of a press: all of it but what is published.
#[derive(Drop)]
pub struct Workshop {
    journal: Journal,
    build: Build,
}

impl Model for Workshop {
    ghost use Rattle.std.specs.Coded.{codes};
    ghost use Rattle.dup_template.specs.contracts.statement.Statement as statement;
    ghost use Rattle.dup_press.specs.Worked.{Worked};
    ghost use Rattle.dup_press.specs.Workshop.{IsWorkshop, worked_in};

    ghost Value = { Worked };

    ghost coded = { Prim.hlevel (codes, statement.the_row.coded) };

    ghost view = { worked_in };

    ghost invariant = { IsWorkshop };
}

impl Workshop {
    /// The workshop of a site before any commit.
    pub fn new(alloc: Global, site: Arc<Site, Global>, limits: Limits) -> Result<Workshop, NoMemory>
        ensures { IfOk result (λ made. made ≡ record {
          journal = record { site = site.value; limits = limits_of limits; commits = [] };
          target = None;
          work = None;
        }) }
    {
        let journal = Journal::new(alloc, Arc::try_clone(&site)?, limits)?;
        let build = Build::new(alloc, site)?;
        Ok(Workshop { journal, build })
    }

    /// Takes a commit that is accepted, and gives the version that it makes; works stay. A refused commit
    /// leaves all as it was, as does want of memory. The cost is that of `apply`.
    pub fn commit(&mut self, alloc: Global, commit: Commit) -> Result<u64, CommitRefusal>
        ensures step { IfOk result (λ version. IsStep (commit_step commit
            (commit_refusal self.old.journal.site self.old.journal.limits self.old.journal.commits commit))
            self.old (machine.Told.Committed version) self.new) }
        ensures ok { OnOk result (self.new ≡ record self.old {
          journal = record self.old.journal {
            commits = self.old.journal.commits ++ commit ∷ [];
          };
        }) }
        ensures refused { IfErr result (λ why. Names why
            (commit_refusal self.old.journal.site self.old.journal.limits self.old.journal.commits commit)) }
        ensures err { OnErr result (self.new ≡ self.old) }
    {
        self.journal.commit(alloc, commit)
    }

    /// The journal.
    pub fn journal(&self) -> &Journal
        ensures { result.now ≡ self.now.journal }
    {
        &self.journal
    }

    /// The target, where one was made. Its paths rise.
    pub fn target(&self) -> Option<&Target>
        ensures version { option_map (λ t. t.now.version) result ≡ self.now.target }
        ensures looks { IfSome result (λ t. looks_of t.now ≡ pages_at self.now.journal.site
            self.now.journal.commits self.now.target) }
        ensures order { IfSome result (λ t. IsTrue (is_sorted text_cmp (looks_of t.now))) }
    {
        self.build.target()
    }

    /// The version of the open work, where one is open.
    pub fn work(&self) -> Option<u64>
        ensures { result ≡ option_map (λ work. work.version) self.now.work }
    {
        self.build.work()
    }

    // The version of the last `begin`, 0 before the first.
    fn begun(&self) -> u64
        ensures { result ≡ begun_version self.now.work self.now.target }
    {
        if let Some(version) = self.build.work() {
            return version;
        }
        match self.build.target() {
            Some(target) => target.version,
            None => 0,
        }
    }

    /// Opens a work at the last version, or moves the open one to it. The cost is that of `Build::begin`
    /// over the commits since the last time.
    pub fn begin(&mut self, alloc: Global) -> Result<Begun, NoMemory>
        ensures step { IfOk result (λ begun. IsStep
            (begin_step self.old.journal.site self.old.work self.old.target) self.old
            (machine.Told.Begins (begun_told begun)) self.new) }
        ensures journal { self.new.journal ≡ self.old.journal }
        ensures err { OnErr result (self.new ≡ self.old) }
    {
        let begun = self.begun();
        let version = self.journal.version();
        let begun = self.build.begin(
            alloc,
            version,
            self.journal.content(),
            self.journal.since(begun),
        )?;
        Ok(begun)
    }

    /// The next object to expand, with the content to expand it over, where one waits. The cost is a search
    /// in what waits.
    pub fn hand(&mut self, alloc: Global) -> Result<Option<Job>, NoMemory>
        ensures step { IfOk result (λ job. IsHand
            (hand_step self.old.journal.site self.old.work self.old.target) self.old
            (option_map (λ j. j.obj) job) self.new) }
        ensures content { IfOk result (λ job. IfSome job (λ j. j.content ≡ content_at self.old.journal.site
            self.old.journal.commits (begun_version self.old.work self.old.target))) }
        ensures journal { self.new.journal ≡ self.old.journal }
        ensures err { OnErr result (self.new ≡ self.old) }
    {
        let job = self.build.hand(alloc)?;
        Ok(job)
    }

    /// Takes back an expansion, from whatever version of the site. One of a site with another frame is
    /// foreign, and changes nothing. The cost is that of `Build::put`.
    pub fn put(&mut self, alloc: Global, expanded: Arc<Expanded, Global>) -> Result<Put, NoMemory>
        ensures foreign { IfOk result (λ put. (put ≡ Put.Foreign)
            ↔ (expanded.value.frame ≢ frame_of self.old.journal.site)) }
        ensures stays { expanded.value.frame ≢ frame_of self.old.journal.site → self.new ≡ self.old }

        // The frames are the same.
        ensures ours { IfOk result (λ put. put ≢ Put.Foreign →
            expanded.value.frame ≡ frame_of self.old.journal.site) }
        ensures step { expanded.value.frame ≡ frame_of self.old.journal.site → IfOk result (λ put. IsPut
            (put_step self.old.journal.site expanded.value.obj expanded.value.notes self.old.work self.old.target)
            self.old expanded.value.obj put self.new) }
        ensures journal { self.new.journal ≡ self.old.journal }
        ensures err { OnErr result (self.new ≡ self.old) }
    {
        let put = self.build.put(alloc, expanded)?;
        Ok(put)
    }

    /// Gives looks to the next level, in as many threads as there are processors. The cost is that of
    /// `Build::join`.
    pub fn join(&mut self, rt: &(impl Threads + Sync), alloc: Global) -> Result<Joined, NoMemory>
        ensures step { IfOk result (λ joined. IsStep
            (join_step self.old.journal.site self.old.work self.old.target) self.old
            (machine.Told.Joins (joined_told joined)) self.new) }
        ensures journal { self.new.journal ≡ self.old.journal }
        ensures err { OnErr result (self.new ≡ self.old) }
    {
        let joined = self.build.join(rt, alloc)?;
        Ok(joined)
    }

    /// What closing the open work comes to, where all that is found has a look; else what `finish` answers.
    /// The works stay as they are. The cost is that of `Build::closing`.
    pub fn closing(&mut self, alloc: Global) -> Result<Result<Closing, Finish>, NoMemory>
        ensures closing { IfOk result (λ told. IfOk told (IsClosing (built_of self.old))) }
        ensures unclosed { IfOk result (λ told. IfErr told (λ finish. IsUnclosed finish × IsStep
            (finish_step self.old.journal.site self.old.work self.old.target) self.old
            (machine.Told.Finished (finish_told finish)) self.old)) }
        ensures stays { self.new ≡ self.old }
    {
        let closing = self.build.closing(alloc)?;
        Ok(closing)
    }

    /// Closes the open work, given what this comes to: its looks are the target. The cost is that of
    /// `Build::close`.
    pub fn close(&mut self, alloc: Global, closing: Closing) -> Result<Finish, NoMemory>
        requires { IsClosing (built_of self.old) closing }
        ensures step { IfOk result (λ finish. IsStep
            (finish_step self.old.journal.site self.old.work self.old.target) self.old
            (machine.Told.Finished (finish_told finish)) self.new) }
        ensures target { OnOk result (self.new.target ≡ Some closing.target.version) }
        ensures journal { self.new.journal ≡ self.old.journal }
        ensures err { OnErr result (self.new ≡ self.old) }
    {
        let finish = self.build.close(alloc, closing)?;
        Ok(finish)
    }

    /// How many live objects there are, where no work is open and there is a target.
    pub fn live(&self) -> u64
        requires idle { self.now.work ≡ None }
        requires made { IsSome self.now.target }
        ensures { IfSome self.now.target (λ v. result ≡ length (live (content_at self.now.journal.site
            self.now.journal.commits v))) }
    {
        self.build.known()
    }
}

// The commits that came.
ghost use Rattle.std.specs.Prelude.{◌≡◌, ◌≤◌, ◌++◌, ◌∷◌, [], IfErr, IfOk, None, OnErr, OnOk, drop, length, map, take};
ghost use Rattle.dup_model.specs.Journal.{commit_refusal};
ghost use Rattle.dup_model.specs.Versions.{content as content_after};
ghost use Rattle.dup_records.specs.JournalSizes.{IsSizeOf, limits_of};
ghost use Rattle.dup_records.specs.Refusals.{Names};

use dup_names::NoMemory;
use dup_records::{Commit, CommitRefusal, Content, JournalSize, Limits, apply};
use dup_template::Site;
use std::alloc::Global;
use std::marker::Model;
use std::sync::Arc;

/// The commits that came to a site, in order, with the content that they make.
#[derive(Drop)]
pub struct Journal {
    site: Arc<Site, Global>,
    limits: Limits,
    commits: Vec<Arc<Commit, Global>>,
    size: JournalSize,
    content: Content,
}

impl Model for Journal {
    ghost use Rattle.std.specs.Coded.{codes};
    ghost use Rattle.dup_template.specs.contracts.statement.Statement as statement;
    ghost use Rattle.dup_press.specs.Journaled.{Journaled};
    ghost use Rattle.dup_press.specs.Journal.{IsJournal, journal_in};

    ghost Value = { Journaled };

    ghost coded = { Prim.hlevel (codes, statement.the_row.coded) };

    ghost view = { journal_in };

    ghost invariant = { IsJournal };
}

impl Journal {
    /// The journal of a site before any commit.
    pub fn new(alloc: Global, site: Arc<Site, Global>, limits: Limits) -> Result<Journal, NoMemory>
        ensures { IfOk result (λ made. made ≡ record {
          site = site.value;
          limits = limits_of limits;
          commits = [];
        }) }
    {
        let content = Content::start(alloc, Arc::try_clone(&site)?)?;
        Ok(Journal {
            site,
            limits,
            commits: Vec::new(alloc),
            size: JournalSize::empty(),
            content,
        })
    }

    // Puts a commit behind the others, with the content and the size that there are then.
    fn push(
        &mut self,
        alloc: Global,
        commit: Commit,
        content: Content,
        size: JournalSize,
    ) -> Result<(), NoMemory>
        requires content { content ≡ content_after self.old.site (self.old.commits ++ commit ∷ []) }
        requires size { IsSizeOf size (self.old.commits ++ commit ∷ []) }
        ensures ok { OnOk result (self.new ≡ record self.old { commits = self.old.commits ++ commit ∷ [] }) }
        ensures err { OnErr result (self.new ≡ self.old) }
    {
        let commit = Arc::new(alloc, commit)?;
        self.commits.push(commit)?;
        self.content = content;
        self.size = size;
        Ok(())
    }

    /// Takes a commit that is accepted, and gives the version that it makes. Whether the journal has room
    /// is looked at first, then the changes in their order. A refused commit leaves the journal as it
    /// was, as does want of memory.
    ///
    /// The cost is that of `apply`.
    pub fn commit(&mut self, alloc: Global, commit: Commit) -> Result<u64, CommitRefusal>
        ensures version { IfOk result (λ version. version ≡ length self.new.commits) }
        ensures accepted { OnOk result (
            commit_refusal self.old.site self.old.limits self.old.commits commit ≡ None) }
        ensures ok { OnOk result (self.new ≡ record self.old { commits = self.old.commits ++ commit ∷ [] }) }
        ensures refused { IfErr result (λ why. Names why (
            commit_refusal self.old.site self.old.limits self.old.commits commit)) }
        ensures err { OnErr result (self.new ≡ self.old) }
    {
        let Some(size) = self.size.with(&self.limits, &commit) else {
            let JournalSize { commits, bytes } = self.size;
            return Err(CommitRefusal::JournalFull { commits, bytes });
        };
        let content = apply(alloc, &self.content, &commit, self.limits.rows)?;
        self.push(alloc, commit, content, size)?;
        Ok(size.commits)
    }

    /// The site.
    pub fn site(&self) -> &Arc<Site, Global>
        ensures { result.now.value ≡ self.now.site }
    {
        &self.site
    }

    /// The number of commits, which is that of the last version.
    pub fn version(&self) -> u64
        ensures { result ≡ length self.now.commits }
    {
        self.size.commits
    }

    /// The content of the last version.
    pub fn content(&self) -> &Content
        ensures { result.now ≡ content_after self.now.site self.now.commits }
    {
        &self.content
    }

    /// The commits behind a version, in order. It takes no memory.
    pub fn since(&self, version: u64) -> &[Arc<Commit, Global>]
        requires { version ≤ length self.now.commits }
        ensures { map (λ c. c.value) result.now ≡ drop version self.now.commits }
    {
        &self.commits[version as usize..]
    }

    /// The commits behind one version, up to another, in order. It takes no memory.
    pub fn between(&self, from: u64, to: u64) -> &[Arc<Commit, Global>]
        requires order { from ≤ to }
        requires within { to ≤ length self.now.commits }
        ensures { map (λ c. c.value) result.now ≡ drop from (take to self.now.commits) }
    {
        &self.commits[from as usize..to as usize]
    }
}

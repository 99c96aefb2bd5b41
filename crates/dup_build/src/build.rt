// Works, one after the other.
ghost use Rattle.std.specs.Prelude.{◌≡◌, ◌≢◌, ◌↔◌, ◌<◌, length, [], IsTrue, IsSome, IfErr, IfSome, None, Some, IfOk, OnOk, OnErr, map};
ghost use Rattle.std.specs.Option.{option_map};
ghost use Rattle.dup_names.specs.declared.object.Obj.{Obj};
ghost use Rattle.dup_model.specs.ChangedItems.{KeysAreKeys};
ghost use Rattle.dup_model.specs.Content.{start};
ghost use Rattle.dup_model.specs.Looks.{look};
ghost use Rattle.dup_model.specs.Pages.{page_looks, pages};
ghost use Rattle.dup_names.specs.Objects.{is_in};
ghost use Rattle.dup_model.specs.Touched.{touched, affected};
ghost use Rattle.dup_build.specs.Answers.{begun_told, finish_told, joined_told, ForTouched, IsUnclosed, SaysPut};
ghost use Rattle.dup_machine.specs.Works.{with_joined};
ghost use Rattle.dup_machine.specs.Works.{with_done};
ghost use Rattle.dup_model.specs.Commits.{after};
ghost use Rattle.std.specs.List.{fold};
ghost use Rattle.dup_build.specs.Nodes.{IsNode};
ghost use Rattle.std.specs.FinMap.Entries.{is_sorted};
ghost use Rattle.std.specs.List.Sorted.{IsStrictlySortedBy};
ghost use Rattle.dup_names.specs.Order.{text_cmp};
ghost use Rattle.dup_build.specs.Paths.{AreTouched, SameElsewhere};
ghost use Rattle.dup_build.specs.Targets.{looks_by_path, looks_of};
ghost use Rattle.dup_build.specs.Built as built;
ghost use Rattle.dup_build.specs.Closing.{CanClose, IsClosing};

use crate::answers::{Begun, Closing, Finish, Joined, Put};
use crate::hits::{hits_of, pages_change};
use crate::job::Job;
use crate::keyed::commits_keyed;
use crate::levels::{level_looks, level_of, plan};
use crate::node::Node;
use crate::reads::{drop_all, put_node};
use crate::spare::{Spare, spare_of, turn};
use crate::stock::{Stock, expansion_known};
use crate::turning::pages_of;
use crate::values::copy_value;
use dup_graph::Graph;
use dup_lists::Listed;
use dup_names::{Look, NoMemory, Obj};
use dup_records::{Commit, Content, changed};
use dup_render::{Expanded, Target};
use dup_sets::ObjSet;
use dup_template::Site;
use std::alloc::Global;
use std::marker::Model;
use std::sync::Arc;
use std::thread::Threads;

/// The looks of a version from those of the last: the works of a press, and their target.
#[derive(Drop)]
pub struct Build {
    version: u64,
    stock: Stock,
    graph: Graph,
    target: Option<Target>,
    spare: Option<Spare>,
    same_pages: bool,
    is_open: bool,
    last_handed: Option<Obj>,
    once: ObjSet,
    next: Option<Vec<Obj>>,
    expanded: u64,
    joined: u64,
}

impl Model for Build {
    ghost use Rattle.std.specs.Coded.{codes};
    ghost use Rattle.dup_template.specs.contracts.statement.Statement as statement;
    ghost use Rattle.dup_build.specs.Built.{Built};
    ghost use Rattle.dup_build.specs.Build.{as_built, IsBuild};

    ghost Value = { Built };

    ghost coded = { Prim.hlevel (codes, statement.the_row.coded) };

    ghost view = { as_built };

    ghost invariant = { IsBuild };
}

impl Build {
    /// A build of a site, before the first `begin`. The cost is that of listing the pages of the site
    /// without rows.
    pub fn new(alloc: Global, site: Arc<Site, Global>) -> Result<Build, NoMemory>
        ensures { IfOk result (λ made. made ≡ built.first_build (start site.value)) }
    {
        let content = Content::start(alloc, site)?;
        let stock = Stock::start(alloc, content)?;
        Ok(Build {
            version: 0,
            stock,
            graph: Graph::new(alloc)?,
            target: None,
            spare: None,
            same_pages: false,
            is_open: false,
            last_handed: None,
            once: ObjSet::new(alloc),
            next: None,
            expanded: 0,
            joined: 0,
        })
    }

    // Opens a work from the target, or the first work.
    fn open_at(
        &mut self,
        alloc: Global,
        version: u64,
        content: &Content,
        dropped: &ObjSet,
        stale: &ObjSet,
        same_pages: bool,
    ) -> Result<Begun, NoMemory>
        requires idle { self.old.works.work ≡ None }
        requires frame { self.old.works.content.frame ≡ content.now.frame }
        requires keys { KeysAreKeys content.now }
        requires pages { IsTrue same_pages → pages self.old.works.content ≡ pages content.now }
        requires dropped { (o : Obj) → IsTrue (is_in (built.done_in self.old.works) o) →
            is_in dropped.now o ≡ touched self.old.works.content content.now o }
        requires stale { (o : Obj) → IsTrue (is_in (built.looked_in self.old.works) o) → is_in stale.now o
            ≡ affected self.old.works.content content.now o }
        ensures told { IfOk result (λ told. begun_told told
            ≡ (built.opened version content.now self.old.works).0) }
        ensures build { OnOk result (self.new
            ≡ built.with_works (built.opened version content.now self.old.works).1 self.old) }
        ensures err { OnErr result (self.new ≡ self.old) }
    {
        let gone = dropped.list(alloc)?;
        self.stock
            .move_to(alloc, content, dropped, stale, same_pages)?;
        drop_all(&mut self.graph, &gone);
        self.same_pages &= same_pages;
        self.version = version;
        self.is_open = true;
        self.last_handed = None;
        self.once = ObjSet::new(alloc);
        self.next = None;
        self.expanded = 0;
        self.joined = 0;
        let waiting = self.stock.waiting() as u64;
        Ok(Begun::Work { version, waiting })
    }

    // Moves the open work.
    fn move_at(
        &mut self,
        alloc: Global,
        version: u64,
        content: &Content,
        dropped: &ObjSet,
        stale: &ObjSet,
        same_pages: bool,
    ) -> Result<Begun, NoMemory>
        requires busy { IsSome self.old.works.work }
        requires frame { self.old.works.content.frame ≡ content.now.frame }
        requires keys { KeysAreKeys content.now }
        requires pages { IsTrue same_pages → pages self.old.works.content ≡ pages content.now }
        requires dropped { (o : Obj) → IsTrue (is_in (built.done_in self.old.works) o) →
            is_in dropped.now o ≡ touched self.old.works.content content.now o }
        requires stale { (o : Obj) → IsTrue (is_in (built.looked_in self.old.works) o) → is_in stale.now o
            ≡ affected self.old.works.content content.now o }
        ensures told { IfOk result (λ told. begun_told told
            ≡ (built.opened version content.now self.old.works).0) }
        ensures build { OnOk result (self.new
            ≡ built.with_works (built.opened version content.now self.old.works).1 self.old) }
        ensures err { OnErr result (self.new ≡ self.old) }
    {
        let gone = dropped.list(alloc)?;
        self.stock
            .move_to(alloc, content, dropped, stale, same_pages)?;
        drop_all(&mut self.graph, &gone);
        self.same_pages &= same_pages;
        self.version = version;
        self.last_handed = None;
        self.next = None;
        let waiting = self.stock.waiting() as u64;
        Ok(Begun::Work { version, waiting })
    }

    // `begin` with the done objects that are touched, and those with looks that are affected.
    fn begin_over(
        &mut self,
        alloc: Global,
        version: u64,
        content: &Content,
        dropped: &ObjSet,
        stale: &ObjSet,
        same_pages: bool,
    ) -> Result<Begun, NoMemory>
        requires frame { self.old.works.content.frame ≡ content.now.frame }
        requires keys { KeysAreKeys content.now }
        requires pages { IsTrue same_pages → pages self.old.works.content ≡ pages content.now }
        requires dropped { (o : Obj) → IsTrue (is_in (built.done_in self.old.works) o) →
            is_in dropped.now o ≡ touched self.old.works.content content.now o }
        requires stale { (o : Obj) → IsTrue (is_in (built.looked_in self.old.works) o) → is_in stale.now o
            ≡ affected self.old.works.content content.now o }
        ensures told { IfOk result (λ told. begun_told told
            ≡ (built.begun version content.now self.old.works).0) }
        ensures build { OnOk result (self.new
            ≡ built.with_works (built.begun version content.now self.old.works).1 self.old) }
        ensures err { OnErr result (self.new ≡ self.old) }
    {
        if self.is_open {
            if self.version == version {
                return Ok(Begun::Same(self.version));
            }
            return self.move_at(alloc, version, content, dropped, stale, same_pages);
        }
        match &self.target {
            None => self.open_at(alloc, version, content, dropped, stale, same_pages),
            Some(target) => {
                if target.version == version {
                    return Ok(Begun::Nothing(target.version));
                }
                self.open_at(alloc, version, content, dropped, stale, same_pages)
            }
        }
    }

    /// Opens a work at a version, or moves the open one to it, over the content that these commits
    /// make of the one of the last `begin`, at first of the content without rows. Of what is kept it
    /// drops the skeletons that read a changed item, and the looks in which one of these is shown.
    ///
    /// The cost is that of the rows that the commits name, of a walk along the graph from the changed
    /// items, of what these reach and of what that embeds; where rows that have pages come or go, that of
    /// listing the pages too. Nothing is done for another object.
    pub fn begin(
        &mut self,
        alloc: Global,
        version: u64,
        content: &Content,
        commits: &[Arc<Commit, Global>],
    ) -> Result<Begun, NoMemory>
        requires commits { content.now ≡ fold after self.old.works.content (map (λ c. c.value) commits.now) }
        ensures told { IfOk result (λ told. begun_told told
            ≡ (built.begun version content.now self.old.works).0) }
        ensures build { OnOk result (self.new
            ≡ built.with_works (built.begun version content.now self.old.works).1 self.old) }
        ensures err { OnErr result (self.new ≡ self.old) }
    {
        commits_keyed(commits);
        let changed = changed(alloc, self.stock.content(), content, commits)?;
        let hits = hits_of(alloc, &self.graph, &changed)?;
        self.begin_over(
            alloc,
            version,
            content,
            &hits.dropped,
            &hits.stale,
            !pages_change(content, &changed),
        )
    }

    /// The version of the open work, where one is open. It takes no memory.
    pub fn work(&self) -> Option<u64>
        ensures { result ≡ option_map (λ work. work.version) self.now.works.work }
    {
        if !self.is_open {
            return None;
        }
        Some(self.version)
    }

    /// The target, where one was made. Its paths rise. It takes no memory.
    pub fn target(&self) -> Option<&Target>
        ensures version { option_map (λ t. t.now.version) result ≡ self.now.works.target }
        ensures looks { IfSome result (λ t. looks_of t.now ≡ self.now.pages) }
        ensures order { IsTrue (is_sorted text_cmp self.now.pages) }
    {
        self.target.as_ref()
    }

    /// The next object to expand, with the content to expand it over: the least that waits after the one
    /// handed last, or the least of all. `None` where none waits or no work is open; that takes no memory.
    ///
    /// The cost is a search in what waits.
    pub fn hand(&mut self, alloc: Global) -> Result<Option<Job>, NoMemory>
        ensures obj { IfOk result (λ job. option_map (λ j. j.obj) job ≡ (built.handed self.old.works).0) }
        ensures content { IfOk result (λ job. IfSome job (λ j. j.content ≡ self.old.works.content)) }
        ensures build { OnOk result (self.new ≡ built.with_works (built.handed self.old.works).1 self.old) }
        ensures err { OnErr result (self.new ≡ self.old) }

        // Memory is wanted only where an object is handed.
        ensures memory { OnErr result (IsSome (built.handed self.old.works).0) }
    {
        if !self.is_open {
            return Ok(None);
        }
        let Some(obj) = self.stock.next(&self.last_handed) else {
            return Ok(None);
        };
        let job = self.stock.job(alloc, &obj)?;
        self.last_handed = Some(obj);
        Ok(Some(job))
    }

    // Keeps the node of a waiting object, and what it reads and embeds, and tells how many wait then.
    fn keep(&mut self, alloc: Global, node: Node) -> Result<u64, NoMemory>
        requires busy { IsSome self.old.works.work }
        requires waits { IsTrue (built.waits_by self.old.works.content self.old.works.work
            node.expanded.value.obj) }
        requires node { IsNode self.old.works.content node.expanded.value.obj node }
        ensures waiting { IfOk result (λ waiting. waiting ≡ length (built.waiting_by self.old.works.content
            (option_map (with_done node.expanded.value.obj) self.old.works.work))) }
        ensures ok { OnOk result (self.new ≡ built.with_works (record self.old.works {
          work = option_map (with_done node.expanded.value.obj) self.old.works.work;
        }) self.old) }
        ensures err { OnErr result (self.new ≡ self.old) }
    {
        let obj = *node.expanded.obj();
        put_node(&mut self.graph, alloc, &obj, &node)?;
        let Err(refused) = self.stock.keep(alloc, node) else {
            self.expanded = self.expanded.saturating_add(1);
            self.next = None;
            return Ok(self.stock.waiting() as u64);
        };
        self.graph.drop_obj(&obj);
        Err(refused)
    }

    // Takes back an expansion that is asked for.
    fn put_asked(&mut self, alloc: Global, expanded: Arc<Expanded, Global>) -> Result<Put, NoMemory>
        requires site { expanded.value.frame ≡ self.old.works.content.frame }
        requires waits { IsTrue (built.waits_by self.old.works.content self.old.works.work
            expanded.value.obj) }
        ensures told { IfOk result (λ told. SaysPut expanded.value.obj told
            (built.put expanded.value.obj expanded.value.notes self.old.works).0) }
        ensures build { OnOk result (self.new
            ≡ built.with_works
            (built.put expanded.value.obj expanded.value.notes self.old.works).1 self.old) }
        ensures err { OnErr result (self.new ≡ self.old) }
    {
        if let Some(note) = self.stock.first_stale(expanded.notes()) {
            let noted = copy_value(alloc, &note.1)?;
            let present = self.stock.value(alloc, &note.0)?;
            return Ok(Put::Stale {
                item: note.0,
                noted,
                present,
            });
        }
        expansion_known(&expanded);
        let node = Node::of(alloc, expanded)?;
        let waiting = self.keep(alloc, node)?;
        Ok(Put::Kept { waiting })
    }

    // Takes back an expansion of a site with the build's frame.
    fn put_known(&mut self, alloc: Global, expanded: Arc<Expanded, Global>) -> Result<Put, NoMemory>
        requires site { expanded.value.frame ≡ self.old.works.content.frame }
        ensures told { IfOk result (λ told. SaysPut expanded.value.obj told
            (built.put expanded.value.obj expanded.value.notes self.old.works).0) }
        ensures build { OnOk result (self.new
            ≡ built.with_works
            (built.put expanded.value.obj expanded.value.notes self.old.works).1 self.old) }
        ensures err { OnErr result (self.new ≡ self.old) }
        ensures asked { OnErr result (IsTrue (built.waits_by self.old.works.content self.old.works.work
            expanded.value.obj)) }
    {
        if !self.is_open {
            return Ok(Put::Unasked);
        }
        if !self.stock.waits(expanded.obj()) {
            return Ok(Put::Unasked);
        }
        self.put_asked(alloc, expanded)
    }

    /// Takes back an expansion, from whatever version of the site: it is kept where its object waits
    /// and no note is stale. One of a site with another frame is refused first. That takes no memory, nor
    /// does one that isn't asked for.
    ///
    /// The cost is a comparison of the two sites' frames, a look-up for each note and for what the object
    /// embeds, and a walk over what is found by it.
    pub fn put(&mut self, alloc: Global, expanded: Arc<Expanded, Global>) -> Result<Put, NoMemory>
        ensures foreign { IfOk result (λ told. (told ≡ Put.Foreign)
            ↔ (expanded.value.frame ≢ self.old.works.content.frame)) }
        ensures stays { expanded.value.frame ≢ self.old.works.content.frame → self.new ≡ self.old }

        // The frames are the same.
        ensures ours { IfOk result (λ told. told ≢ Put.Foreign →
            expanded.value.frame ≡ self.old.works.content.frame) }
        ensures told { expanded.value.frame ≡ self.old.works.content.frame →
            IfOk result (λ told. SaysPut expanded.value.obj told
            (built.put expanded.value.obj expanded.value.notes self.old.works).0) }
        ensures build { expanded.value.frame ≡ self.old.works.content.frame →
            OnOk result (self.new
            ≡ built.with_works
            (built.put expanded.value.obj expanded.value.notes self.old.works).1 self.old) }
        ensures err { OnErr result (self.new ≡ self.old) }

        // Memory is wanted only where the frames are the same and the object waits.
        ensures memory { OnErr result (expanded.value.frame ≡ self.old.works.content.frame) }
        ensures asked { OnErr result (IsTrue (built.waits_by self.old.works.content self.old.works.work
            expanded.value.obj)) }
    {
        if !self.stock.has_frame_of(&expanded) {
            return Ok(Put::Foreign);
        }
        self.put_known(alloc, expanded)
    }

    /// How many objects have skeletons: where no work is open, all that are live at the target.
    pub fn known(&self) -> u64
        ensures { result ≡ length (built.done_in self.now.works) }
    {
        self.stock.known() as u64
    }

    // Puts in the looks of the next level, all of them or none, and plans the level above.
    pub(crate) fn join_level(
        &mut self,
        alloc: Global,
        level: &[Obj],
        looks: &[Arc<Look, Global>],
    ) -> Result<(), NoMemory>
        requires busy { IsSome self.old.works.work }
        requires calm { built.waiting_by self.old.works.content self.old.works.work ≡ [] }
        requires level { level.now ≡ built.level_by self.old.works.content self.old.works.work }
        requires looks { map (λ l. l.value) looks.now ≡ map (look self.old.works.content) level.now }
        ensures ok { OnOk result (self.new
            ≡ built.with_works (record self.old.works {
              work = option_map (with_joined level.now)
                  self.old.works.work;
            }) self.old) }
        ensures err { OnErr result (self.new ≡ self.old) }
    {
        self.once.len();
        let fresh = self.once.lacking(alloc, level)?;
        self.once.add_all(&fresh)?;
        let Err(refused) = self.stock.join(&self.graph, level, looks) else {
            self.joined = self.joined.saturating_add(level.len() as u64);
            self.next = plan(alloc, &self.stock, &self.graph, level);
            return Ok(());
        };
        self.once.remove_all(&fresh);
        Err(refused)
    }

    // Joins the next level of the open work.
    fn join_next(&mut self, rt: &(impl Threads + Sync), alloc: Global) -> Result<Joined, NoMemory>
        requires busy { IsSome self.old.works.work }
        requires calm { built.waiting_by self.old.works.content self.old.works.work ≡ [] }
        requires left { 0 < length (built.unjoined_by self.old.works.content self.old.works.work) }
        ensures told { IfOk result (λ told. joined_told told ≡ (built.joins self.old.works).0) }
        ensures build { OnOk result (self.new ≡ built.with_works (built.joins self.old.works).1 self.old) }
        ensures err { OnErr result (self.new ≡ self.old) }
    {
        let level = level_of(alloc, &self.stock, &self.next)?;
        let looks = level_looks(rt, alloc, &self.stock, &level)?;
        self.join_level(alloc, &level, &looks)?;
        Ok(Joined::Level(level.as_slice().len() as u64))
    }

    /// Gives looks to all found objects without one whose embedded objects all have looks, in as many
    /// threads as there are processors. The answer is the same for any number of threads.
    ///
    /// The cost is that of joining the level, and a search or two for each object that embeds one of it, of
    /// which it is known how many of its children have no look. The first level of a work, or one after
    /// memory ran out, costs a search for each found object without a look.
    pub fn join(&mut self, rt: &(impl Threads + Sync), alloc: Global) -> Result<Joined, NoMemory>
        ensures told { IfOk result (λ told. joined_told told ≡ (built.joins self.old.works).0) }
        ensures build { OnOk result (self.new ≡ built.with_works (built.joins self.old.works).1 self.old) }
        ensures err { OnErr result (self.new ≡ self.old) }
    {
        if !self.is_open {
            return Ok(Joined::Idle);
        }
        let waiting = self.stock.waiting();
        if waiting > 0 {
            return Ok(Joined::Waiting(waiting as u64));
        }
        if self.stock.unjoined() == 0 {
            return Ok(Joined::Done);
        }
        self.join_next(rt, alloc)
    }

    // What closing the open work comes to, where all that is found has a look.
    fn closing_now(&mut self, alloc: Global) -> Result<Closing, NoMemory>
        requires busy { IsSome self.old.works.work }
        requires calm { built.waiting_by self.old.works.content self.old.works.work ≡ [] }
        requires joined { built.unjoined_by self.old.works.content self.old.works.work ≡ [] }
        ensures closing { IfOk result (IsClosing self.old) }
        ensures stays { self.new ≡ self.old }
    {
        self.stock.content();
        let spare = self.spare.take();
        let last = pages_of(&self.target);
        let turned = turn(alloc, &self.stock, last, spare, self.same_pages, &self.once)?;
        Ok(Closing {
            target: Target {
                version: self.version,
                pages: Listed::of(turned.pages),
            },
            touched: Listed::of(turned.touched),
        })
    }

    /// What closing the open work comes to, where all that is found has a look; else what `finish` answers.
    /// The build stays as it is, and a work that can't be closed takes no memory.
    ///
    /// The cost is that of a search for each object that this work joined or the one before. Where other pages
    /// are listed than at the last target or at the one before, or an answer of this call led to no target, it
    /// is that of one walk over the pages and the last target's, side by side, with a search in what the work
    /// joined for each, and of a search for each page that isn't as it was. No looks are compared or copied.
    pub fn closing(&mut self, alloc: Global) -> Result<Result<Closing, Finish>, NoMemory>
        ensures closing { IfOk result (λ told. IfOk told (IsClosing self.old)) }
        ensures told { IfOk result (λ told. IfErr told (λ finish. finish_told finish
            ≡ (built.finished self.old.works).0)) }
        ensures unclosed { IfOk result (λ told. IfErr told (λ finish. IsUnclosed finish
            × (built.closed (built.finished self.old.works) self.old ≡ self.old))) }
        ensures memory { OnErr result (CanClose self.old) }
        ensures stays { self.new ≡ self.old }
    {
        if !self.is_open {
            return Ok(Err(Finish::Idle));
        }
        let waiting = self.stock.waiting();
        if waiting > 0 {
            return Ok(Err(Finish::Waiting(waiting as u64)));
        }
        let unjoined = self.stock.unjoined();
        if unjoined > 0 {
            return Ok(Err(Finish::Unjoined(unjoined as u64)));
        }
        let closing = self.closing_now(alloc)?;
        Ok(Ok(closing))
    }

    /// Closes the open work, given what this comes to.
    ///
    /// The cost is that of a search for what the work joined, and for what may have come loose since the last
    /// target, with the objects that embed it.
    pub fn close(&mut self, alloc: Global, closing: Closing) -> Result<Finish, NoMemory>
        requires { IsClosing self.old closing }
        ensures told { IfOk result (λ told. finish_told told ≡ (built.finished self.old.works).0) }
        ensures touched { IfOk result (λ told. ForTouched told (λ paths. paths ≡ closing.touched)) }
        ensures pages { OnOk result (self.new.pages ≡ looks_of closing.target) }
        ensures build { OnOk result (self.new ≡ built.closed (built.finished self.old.works) self.old) }
        ensures err { OnErr result (self.new ≡ self.old) }
    {
        self.once.len();
        let once = self.once.list(alloc)?;
        let mut behind = Vec::new(alloc);
        behind.extend_from_slice(closing.touched.items())?;
        let gone = self.stock.forget(alloc, &self.graph)?;
        drop_all(&mut self.graph, &gone);
        let kept = self.stock.kept(&once) as u64;
        let version = self.version;
        let last = self.target.take();
        self.target = Some(closing.target);
        self.spare = spare_of(last, behind, self.same_pages);
        self.same_pages = true;
        self.next = None;
        self.is_open = false;
        Ok(Finish::Report {
            version,
            expanded: self.expanded,
            joined: self.joined,
            kept,
            touched: closing.touched,
        })
    }

    /// Closes the open work, where all that is found has a look: its looks are the target. A report
    /// tells the touched paths in path order, away from which the target is as it was.
    ///
    /// The cost is that of `closing` and `close`. A work that can't be closed takes no memory.
    pub fn finish(&mut self, alloc: Global) -> Result<Finish, NoMemory>
        ensures told { IfOk result (λ told. finish_told told ≡ (built.finished self.old.works).0) }
        ensures touched { IfOk result (λ told. ForTouched told
            (AreTouched (built.once_by self.old.works.work) self.old.pages self.new.pages)) }
        ensures order { IfOk result (λ told. ForTouched told (IsStrictlySortedBy text_cmp)) }
        ensures elsewhere { IfOk result (λ told. ForTouched told (λ paths.
            SameElsewhere paths self.old.pages self.new.pages)) }
        ensures build { OnOk result (self.new ≡ built.closed (built.finished self.old.works) self.old) }
        ensures memory { OnErr result (CanClose self.old) }
        ensures err { OnErr result (self.new ≡ self.old) }
    {
        match self.closing(alloc)? {
            Err(finish) => Ok(finish),
            Ok(closing) => {
                let finish = self.close(alloc, closing)?;
                Ok(finish)
            }
        }
    }
}

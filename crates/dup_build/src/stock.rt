// What is kept of the objects of a content.
ghost use Rattle.std.specs.Prelude.{◌≡◌, ◌↔◌, ◌∷◌, ◌++◌, [], false, Some, if◌then◌else◌, IsTrue, IfSome, IfOk, OnOk, OnErr, None, length, map};
ghost use Rattle.dup_names.specs.Order.{obj_cmp};
ghost use Rattle.dup_names.specs.Words.{in_order};
ghost use Rattle.dup_names.specs.declared.object.Obj.{Obj};
ghost use Rattle.dup_template.specs.Paths.{KeyOk};
ghost use Rattle.std.specs.Option.{option_copied};
ghost use Rattle.dup_model.specs.Content.{value};
ghost use Rattle.dup_model.specs.Embeddings.{EmbedsEarlier};
ghost use Rattle.dup_model.specs.Expansions.{IsGoodExpansion};
ghost use Rattle.dup_model.specs.Jobs.{JobsFit};
ghost use Rattle.dup_model.specs.ChangedItems.{KeysAreKeys};
ghost use Rattle.dup_names.specs.Objects.{is_in, same_obj};
ghost use Rattle.dup_model.specs.Touched.{without, touched, affected};
ghost use Rattle.dup_model.specs.Found.{found, waiting};
ghost use Rattle.dup_machine.specs.Works.{next_of};
ghost use Rattle.dup_model.specs.Expansions.{stale as stale_note};
ghost use Rattle.std.specs.List.{All, filter, list_all, list_any};
ghost use Rattle.dup_model.specs.Looks.{look};
ghost use Rattle.dup_model.specs.Skeletons.{embeds};
ghost use Rattle.dup_join.specs.Jobs.{look_of};
ghost use Rattle.dup_model.specs.Pages.{live, pages};
ghost use Rattle.dup_sets.specs.Entries.{objs};
ghost use Rattle.dup_build.specs.Looked.{look_at, last_look};
ghost use Rattle.dup_build.specs.Paths.{AreLooked};
ghost use Rattle.dup_build.specs.Nodes.{IsNode};
ghost use Rattle.dup_machine.specs.Closed.{IsClosed};
ghost use Rattle.dup_machine.specs.Reached.{Reached, opened};
ghost use Rattle.dup_build.specs.Stocked.{is_met, waiting_in, unjoined_in, level_in};
ghost use Rattle.dup_walk.specs.OverReads.{HasReads};

use crate::job::Job;
use crate::loose::unheld;
use crate::missing::{count_missing, count_new, lower_above};
use crate::node::{Node, Shown};
use crate::reach::reach;
use crate::survey::Survey;
use crate::values::first_stale;
use dup_graph::Graph;
use dup_join::JoinJob;
use dup_lists::Listed;
use dup_names::{Item, Key, Look, NoMemory, Obj, Path};
use dup_records::Content;
use dup_render::Expanded;
use dup_sets::{ObjSet, Table};
use dup_template::Value;
use std::alloc::Global;
use std::marker::Model;
use std::sync::Arc;

/// The skeletons of a content's objects that are done, the looks of those that have one, what a work
/// finds at the content and has left to do, and how many children of what has no look have none.
#[derive(Drop)]
pub(crate) struct Stock {
    content: Content,
    nodes: Table<Node>,
    looks: Table<Shown>,
    progress: Survey,
    missing: Table<u64>,
}

impl Model for Stock {
    ghost use Rattle.std.specs.Coded.{codes};
    ghost use Rattle.dup_template.specs.contracts.statement.Statement as statement;
    ghost use Rattle.dup_sets.specs.Entries.{objs};
    ghost use Rattle.dup_build.specs.Stocked.{Stocked};
    ghost use Rattle.dup_build.specs.Stock.{IsCounted};

    ghost Value = { Stocked };

    ghost coded = { Prim.hlevel (codes, statement.the_row.coded) };

    ghost view = { λ a. record { content = a.content; done = objs a.nodes; looked = objs a.looks } };

    ghost invariant = { λ a. IsCounted a.content a.nodes a.looks a.progress a.missing };
}

fn site_known(content: &Content)
    ensures earlier { EmbedsEarlier content.now }
    ensures fit { JobsFit content.now }
{
    content.site().parts();
}

fn key_known(key: &Option<Key>)
    ensures { KeyOk key.now }
{
    match key {
        None => {}
        Some(key) => {
            key.bytes();
        }
    }
}

pub(crate) fn expansion_known(expanded: &Expanded)
    ensures { IsGoodExpansion expanded.now }
{
    expanded.notes();
}

// Those of these objects that aren't in a table.
fn outside<T>(alloc: Global, found: &[Obj], table: &Table<T>) -> Result<Vec<Obj>, NoMemory>
    ensures { IfOk result (λ made. made.items ≡ without (is_in (objs table.now)) found.now) }
{
    let mut out = Vec::new(alloc);
    for obj in found {
        if !table.has(obj) {
            out.push(*obj)?;
        }
    }
    Ok(out)
}

// How many of these objects are in a table.
fn count_in<T>(among: &[Obj], table: &Table<T>) -> usize
    ensures { result ≡ length (filter (is_in (objs table.now)) among.now) }
{
    among.iter().filter(|obj| table.has(obj)).count()
}

fn add_look(looks: &mut Table<Shown>, look: &Arc<Look, Global>) -> Result<(), NoMemory>
    ensures objs { OnOk result (objs looks.new ≡ in_order obj_cmp (look.now.value.obj ∷ objs looks.old)) }
    ensures looks { OnOk result ((q : Obj) → look_at looks.new q
        ≡ (if same_obj q look.now.value.obj then Some look.now.value else look_at looks.old q)) }
    ensures err { OnErr result (looks.new ≡ looks.old) }
    ensures rising { in_order obj_cmp (objs looks.old) ≡ objs looks.old }
{
    looks.len();
    let shown = Shown {
        look: Arc::try_clone(look)?,
    };
    looks.add(look.obj, shown)
}

// Puts in the looks of a level, of which no object has one: all of them, or none.
fn add_looks(
    looks: &mut Table<Shown>,
    level: &[Obj],
    made: &[Arc<Look, Global>],
) -> Result<(), NoMemory>
    requires level { level.now ≡ map (λ l. l.value.obj) made.now }
    requires apart { (x : Obj) → IsTrue (is_in level.now x) → is_in (objs looks.old) x ≡ false }
    ensures objs { OnOk result (objs looks.new ≡ in_order obj_cmp (level.now ++ objs looks.old)) }
    ensures looks { OnOk result ((q : Obj) → look_at looks.new q
        ≡ last_look q (look_at looks.old q) (map (λ l. l.value) made.now)) }
    ensures same_objs { OnErr result (objs looks.new ≡ objs looks.old) }
    ensures same { OnErr result ((q : Obj) → look_at looks.new q ≡ look_at looks.old q) }
{
    looks.len();
    for look in made {
        let Err(refused) = add_look(looks, look) else {
            continue;
        };
        looks.remove_all(level);
        return Err(refused);
    }
    Ok(())
}

// Objects that are found and have no look, and those of them that aren't done.
#[derive(Drop)]
struct News {
    waiting: Listed<Obj>,
    unjoined: Listed<Obj>,
}

impl Stock {
    /// Nothing is done at a content.
    pub(crate) fn start(alloc: Global, content: Content) -> Result<Stock, NoMemory>
        requires { KeysAreKeys content }
        ensures { IfOk result (λ made. made ≡ record { content = content; done = []; looked = [] }) }
    {
        site_known(&content);
        let nodes = Table::new(alloc);
        let looks = Table::new(alloc);
        let none = ObjSet::new(alloc);
        let last = Survey::none(alloc)?;
        let progress = Survey::of(alloc, &content, &last, &nodes, &none, &looks, &none, false)?;
        Ok(Stock {
            content,
            nodes,
            looks,
            progress,
            missing: Table::new(alloc),
        })
    }

    /// Goes on to a content: the touched objects are no longer done, and the affected looks leave.
    pub(crate) fn move_to(
        &mut self,
        alloc: Global,
        content: &Content,
        dropped: &ObjSet,
        stale: &ObjSet,
        same_pages: bool,
    ) -> Result<(), NoMemory>
        requires frame { self.old.content.frame ≡ content.now.frame }
        requires pages { IsTrue same_pages → pages self.old.content ≡ pages content.now }
        requires keys { KeysAreKeys content.now }
        requires dropped { (o : Obj) → IsTrue (is_in self.old.done o) → is_in dropped.now o
            ≡ touched self.old.content content.now o }
        requires stale { (o : Obj) → IsTrue (is_in self.old.looked o) → is_in stale.now o
            ≡ affected self.old.content content.now o }
        ensures ok { OnOk result (self.new ≡ record {
          content = content.now;
          done = without (touched self.old.content content.now) self.old.done;
          looked = without (affected self.old.content content.now) self.old.looked;
        }) }
        ensures err { OnErr result (self.new ≡ self.old) }
    {
        site_known(&self.content);
        site_known(content);
        let progress = Survey::of(
            alloc,
            content,
            &self.progress,
            &self.nodes,
            dropped,
            &self.looks,
            stale,
            same_pages,
        )?;
        let mut missing = Table::new(alloc);
        let unjoined = progress.unjoined.list(alloc)?;
        count_missing(
            &mut missing,
            &self.nodes,
            dropped,
            &self.looks,
            stale,
            &unjoined,
        )?;
        let dropped = dropped.list(alloc)?;
        let stale = stale.list(alloc)?;
        let content = content.copy(alloc)?;
        self.nodes.remove_all(&dropped);
        self.looks.remove_all(&stale);
        self.content = content;
        self.progress = progress;
        self.missing = missing;
        Ok(())
    }

    /// The content.
    pub(crate) fn content(&self) -> &Content
        ensures value { result.now ≡ self.now.content }
        ensures keys { KeysAreKeys self.now.content }
        ensures earlier { EmbedsEarlier self.now.content }
        ensures keyed { (o : Obj) → IsTrue (is_in self.now.done o) → KeyOk o.key }
        ensures closed { IsClosed self.now.content self.now.done self.now.looked }
    {
        site_known(&self.content);
        &self.content
    }

    /// How many objects wait.
    pub(crate) fn waiting(&self) -> usize
        ensures { result ≡ length (waiting_in self.now) }
    {
        self.progress.waiting.len()
    }

    /// How many found objects have no look.
    pub(crate) fn unjoined(&self) -> usize
        ensures { result ≡ length (unjoined_in self.now) }
    {
        self.progress.unjoined.len()
    }

    /// Whether an expansion is of a site with the content's frame.
    pub(crate) fn has_frame_of(&self, expanded: &Expanded) -> bool
        ensures { IsTrue result ↔ (expanded.now.frame ≡ self.now.content.frame) }
    {
        expanded.site().has_frame_of(self.content.site())
    }

    /// Whether an object waits.
    pub(crate) fn waits(&self, obj: &Obj) -> bool
        ensures { result ≡ is_in (waiting_in self.now) obj.now }
    {
        self.progress.waiting.contains(obj)
    }

    /// The least waiting object after the last one, or the least of all.
    pub(crate) fn next(&self, last: &Option<Obj>) -> Option<Obj>
        ensures value { result ≡ next_of last.now (waiting_in self.now) }
        ensures waits { IfSome result (λ obj. IsTrue (is_in (waiting_in self.now) obj)) }
    {
        self.progress.waiting.next(last)
    }

    /// The job of a waiting object.
    pub(crate) fn job(&self, alloc: Global, obj: &Obj) -> Result<Job, NoMemory>
        requires { IsTrue (is_in (waiting_in self.now) obj.now) }
        ensures obj { IfOk result (λ job. job.obj ≡ obj.now) }
        ensures content { IfOk result (λ job. job.content ≡ self.now.content) }
    {
        site_known(&self.content);
        let content = self.content.copy(alloc)?;
        Ok(Job { content, obj: *obj })
    }

    /// The value of an item.
    pub(crate) fn value(&self, alloc: Global, item: &Item) -> Result<Value, NoMemory>
        ensures { IfOk result (λ made. made ≡ value self.now.content item.now) }
    {
        self.content.value(alloc, item)
    }

    /// The first note whose value isn't that of the content.
    pub(crate) fn first_stale<'a>(&self, notes: &'a [(Item, Value)]) -> Option<&'a (Item, Value)>
        ensures { option_copied result ≡ stale_note self.now.content notes.now }
    {
        first_stale(&self.content, notes)
    }

    // What is found once an object with this node is done.
    fn news(&self, alloc: Global, node: &Node) -> Result<News, NoMemory>
        ensures unjoined { IfOk result (λ news. (g : Obj) → IsTrue (is_in news.unjoined g)
            ↔ Reached (opened self.now.content self.now.done) (is_met self.now) node.now.children g) }
        ensures waiting { IfOk result (λ news.
            news.waiting ≡ without (is_in self.now.done) news.unjoined) }
    {
        site_known(&self.content);
        let none = ObjSet::new(alloc);
        let fresh = reach(
            alloc,
            &self.nodes,
            &none,
            &self.looks,
            &none,
            &self.progress.unjoined,
            node.children.items(),
        )?;
        let unjoined = fresh.list(alloc)?;
        let waiting = outside(alloc, &unjoined, &self.nodes)?;
        Ok(News {
            waiting: Listed::of(waiting),
            unjoined: Listed::of(unjoined),
        })
    }

    // Puts in the node of a waiting object, and what is found by it.
    fn put_in(&mut self, alloc: Global, obj: Obj, node: Node, news: &News) -> Result<(), NoMemory>
        requires waits { IsTrue (is_in (waiting_in self.old) obj) }
        requires keyed { KeyOk obj.key }
        requires node { IsNode self.old.content obj node }
        requires unjoined { (g : Obj) → IsTrue (is_in news.now.unjoined g)
            ↔ Reached (opened self.old.content self.old.done) (is_met self.old) node.children g }
        requires waiting { news.now.waiting ≡ without (is_in self.old.done) news.now.unjoined }
        ensures ok { OnOk result (self.new ≡ record self.old {
          done = in_order obj_cmp (obj
              ∷ self.old.done);
        }) }
        ensures err { OnErr result (self.new ≡ self.old) }
    {
        site_known(&self.content);
        count_new(
            alloc,
            &mut self.missing,
            &self.nodes,
            &self.looks,
            &obj,
            &node,
            news.unjoined.items(),
        )?;
        self.nodes.add(obj, node)?;
        let Err(refused) = self
            .progress
            .grow(news.waiting.items(), news.unjoined.items())
        else {
            self.progress.waiting.remove(&obj);
            return Ok(());
        };
        self.nodes.remove(&obj);
        Err(refused)
    }

    /// Keeps the node of a waiting object. The cost is that of what it embeds, and of what is found by
    /// it.
    pub(crate) fn keep(&mut self, alloc: Global, node: Node) -> Result<(), NoMemory>
        requires waits { IsTrue (is_in (waiting_in self.old) node.expanded.value.obj) }
        requires node { IsNode self.old.content node.expanded.value.obj node }
        ensures ok { OnOk result (self.new ≡ record self.old {
          done = in_order obj_cmp (node.expanded.value.obj ∷ self.old.done);
        }) }
        ensures err { OnErr result (self.new ≡ self.old) }
    {
        let obj = *node.expanded.obj();
        key_known(&obj.key);
        let news = self.news(alloc, &node)?;
        self.put_in(alloc, obj, node, &news)
    }

    // Whether all that a done object embeds has looks, where it is found without one.
    fn is_ready(&self, obj: &Obj) -> bool
        requires unjoined { IsTrue (is_in (unjoined_in self.now) obj.now) }
        requires done { IsTrue (is_in self.now.done obj.now) }
        ensures { result ≡ list_all (is_in self.now.looked) (opened self.now.content self.now.done obj.now) }
    {
        match self.missing.get(obj) {
            None => false,
            Some(count) => *count == 0,
        }
    }

    // Whether an object stands in the next level.
    fn is_next(&self, obj: &Obj) -> bool
        requires { waiting_in self.now ≡ [] }
        ensures { result ≡ is_in (level_in self.now) obj.now }
    {
        self.progress.unjoined.contains(obj) && self.is_ready(obj)
    }

    /// Those of these objects that stand in the next level. The cost is a search for each of them.
    pub(crate) fn next_among(&self, alloc: Global, objs: &[Obj]) -> Result<Vec<Obj>, NoMemory>
        requires { waiting_in self.now ≡ [] }
        ensures { IfOk result (λ made. made.items ≡ filter (is_in (level_in self.now)) objs.now) }
    {
        let mut made = Vec::new(alloc);
        for obj in objs {
            if self.is_next(obj) {
                made.push(*obj)?;
            }
        }
        Ok(made)
    }

    /// The next level: the found objects without a look whose embedded objects all have looks. Each
    /// found object without a look is tried.
    pub(crate) fn level(&self, alloc: Global) -> Result<Vec<Obj>, NoMemory>
        requires { waiting_in self.now ≡ [] }
        ensures { IfOk result (λ level. level.items ≡ level_in self.now) }
    {
        let unjoined = self.progress.unjoined.list(alloc)?;
        let level = self.next_among(alloc, &unjoined)?;
        Ok(level)
    }

    // The looks of objects that have one.
    fn looks_of(&self, alloc: Global, objs: &[Obj]) -> Result<Vec<Arc<Look, Global>>, NoMemory>
        requires { (g : Obj) → IsTrue (is_in objs.now g) → IsTrue (is_in self.now.looked g) }
        ensures { IfOk result (λ made. map (λ l. l.value) made.items ≡ map (look self.now.content) objs.now) }
    {
        let mut made = Vec::with_capacity(alloc, objs.len())?;
        for obj in objs {
            made.push(self.look(obj)?)?;
        }
        Ok(made)
    }

    /// What joins a done object, where all that it embeds has looks.
    pub(crate) fn join_job(&self, alloc: Global, obj: &Obj) -> Result<JoinJob, NoMemory>
        requires done { IsTrue (is_in self.now.done obj.now) }
        requires looked { IsTrue (list_all (is_in self.now.looked) (embeds self.now.content obj.now)) }
        ensures { IfOk result (λ job. look_of job ≡ look self.now.content obj.now) }
    {
        site_known(&self.content);
        let node = self.nodes.get(obj).unwrap();
        let parts = self.looks_of(alloc, node.children.items())?;
        let skeleton = Arc::try_clone(node.expanded.skeleton())?;
        let Obj { template, key } = *obj;
        Ok(JoinJob {
            obj: Obj { template, key },
            skeleton,
            parts: Listed::of(parts),
        })
    }

    /// Puts in the looks of a level: all of them, or none. Each object of the level that is next then
    /// embeds one of this level. The cost is that of the level, and of a search for each object that embeds one
    /// of it.
    pub(crate) fn join(
        &mut self,
        graph: &Graph,
        level: &[Obj],
        looks: &[Arc<Look, Global>],
    ) -> Result<(), NoMemory>
        requires calm { waiting_in self.old ≡ [] }
        requires reads { HasReads self.old.content self.old.done graph.now }
        requires level { level.now ≡ level_in self.old }
        requires looks { map (λ l. l.value) looks.now ≡ map (look self.old.content) level.now }
        ensures ok { OnOk result (self.new
            ≡ record self.old { looked = in_order obj_cmp (level.now ++ self.old.looked) }) }
        ensures above { OnOk result ((o : Obj) → IsTrue (is_in (level_in self.new) o) →
            IsTrue (list_any (is_in (embeds self.old.content o)) level.now)) }
        ensures err { OnErr result (self.new ≡ self.old) }
    {
        add_looks(&mut self.looks, level, looks)?;
        self.progress.unjoined.remove_all(level);
        lower_above(&mut self.missing, graph, level);
        Ok(())
    }

    /// Forgets the objects that aren't live, where all that is found has a look, and tells which. The cost is
    /// that of what may have come loose since the last time; where anything goes, that of the pages too.
    pub(crate) fn forget(&mut self, alloc: Global, graph: &Graph) -> Result<Vec<Obj>, NoMemory>
        requires calm { waiting_in self.old ≡ [] }
        requires joined { unjoined_in self.old ≡ [] }
        requires reads { HasReads self.old.content self.old.done graph.now }
        ensures gone { IfOk result (λ gone. (o : Obj) →
            IsTrue (is_in gone.items o) → is_in (found self.old.content self.old.done) o ≡ false) }
        ensures ok { OnOk result (self.new
            ≡ record self.old { done = live self.old.content; looked = live self.old.content }) }
        ensures err { OnErr result (self.new ≡ self.old) }
    {
        site_known(&self.content);
        self.nodes.len();
        self.looks.len();
        let gone = unheld(
            alloc,
            graph,
            &self.nodes,
            &self.progress.pages,
            &self.progress.loose,
        )?;
        let gone = gone.list(alloc)?;
        self.nodes.remove_all(&gone);
        self.looks.remove_all(&gone);
        self.progress.loose = ObjSet::new(alloc);
        self.missing = Table::new(alloc);
        Ok(gone)
    }

    /// How many objects have skeletons.
    pub(crate) fn known(&self) -> usize
        ensures { result ≡ length self.now.done }
    {
        self.nodes.len()
    }

    /// The look of an object that has one.
    pub(crate) fn look(&self, obj: &Obj) -> Result<Arc<Look, Global>, NoMemory>
        requires { IsTrue (is_in self.now.looked obj.now) }
        ensures { IfOk result (λ made. made.value ≡ look self.now.content obj.now) }
    {
        let shown = self.looks.get(obj).unwrap();
        Ok(Arc::try_clone(&shown.look)?)
    }

    /// The pages, in path order, where all that is found has a look.
    pub(crate) fn pages(&self) -> &[(Path, Obj)]
        requires { unjoined_in self.now ≡ [] }
        ensures pages { result.now ≡ pages self.now.content }
        ensures looked { AreLooked self.now.looked result.now }
    {
        site_known(&self.content);
        self.progress.pages.items()
    }

    /// How many objects that have skeletons aren't among these, which are in object order. The cost is a
    /// search for each of these.
    pub(crate) fn kept(&self, once: &[Obj]) -> usize
        requires { in_order obj_cmp once.now ≡ once.now }
        ensures { result ≡ length (without (is_in once.now) self.now.done) }
    {
        self.nodes.len() - count_in(once, &self.nodes)
    }
}

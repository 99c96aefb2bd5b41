// A node, which serves requests from its cache.
ghost use Rattle.std.specs.Prelude.{◌≡◌, ◌≤◌, [], IfOk, List, OnErr, OnOk, Some, length};
ghost use Rattle.std.specs.Option.{option_map};
ghost use Rattle.std.specs.FinMap as fin;
ghost use Rattle.dup_model.specs.Answers.{after_refresh, missed, refreshed};
ghost use Rattle.dup_model.specs.Answers as answers;
ghost use Rattle.dup_model.specs.Caches.{catch_up, entry};
ghost use Rattle.dup_model.specs.Editions.{Bundle, Edition};
ghost use Rattle.dup_model.specs.Serving.{HoldsPagesOf, IsTrueReply};
ghost use Rattle.dup_cache.specs.Entries.{evicted, has_path};
ghost use Rattle.dup_cache.specs.Holding.{AreOf, BeginsWith};
ghost use Rattle.dup_node.specs.Replies.{
  Gives,
  IsAnswered,
  hit,
  how_told,
  is_kept,
  ready,
  reply_told,
  was_kept,
};

use crate::reply::Reply;
use dup_cache::{How, MAX_CACHE_ENTRIES, PageCache, Window};
use dup_edition::Page;
use dup_model::Mode;
use dup_names::{NoMemory, Pass, Path};
use std::alloc::Global;
use std::marker::Model;
use std::sync::Arc;

// The entry of a path, which comes to the front, where the cache is no older than the pass.
fn ready_page(
    cache: &mut PageCache,
    pass: Pass,
    path: &Path,
) -> Result<Option<Arc<Page, Global>>, NoMemory>
    ensures page { IfOk result (λ found. option_map (λ p. p.value) found ≡ ready cache.old pass.0 path.now) }
    ensures cache { OnOk result (cache.new ≡ hit cache.old (ready cache.old pass.0 path.now)) }
    ensures err { OnErr result (cache.new ≡ cache.old) }
{
    if cache.edition() < pass.0 {
        return Ok(None);
    }
    let found = cache.find(path)?;
    Ok(found)
}

// Keeps a page that is no entry.
fn keep(cache: &mut PageCache, page: &Arc<Page, Global>) -> How
    ensures how { (missed cache.old (was_kept result) (Some page.now.value)).reply
        ≡ answers.Reply.Found cache.old.number page.now.value (how_told result) }
    ensures cache { cache.new ≡ (missed cache.old (was_kept result) (Some page.now.value)).cache }
{
    match Arc::try_clone(page) {
        Ok(owner) => match cache.keep(owner) {
            Ok(()) => How::Miss,
            Err(NoMemory) => How::MissUnkept,
        },
        Err(_) => How::MissUnkept,
    }
}

// The answer of a cache that has caught up with an edition, whose page at the path this is.
fn answered(
    cache: &mut PageCache,
    pass: Pass,
    path: &Path,
    page: Option<Arc<Page, Global>>,
) -> Reply
    ensures { (e : Edition) → AreOf e cache.old.entries →
        option_map (λ p. p.value) page ≡ fin.get e path.now →
        Gives (refreshed cache.old e pass.0 path.now (is_kept result)) result cache.new }
{
    let edition = cache.edition();
    if edition < pass.0 {
        return Reply::Ahead { pass, edition };
    }
    match page {
        Some(page) => found(cache, path, page),
        None => Reply::Absent { edition },
    }
}

// The answer where the edition has a page.
fn found(cache: &mut PageCache, path: &Path, page: Arc<Page, Global>) -> Reply
    ensures { (e : Edition) → AreOf e cache.old.entries → Some page.value ≡ fin.get e path.now →
        Gives (after_refresh cache.old e path.now (is_kept result) (entry cache.old path.now))
        result cache.new }
{
    let edition = cache.edition();
    if cache.touch(path) {
        return Reply::Found {
            edition,
            page,
            how: How::Hit,
        };
    }
    let how = keep(cache, &page);
    Reply::Found { edition, page, how }
}

/// What serves requests from a cache of pages.
#[derive(Drop)]
pub struct Node {
    cache: PageCache,
}

impl Model for Node {
    ghost use Rattle.dup_model.specs.Caches.{Cache};

    ghost Value = { Cache };

    ghost view = { λ n. n.cache };
}

impl Node {
    /// A node with an empty cache at edition 0, for 1 to `MAX_CACHE_ENTRIES` pages.
    pub fn new(alloc: Global, capacity: u32, mode: Mode) -> Result<Node, NoMemory>
        requires some { 1 ≤ capacity }
        requires fits { capacity ≤ MAX_CACHE_ENTRIES }
        ensures { IfOk result (λ made. made
            ≡ record { capacity = capacity; mode = mode; number = 0; entries = [] }) }
    {
        let cache = PageCache::new(alloc, capacity, mode)?;
        Ok(Node { cache })
    }

    /// The number of its edition.
    pub fn edition(&self) -> u64
        ensures { result ≡ self.now.number }
    {
        self.cache.edition()
    }

    /// The number of its pages.
    pub fn len(&self) -> u32
        ensures { result ≡ length self.now.entries }
    {
        self.cache.len()
    }

    /// Answers a request: from the cache where its edition is no older than the pass, and else from the
    /// newest edition that the window sees, to which the cache catches up. A page that was missed is kept,
    /// or told as unkept for want of memory. After want of memory in place of a reply the node and the
    /// window's log are as before.
    ///
    /// A hit in a cache no older than the pass costs two look-ups by the path's bytes and a move to the
    /// front, and doesn't touch the window; any other reply costs a refresh of the window besides.
    pub fn serve<W: Window>(
        &mut self,
        alloc: Global,
        window: &mut W,
        pass: Pass,
        path: &Path,
    ) -> Result<Reply, NoMemory>
        requires { HoldsPagesOf (W.log window.old) self.old }
        ensures reply { IfOk result (λ reply.
            IsAnswered self.old (W.log window.new) pass.0 path.now reply self.new) }
        ensures told { IfOk result (λ reply.
            IsTrueReply (W.log window.new) pass.0 path.now (reply_told reply)) }
        ensures holds { HoldsPagesOf (W.log window.new) self.new }
        ensures grows { BeginsWith (W.log window.new) (W.log window.old) }
        ensures err { OnErr result ((self.new ≡ self.old) × (W.log window.new ≡ W.log window.old)) }
        ensures place { W.place window.new ≡ W.place window.old }
        ensures admits { W.admits window.old (W.log window.old)
            → W.admits window.new (W.log window.new) }
        ensures narrows { (l : List Bundle) → W.admits window.new l → W.admits window.old l }
        ensures heard { (l : List Bundle) → W.heard window.old l → W.heard window.new l }
    {
        if let Some(page) = ready_page(&mut self.cache, pass, path)? {
            return Ok(Reply::Found {
                edition: self.cache.edition(),
                page,
                how: How::Hit,
            });
        }
        let page = window.refresh(alloc, &mut self.cache, path)?;
        Ok(answered(&mut self.cache, pass, path, page))
    }

    /// Catches up with the newest edition that the window sees, by one refresh; which path is looked up
    /// in it decides nothing. After want of memory the node and the window's log are as before.
    pub fn deliver<W: Window>(
        &mut self,
        alloc: Global,
        window: &mut W,
        path: &Path,
    ) -> Result<(), NoMemory>
        requires { HoldsPagesOf (W.log window.old) self.old }
        ensures ok { OnOk result (self.new ≡ catch_up (W.log window.new) self.old) }
        ensures holds { HoldsPagesOf (W.log window.new) self.new }
        ensures grows { BeginsWith (W.log window.new) (W.log window.old) }
        ensures err { OnErr result ((self.new ≡ self.old) × (W.log window.new ≡ W.log window.old)) }
        ensures place { W.place window.new ≡ W.place window.old }
        ensures admits { W.admits window.old (W.log window.old)
            → W.admits window.new (W.log window.new) }
        ensures narrows { (l : List Bundle) → W.admits window.new l → W.admits window.old l }
        ensures heard { (l : List Bundle) → W.heard window.old l → W.heard window.new l }
    {
        let _page = window.refresh(alloc, &mut self.cache, path)?;
        Ok(())
    }

    /// Drops the page of a path, and tells whether there was one. It takes no memory.
    pub fn evict(&mut self, path: &Path) -> bool
        ensures found { result ≡ has_path self.old.entries path.now }
        ensures entries { self.new ≡ evicted path.now self.old }
        ensures holds { (log : List Bundle) → HoldsPagesOf log self.old → HoldsPagesOf log self.new }
    {
        self.cache.evict(path)
    }
}

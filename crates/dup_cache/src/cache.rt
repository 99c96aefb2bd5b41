// A cache of pages.
ghost use Rattle.std.specs.Prelude.{◌≡◌, ◌≤◌, [], IfOk, IsOk, None, OnErr, OnOk, length, true};
ghost use Rattle.std.specs.Option.{option_map};
ghost use Rattle.dup_model.specs.Caches.{catch_up as caught_up_with, entry, with_first};
ghost use Rattle.dup_model.specs.Serving.{HoldsPagesOf};
ghost use Rattle.dup_cache.specs.Entries.{evicted, has_path, touched};

use crate::catching::catch_up;
use crate::entries::{Entries, Shared, peek, promote, put, remove};
use dup_edition::{Edition, Page};
use dup_model::Mode;
use dup_names::{NoMemory, Path};
use lru::LruCache;
use std::alloc::Global;
use std::marker::Model;
use std::num::NonZeroUsize;
use std::sync::Arc;

/// The most pages of a cache.
pub const MAX_CACHE_ENTRIES: u32 = 65_536;

/// At most so many pages, the most recently used first, with a mode and the number of an edition.
#[derive(Drop)]
pub struct PageCache {
    entries: Entries,
    mode: Mode,
    edition: u64,
}

impl Model for PageCache {
    ghost use Rattle.std.specs.Prelude.{◌≤◌};
    ghost use Rattle.dup_model.specs.Caches.{Cache};
    ghost use Rattle.dup_cache.specs.Kept.{IsKeyed, pages_of};
    ghost use Rattle.dup_cache.specs.declared.cache.TheConstants.{MAX_CACHE_ENTRIES};

    ghost Value = { Cache };

    ghost view = { λ c. record {
      capacity = c.entries.cap;
      mode = c.mode;
      number = c.edition;
      entries = pages_of c.entries.entries;
    } };

    ghost invariant = { λ c. IsKeyed c.entries.entries × (c.entries.cap ≤ MAX_CACHE_ENTRIES) };
}

impl PageCache {
    /// An empty cache at edition 0, for 1 to `MAX_CACHE_ENTRIES` pages. It takes memory as pages come.
    pub fn new(alloc: Global, capacity: u32, mode: Mode) -> Result<PageCache, NoMemory>
        requires some { 1 ≤ capacity }
        requires fits { capacity ≤ MAX_CACHE_ENTRIES }
        ensures { IfOk result (λ made. made
            ≡ record { capacity = capacity; mode = mode; number = 0; entries = [] }) }
    {
        let capacity = NonZeroUsize::new(capacity as usize).unwrap();
        let entries = LruCache::sparse(alloc, capacity)?;
        Ok(PageCache {
            entries,
            mode,
            edition: 0,
        })
    }

    /// The number of its edition.
    pub fn edition(&self) -> u64
        ensures { result ≡ self.now.number }
    {
        self.edition
    }

    /// The number of its pages.
    pub fn len(&self) -> u32
        ensures { result ≡ length self.now.entries }
    {
        self.entries.len() as u32
    }

    /// The page of a path, with one more owner; it comes to the front. It costs two look-ups by the
    /// path's bytes, and a move to the front. That there is none takes no memory; after want of memory the
    /// cache is as before.
    pub fn find(&mut self, path: &Path) -> Result<Option<Arc<Page, Global>>, NoMemory>
        ensures value { IfOk result (λ found. option_map (λ p. p.value) found ≡ entry self.old path.now) }
        ensures ok { OnOk result (self.new ≡ touched path.now self.old) }
        ensures absent { entry self.old path.now ≡ None → IsOk result }
        ensures err { OnErr result (self.new ≡ self.old) }
    {
        let found = match peek(&self.entries, path) {
            Some(page) => Arc::try_clone(page)?,
            None => return Ok(None),
        };
        promote(&mut self.entries, path);
        Ok(Some(found))
    }

    /// Brings the page of a path to the front, and tells whether there is one. It takes no memory.
    pub fn touch(&mut self, path: &Path) -> bool
        ensures found { result ≡ has_path self.old.entries path.now }
        ensures entries { self.new ≡ touched path.now self.old }
    {
        promote(&mut self.entries, path)
    }

    /// Puts a page first, in the place of the page of its path, if there is one. Else a full cache drops
    /// its last page. To replace a page takes no memory; after want of memory the cache is as before.
    pub fn keep(&mut self, page: Arc<Page, Global>) -> Result<(), NoMemory>
        ensures ok { OnOk result (self.new ≡ with_first page.value self.old) }
        ensures replaced { has_path self.old.entries page.value.path ≡ true → IsOk result }
        ensures err { OnErr result (self.new ≡ self.old) }
    {
        put(&mut self.entries, page)?;
        Ok(())
    }

    /// Drops the page of a path, and tells whether there was one. It takes no memory.
    pub fn evict(&mut self, path: &Path) -> bool
        ensures found { result ≡ has_path self.old.entries path.now }
        ensures entries { self.new ≡ evicted path.now self.old }
    {
        remove(&mut self.entries, path)
    }

    /// Catches up with an edition that is no older. It makes all owners that it needs before it changes a
    /// page; after want of memory the cache is as before. To invalidate takes no memory.
    ///
    /// It costs a look-up for each path that the bundles since the cache's number name, and nothing for the
    /// pages that none of them names: these stay as they are, so each page is to be its path's in the
    /// edition of that number. Where there are over 64 such bundles, to invalidate lets all pages go, and to
    /// update costs a look-up for each page.
    pub fn catch_up(&mut self, alloc: Global, edition: &Edition) -> Result<(), NoMemory>
        requires { self.old.number ≤ length edition.now.log }
        ensures ok { OnOk result (HoldsPagesOf edition.now.log self.old
            → self.new ≡ caught_up_with edition.now.log self.old) }
        ensures invalidate { self.old.mode ≡ Mode.Invalidate
            → IsOk result × (self.new ≡ caught_up_with edition.now.log self.old) }
        ensures number { OnOk result (self.new.number ≡ length edition.now.log) }
        ensures rest { OnOk result ((self.new.capacity ≡ self.old.capacity)
            × (self.new.mode ≡ self.old.mode)) }
        ensures err { OnErr result (self.new ≡ self.old) }
    {
        catch_up(alloc, &mut self.entries, self.mode, edition, self.edition)?;
        self.edition = edition.number();
        Ok(())
    }
}

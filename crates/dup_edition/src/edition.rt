// Editions.
ghost use Rattle.std.specs.Prelude.{◌≡◌, ◌≤◌, ◌<◌, ◌+◌, ◌++◌, ◌∷◌, [], map, length, OnOk, OnErr, IfOk};
ghost use Rattle.std.specs.List.{fold};
ghost use Rattle.std.specs.Option.{option_copied, option_map};
ghost use Rattle.std.specs.Vec.{vec_len, vec_capacity};
ghost use Rattle.std.specs.FinMap as fin;
ghost use Rattle.dup_model.specs.Editions.{edition};
ghost use Rattle.dup_edition.specs.ByPath.{by_path, drop_in, put_in, IsByPath};
ghost use Rattle.dup_edition.specs.Logged.{appended};
ghost use Rattle.dup_edition.specs.Since.{IsSince};

use crate::page::Page;
use crate::pages::{drop, find_page, put, shared_pages};
use crate::record::BundleRec;
use dup_names::{NoMemory, Path};
use dup_template::Site;
use std::alloc::Global;
use std::marker::Model;
use std::sync::Arc;

/// The pages that a log has published, and the log. The pages stand in path order, so a page is found
/// by a binary search.
#[derive(Drop)]
pub struct Edition {
    site: Arc<Site, Global>,
    log: Vec<Arc<BundleRec, Global>>,
    pages: Vec<Arc<Page, Global>>,
}

impl Model for Edition {
    ghost use Rattle.std.specs.Prelude.{◌≡◌, map};
    ghost use Rattle.std.specs.Coded.{codes};
    ghost use Rattle.std.specs.FinMap as fin;
    ghost use Rattle.dup_template.specs.contracts.statement.Statement as statement;
    ghost use Rattle.dup_model.specs.Editions.{edition};
    ghost use Rattle.dup_edition.specs.ByPath.{by_path};
    ghost use Rattle.dup_edition.specs.Logged.{Logged};

    ghost Value = { Logged };

    ghost coded = { Prim.hlevel (codes, statement.the_row.coded) };

    ghost view = { λ e. record { site = e.site.value; log = map (λ r. r.value) e.log.items } };

    ghost invariant = { λ e.
        by_path e.pages.items ≡ fin.entries (edition (map (λ r. r.value) e.log.items)) };
}

/// What changed since an edition.
pub enum Changes<'e> {
    /// Too much to be named.
    All,
    /// The bundles behind it.
    Named(&'e [Arc<BundleRec, Global>]),
}

// Puts these pages, for which there is room.
fn put_all(pages: &mut Vec<Arc<Page, Global>>, puts: Vec<Arc<Page, Global>>)
    requires order { IsByPath pages.old.items }
    requires room { vec_len pages.old + length puts.items ≤ vec_capacity pages.old }
    ensures puts { by_path pages.new.items ≡
        fold put_in (by_path pages.old.items) (map (λ p. p.value) puts.items) }
    ensures order { IsByPath pages.new.items }
{
    for page in puts {
        put(pages, page);
    }
}

// Takes the pages at these paths away.
fn drop_all(pages: &mut Vec<Arc<Page, Global>>, drops: &[Path])
    requires { IsByPath pages.old.items }
    ensures { by_path pages.new.items ≡ fold drop_in (by_path pages.old.items) drops.now }
{
    for path in drops {
        drop(pages, path);
    }
}

// Appends a record, for which there is room.
fn push_reserved(log: &mut Vec<Arc<BundleRec, Global>>, rec: Arc<BundleRec, Global>)
    requires { vec_len log.old < vec_capacity log.old }
    ensures { log.new.items ≡ log.old.items ++ rec ∷ [] }
{
    if log.push(rec).is_err() {
        unreachable!()
    }
}

fn shared_log(
    alloc: Global,
    log: &[Arc<BundleRec, Global>],
) -> Result<Vec<Arc<BundleRec, Global>>, NoMemory>
    ensures { IfOk result (λ made. map (λ r. r.value) made.items ≡ map (λ r. r.value) log.now) }
{
    let mut made = Vec::with_capacity(alloc, log.len())?;
    for record in log {
        made.push(Arc::try_clone(record)?)?;
    }
    Ok(made)
}

impl Edition {
    /// Edition 0 of a site, which has no pages. It takes no memory.
    pub fn empty(alloc: Global, site: Arc<Site, Global>) -> Edition
        ensures { result ≡ record { site = site.value; log = [] } }
    {
        Edition {
            site,
            log: Vec::new(alloc),
            pages: Vec::new(alloc),
        }
    }

    /// An equal edition, which shares all pages and records.
    pub fn copy(&self, alloc: Global) -> Result<Edition, NoMemory>
        ensures { IfOk result (λ made. made ≡ self.now) }
    {
        let site = Arc::try_clone(&self.site)?;
        let log = shared_log(alloc, &self.log)?;
        let pages = shared_pages(alloc, &self.pages)?;
        Ok(Edition { site, log, pages })
    }

    /// The site.
    pub fn site(&self) -> &Arc<Site, Global>
        ensures { result.now.value ≡ self.now.site }
    {
        &self.site
    }

    /// The number of bundles that made it.
    pub fn number(&self) -> u64
        ensures { result ≡ length self.now.log }
    {
        self.log.len() as u64
    }

    /// The page at a path, by a binary search.
    pub fn get(&self, path: &Path) -> Option<&Arc<Page, Global>>
        ensures { option_map (λ p. p.value) (option_copied result) ≡ fin.get (edition self.now.log) path.now }
    {
        find_page(&self.pages, path)
    }

    /// All pages, in path order.
    pub fn pages(&self) -> &[Arc<Page, Global>]
        ensures { by_path result.now ≡ fin.entries (edition self.now.log) }
    {
        self.pages.as_slice()
    }

    /// The log.
    pub fn log(&self) -> &[Arc<BundleRec, Global>]
        ensures { map (λ r. r.value) result.now ≡ self.now.log }
    {
        self.log.as_slice()
    }

    /// Appends a record. It costs a binary search for each page put and each path dropped, and for each
    /// path that is new or dropped a shift of the pages behind it.
    pub fn absorb(&mut self, alloc: Global, rec: Arc<BundleRec, Global>) -> Result<(), NoMemory>
        ensures ok { OnOk result (self.new ≡ appended self.old rec.value) }
        ensures err { OnErr result (self.new ≡ self.old) }
    {
        let puts = shared_pages(alloc, rec.puts())?;
        self.pages.reserve(puts.len())?;
        self.log.reserve(1)?;
        put_all(&mut self.pages, puts);
        drop_all(&mut self.pages, rec.drops());
        push_reserved(&mut self.log, rec);
        Ok(())
    }

    /// What changed since an edition: the bundles behind it, or that there are over 64.
    pub fn changed_since(&self, from: u64) -> Changes<'_>
        requires { from ≤ length self.now.log }
        ensures { IsSince self.now.log from result }
    {
        let from = from as usize;
        if self.log.len() - from > 64 {
            return Changes::All;
        }
        Changes::Named(&self.log[from..])
    }
}

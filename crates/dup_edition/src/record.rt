// Records of bundles, which a log is made of.
ghost use Rattle.std.specs.Prelude.{◌≡◌, map};

use crate::page::Page;
use dup_lists::Listed;
use dup_names::Path;
use dup_records::Commit;
use std::alloc::Global;
use std::marker::Model;
use std::sync::Arc;

/// A record of a log: a version, the commits after the last record's version up to this one, the
/// pages put and the paths dropped.
#[derive(Drop)]
pub struct BundleRec {
    pub version: u64,
    pub commits: Listed<Arc<Commit, Global>>,
    pub puts: Listed<Arc<Page, Global>>,
    pub drops: Listed<Path>,
}

impl Model for BundleRec {
    ghost use Rattle.std.specs.Prelude.{map};
    ghost use Rattle.dup_model.specs.Editions.{Bundle};
    ghost use Rattle.std.specs.Coded.{codes};
    ghost use Rattle.dup_template.specs.contracts.statement.Statement as statement;

    ghost Value = { Bundle };

    ghost coded = { Prim.hlevel (codes, statement.the_row.coded) };

    ghost view = { λ r.
        record {
          version = r.version;
          commits = map (λ c. c.value) r.commits;
          puts = map (λ p. p.value) r.puts;
          drops = r.drops;
        } };
}

impl BundleRec {
    /// The record of these parts. It takes no memory.
    pub fn new(
        version: u64,
        commits: Vec<Arc<Commit, Global>>,
        puts: Vec<Arc<Page, Global>>,
        drops: Vec<Path>,
    ) -> BundleRec
        ensures { result ≡ record {
          version = version;
          commits = map (λ c. c.value) commits.items;
          puts = map (λ p. p.value) puts.items;
          drops = drops.items;
        } }
    {
        BundleRec {
            version,
            commits: Listed::of(commits),
            puts: Listed::of(puts),
            drops: Listed::of(drops),
        }
    }

    /// The version that the pages put are of.
    pub fn version(&self) -> u64
        ensures { result ≡ self.now.version }
    {
        self.version
    }

    /// The commits after the last record's version, up to this one.
    pub fn commits(&self) -> &[Arc<Commit, Global>]
        ensures { map (λ c. c.value) result.now ≡ self.now.commits }
    {
        self.commits.items()
    }

    /// The pages put.
    pub fn puts(&self) -> &[Arc<Page, Global>]
        ensures { map (λ p. p.value) result.now ≡ self.now.puts }
    {
        self.puts.items()
    }

    /// The paths dropped.
    pub fn drops(&self) -> &[Path]
        ensures { result.now ≡ self.now.drops }
    {
        self.drops.items()
    }
}

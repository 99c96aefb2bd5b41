// Targets whose paths rise.
ghost use Rattle.std.specs.Prelude.{◌≡◌};
ghost use Rattle.std.specs.Option.{option_copied, option_map};
ghost use Rattle.std.specs.FinMap as fin;
ghost use Rattle.std.specs.List.Sorted.{IsSearchInRange};
ghost use Rattle.std.specs.Prelude.{IfOk, IfErr, length};
ghost use Rattle.dup_names.specs.Order.{text_cmp};
ghost use Rattle.dup_edition.specs.Places.{IsAt, IsGap};
ghost use Rattle.dup_bundle.specs.Targets.{aim_of, looks_by_path, IsByPath};

use dup_names::{Look, Path};
use dup_render::Target;
use std::alloc::Global;
use std::marker::Model;
use std::sync::Arc;

type Entry = (Path, Arc<Look, Global>);

/// A target whose paths rise, in which a look is found by its path.
#[derive(Drop)]
pub struct SortedTarget<'t> {
    target: &'t Target,
}

impl<'t> Model for SortedTarget<'t> {
    ghost use Rattle.std.specs.Coded.{codes};
    ghost use Rattle.std.specs.FinMap as fin;
    ghost use Rattle.dup_names.specs.Order.{text_cmp};
    ghost use Rattle.dup_bundle.specs.Targets.{looks_by_path, IsByPath, Aim};

    ghost Value = { Aim };

    ghost coded = { Prim.hlevel (codes, fin.code) };

    ghost view = { λ t.
        record {
          version = t.target.now.version;
          pages = fin.from_sorted (looks_by_path t.target.now.pages);
        } };

    ghost invariant = { λ t. IsByPath t.target.now.pages };
}

// The place of the look at this path, or the place where it would stand.
fn search(pages: &[Entry], path: &Path) -> Result<usize, usize>
    requires { IsByPath pages.now }
    ensures found { IfOk result (IsAt (looks_by_path pages.now) path.now) }
    ensures absent { IfErr result (IsGap text_cmp (looks_by_path pages.now) path.now) }
    ensures within { IsSearchInRange result (length pages.now) }
{
    pages.binary_search_by(|page| page.0.cmp(path))
}

impl<'t> SortedTarget<'t> {
    /// The target, whose paths rise.
    pub fn of(target: &'t Target) -> SortedTarget<'t>
        requires { IsByPath target.now.pages }
        ensures { result ≡ aim_of target.now }
    {
        SortedTarget { target }
    }

    /// The version.
    pub fn version(&self) -> u64
        ensures { result ≡ self.now.version }
    {
        self.target.version
    }

    /// All looks, in path order.
    pub fn pages(&self) -> &[Entry]
        ensures { looks_by_path result.now ≡ fin.entries self.now.pages }
    {
        self.target.pages.items()
    }

    /// The look at a path, by a binary search.
    pub fn look(&self, path: &Path) -> Option<&Arc<Look, Global>>
        ensures { option_map (λ l. l.value) (option_copied result) ≡ fin.get self.now.pages path.now }
    {
        let pages = self.target.pages.items();
        match search(pages, path) {
            Ok(at) => Some(&pages[at].1),
            Err(_) => None,
        }
    }
}

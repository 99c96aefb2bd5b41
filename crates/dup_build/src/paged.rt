// The pages of a content.
ghost use Rattle.std.specs.Prelude.{◌≡◌, IfOk};
ghost use Rattle.dup_names.specs.Objects.{is_in};
ghost use Rattle.dup_build.specs.Loose.{shown_by};

use dup_lists::Listed;
use dup_names::{NoMemory, Obj, Path};
use dup_sets::ObjSet;
use std::alloc::Global;
use std::marker::Model;

/// Pages, and the objects that they show.
#[derive(Drop)]
pub(crate) struct Paged {
    pages: Listed<(Path, Obj)>,
    roots: ObjSet,
}

impl Model for Paged {
    ghost use Rattle.std.specs.Prelude.{◌≡◌, List};
    ghost use Rattle.dup_names.specs.Order.{obj_cmp};
    ghost use Rattle.dup_names.specs.Words.{in_order, Path as Word};
    ghost use Rattle.dup_names.specs.declared.object.Obj.{Obj};
    ghost use Rattle.dup_build.specs.Loose.{shown_by};

    ghost Value = { List (Word × Obj) };

    ghost view = { λ p. p.pages };

    ghost invariant = { λ p. p.roots ≡ in_order obj_cmp (shown_by p.pages) };
}

/// The objects that these pages show.
pub(crate) fn objs_shown(alloc: Global, pages: &[(Path, Obj)]) -> Result<Vec<Obj>, NoMemory>
    ensures { IfOk result (λ made. made.items ≡ shown_by pages.now) }
{
    let mut objs = Vec::with_capacity(alloc, pages.len())?;
    for page in pages {
        objs.push(page.1)?;
    }
    Ok(objs)
}

impl Paged {
    /// These pages. The cost is that of a search for each.
    pub(crate) fn of(alloc: Global, pages: Vec<(Path, Obj)>) -> Result<Paged, NoMemory>
        ensures { IfOk result (λ made. made ≡ pages.items) }
    {
        let shown = objs_shown(alloc, &pages)?;
        let roots = ObjSet::of(alloc, &shown)?;
        Ok(Paged {
            pages: Listed::of(pages),
            roots,
        })
    }

    /// The pages.
    pub(crate) fn items(&self) -> &[(Path, Obj)]
        ensures { result.now ≡ self.now }
    {
        self.pages.items()
    }

    /// Whether one of them shows an object. The cost is that of a search.
    pub(crate) fn shows(&self, obj: &Obj) -> bool
        ensures { result ≡ is_in (shown_by self.now) obj.now }
    {
        self.roots.contains(obj)
    }
}

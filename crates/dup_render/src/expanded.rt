// What an expansion keeps.
ghost use Rattle.std.specs.Prelude.{◌≡◌};
ghost use Rattle.dup_model.specs.Expansions.{IsGoodExpansion};
ghost use Rattle.dup_template.specs.Frame.{frame_of};

use dup_lists::Listed;
use dup_names::{Item, Obj, Skeleton};
use dup_template::{Site, Value};
use std::alloc::Global;
use std::marker::Model;
use std::sync::Arc;

/// An expanded object: its skeleton, and notes of the items that it read, its template's body among them,
/// in item order, each with its value. In each content of the same frame where these are the values,
/// these are the items that it reads, and this is its skeleton.
#[derive(Drop)]
pub struct Expanded {
    site: Arc<Site, Global>,
    obj: Obj,
    notes: Listed<(Item, Value)>,
    skeleton: Arc<Skeleton, Global>,
}

impl Model for Expanded {
    ghost use Rattle.std.specs.Coded.{codes};
    ghost use Rattle.dup_template.specs.contracts.statement.Statement as statement;
    ghost use Rattle.dup_model.specs.Expansions.{Expansion, IsGoodExpansion};
    ghost use Rattle.dup_template.specs.Frame.{frame_of};

    ghost Value = { Expansion };

    ghost coded = { Prim.hlevel (codes, statement.the_row.coded) };

    ghost view = { λ e. record {
      frame = frame_of e.site.value;
      obj = e.obj;
      notes = e.notes;
      skeleton = e.skeleton.value;
    } };

    ghost invariant = { λ e. IsGoodExpansion record {
      frame = frame_of e.site.value;
      obj = e.obj;
      notes = e.notes;
      skeleton = e.skeleton.value;
    } };
}

impl Expanded {
    /// A good expansion of these parts. It takes no memory.
    pub(crate) fn of(
        site: Arc<Site, Global>,
        obj: Obj,
        notes: Vec<(Item, Value)>,
        skeleton: Arc<Skeleton, Global>,
    ) -> Expanded
        requires { IsGoodExpansion record {
          frame = frame_of site.value;
          obj = obj;
          notes = notes.items;
          skeleton = skeleton.value;
        } }
        ensures { result ≡ record {
          frame = frame_of site.value;
          obj = obj;
          notes = notes.items;
          skeleton = skeleton.value;
        } }
    {
        let notes = Listed::of(notes);
        Expanded {
            site,
            obj,
            notes,
            skeleton,
        }
    }

    /// The site that was read, whose frame is that of the contents that it speaks of.
    pub fn site(&self) -> &Arc<Site, Global>
        ensures { frame_of result.now.value ≡ self.now.frame }
    {
        &self.site
    }

    /// The object.
    pub fn obj(&self) -> &Obj
        ensures { result.now ≡ self.now.obj }
    {
        &self.obj
    }

    /// What was read, in item order, each item once, with its value.
    pub fn notes(&self) -> &[(Item, Value)]
        ensures value { result.now ≡ self.now.notes }
        ensures good { IsGoodExpansion self.now }
    {
        self.notes.items()
    }

    /// What the object's own statements show.
    pub fn skeleton(&self) -> &Arc<Skeleton, Global>
        ensures { result.now.value ≡ self.now.skeleton }
    {
        &self.skeleton
    }
}

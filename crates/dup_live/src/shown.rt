// What is published.
ghost use Rattle.std.specs.Prelude.{◌≡◌, IfOk, IsTrue};
ghost use Rattle.dup_cache.specs.Holding.{BeginsWith};
ghost use Rattle.dup_live.specs.Deeds.{published, tried};

use crate::book::Front;
use crate::deed::Which;
use dup_edition::Edition;
use dup_names::NoMemory;
use std::alloc::Global;
use std::marker::Model;
use std::sync::Arc;

/// What readers take: an edition, with the beginning of the book in which it was tried last.
#[derive(Drop)]
pub struct Shown {
    edition: Arc<Edition, Global>,
    front: Front,
}

/// What is published: of which book, and the edition. No value of it is made.
pub struct State {
    pub which: Which,
    pub edition: Edition,
}

impl Model for Shown {
    ghost use Rattle.std.specs.Prelude.{◌≡◌};
    ghost use Rattle.std.specs.Coded.{codes};
    ghost use Rattle.dup_template.specs.contracts.statement.Statement as statement;
    ghost use Rattle.dup_live.specs.Deeds.{tried};
    ghost use Rattle.dup_live.specs.declared.shown.State.{State};

    ghost Value = { State };

    ghost coded = { Prim.hlevel (codes, statement.the_row.coded) };

    ghost view = { λ s. record { which = s.front.which; edition = s.edition.value } };

    ghost invariant = { λ s. s.edition.value.log ≡ tried s.front.deeds };
}

impl Shown {
    /// An edition whose log the front tried.
    pub fn of(edition: Arc<Edition, Global>, front: Front) -> Shown
        requires { edition.value.log ≡ tried front.deeds }
        ensures { result ≡ record { which = front.which; edition = edition.value } }
    {
        Shown { edition, front }
    }

    /// One more owner.
    pub fn again(&self) -> Result<Shown, NoMemory>
        ensures { IfOk result (λ made. made ≡ self.now) }
    {
        Ok(Shown {
            edition: Arc::try_clone(&self.edition)?,
            front: self.front.again(),
        })
    }

    /// The edition.
    pub fn edition(&self) -> &Arc<Edition, Global>
        ensures { result.now.value ≡ self.now.edition }
    {
        &self.edition
    }

    /// The edition, which is taken out.
    pub fn into_edition(self) -> Arc<Edition, Global>
        ensures { result.value ≡ self.edition }
    {
        let Shown { edition, front: _ } = self;
        edition
    }

    /// Where it says yes, the edition's log begins with what the front has published.
    pub fn is_past(&self, told: &Front) -> bool
        requires { self.now.which ≡ told.now.which }
        ensures { IsTrue result → BeginsWith self.now.edition.log (published told.now.deeds) }
    {
        told.is_reached(&self.front)
    }
}

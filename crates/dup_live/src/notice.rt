// Notices.
ghost use Rattle.std.specs.Prelude.{◌≡◌};
ghost use Rattle.dup_live.specs.Deeds.{published};

use crate::book::{Front, Naming};
use std::marker::{Model, PhantomData};

/// Stands for a log that was published. Contracts see it as that log.
#[derive(Drop)]
pub struct Notice<J: Naming> {
    front: Front,
    of: PhantomData<J>,
}

impl<J: Naming> Model for Notice<J> {
    ghost use Rattle.std.specs.Prelude.{◌≡◌, List};
    ghost use Rattle.std.specs.Coded.{codes};
    ghost use Rattle.dup_template.specs.contracts.statement.Statement as statement;
    ghost use Rattle.dup_model.specs.Editions.{Bundle};
    ghost use Rattle.dup_live.specs.Deeds.{published};

    ghost Value = { List Bundle };

    ghost coded = { Prim.hlevel (codes, statement.the_row.coded) };

    ghost view = { λ n. published n.front.deeds };

    ghost invariant = { λ n. n.front.which ≡ J.book };
}

impl<J: Naming> Notice<J> {
    /// The notice of what a front has published.
    pub(crate) fn of(front: Front) -> Notice<J>
        requires { front.which ≡ J.book }
        ensures { result ≡ published front.deeds }
    {
        Notice {
            front,
            of: PhantomData,
        }
    }

    /// The front.
    pub(crate) fn into_front(self) -> Front
        ensures which { result.which ≡ J.book }
        ensures deeds { published result.deeds ≡ self }
    {
        let Notice { front, of: _ } = self;
        front
    }
}

// The book of an outlet's deeds, which only grows. It exists in proofs alone; what is shared is its length.
ghost use Rattle.std.specs.Prelude.{◌≡◌, ◌+◌, ◌==◌, ◌<◌, ◌≤◌, ◌^◌, ◌++◌, ◌∷◌, ◌⊎◌, [], length, MatchBool, IsTrue};
ghost use mathlib.Core.List.{IsPrefix};
ghost use Rattle.dup_live.specs.declared.deed.Deed.TheVariants.{Try, Done};
ghost use Rattle.dup_live.specs.Rules.{head_of};
ghost use Rattle.dup_live.specs.Deeds.{published, tried};
ghost use Rattle.dup_live.specs.Stories.{story};

use crate::deed::Deed;
use dup_edition::BundleRec;
use logbook::{Gain, Offer, Plain, Play, Rule, Seen, Start, Word};
use std::marker::{Brand, Model, PhantomData};

const MOST: u64 = 1 << 62;

/// The rule of the book.
pub struct Law;

impl Rule<Deed, u64> for Law {
    ghost use Rattle.std.specs.Prelude.{[]};
    ghost use base.Fml.{ftrue};
    ghost use Rattle.dup_live.specs.Rules.{IsCounted};

    ghost holds = { λ cells log. IsCounted cells log };

    ghost first = { [] };

    ghost hinted = { λ n log. Unit {0} };

    ghost shows = { λ log. [] };

    ghost keeps = { λ names log. ftrue };

    ghost moves = { λ ask before after answer. Unit {0} };
}

/// Callers trade nothing.
pub struct Nothing;

impl Gain<Deed, u64> for Nothing {
    ghost use base.Fml.{ftrue};

    ghost after = { λ names about answer. ftrue };
}

/// A step that adds a deed.
pub struct Add;

impl Play<Deed, u64> for Add {
    ghost use Rattle.dup_live.specs.Rules.{Adds};

    ghost then = { Adds };
}

/// It tries the record.
pub struct Tries;

impl Plain<BundleRec, Deed, u64> for Tries {
    ghost use Rattle.std.specs.Prelude.{None};
    ghost use Rattle.dup_live.specs.declared.deed.Deed.TheVariants.{Try};

    ghost ask = { λ rec. Try rec };

    ghost state = { λ rec. None };
}

/// It has published what it tried last.
pub struct HasDone;

impl Plain<u64, Deed, u64> for HasDone {
    ghost use Rattle.std.specs.Prelude.{None};
    ghost use Rattle.dup_live.specs.declared.deed.Deed.TheVariants.{Done};

    ghost ask = { λ _. Done };

    ghost state = { λ _. None };
}

/// Names a published log, in proofs alone: its book, and the site of its editions. Where a program opens an
/// outlet, its proof picks them.
pub trait Naming {
    ghost use Rattle.logbook.specs.Pages.{Book};
    ghost use Rattle.dup_template.specs.declared.site.Parts.{Parts};

    ghost book: { Book };

    ghost site: { Parts };
}

impl Naming for Brand {
    ghost use Rattle.std.specs.Prelude.{[]};

    ghost book = { record { number = 0; log_name = 0; cells_name = 0 } };

    ghost site = { record { kinds = []; templates = []; pages = [] } };
}

/// A book with an empty history. Contracts see it as the book.
#[derive(Drop)]
pub struct Opened {
    head: Word<Deed, u64, Law>,
    seen: Seen<Deed, u64, Law>,
}

impl Model for Opened {
    ghost use Rattle.std.specs.Prelude.{◌≡◌, []};
    ghost use Rattle.logbook.specs.Pages.{Book, book_coded};
    ghost use Rattle.dup_live.specs.Rules.{head_of};

    ghost Value = { Book };

    ghost coded = { book_coded };

    ghost view = { λ o. o.seen.book };

    ghost invariant = { λ o. (o.seen.log ≡ []) × (o.head ≡ head_of o.seen.book) };
}

impl Opened {
    /// A new book. It takes no memory.
    pub fn new() -> Opened {
        let (seen, mut first, _second) = Seen::open(Start::alone(), 0, 0);
        Opened {
            head: Word::tracked(0, &mut first),
            seen,
        }
    }

    /// The book's word under a name, and the front that has seen nothing.
    pub(crate) fn named<J: Naming>(self) -> (Book<J>, Front)
        requires { self ≡ J.book }
        ensures { result.1 ≡ story J.book [] }
    {
        let Opened { head, seen } = self;
        (
            Book {
                head,
                of: PhantomData,
            },
            Front { deeds: 0, seen },
        )
    }
}

/// The word that the outlet has: the length of the history.
#[derive(Drop)]
pub struct Book<J: Naming> {
    head: Word<Deed, u64, Law>,
    of: PhantomData<J>,
    ghost head_is: { head ≡ head_of J.book },
}

/// A beginning of a book's history that was seen. Contracts see it as its deeds.
#[derive(Drop)]
pub struct Front {
    deeds: u64,
    seen: Seen<Deed, u64, Law>,
}

impl Model for Front {
    ghost use Rattle.std.specs.Prelude.{◌≡◌, length};
    ghost use Rattle.std.specs.Coded.{codes};
    ghost use Rattle.dup_template.specs.contracts.statement.Statement as statement;
    ghost use Rattle.dup_live.specs.declared.deed.Story.{Story};
    ghost use Rattle.dup_live.specs.Stories.{story};

    ghost Value = { Story };

    ghost coded = { Prim.hlevel (codes, statement.the_row.coded) };

    ghost view = { λ f. story f.seen.book f.seen.log };

    ghost invariant = { λ f. f.deeds ≡ length f.seen.log };
}

// Is a at most b + 1?
fn is_near(a: u64, b: u64) -> bool
    ensures { IsTrue result → a ≤ b + 1 }
{
    a <= b || a - b == 1
}

impl Front {
    /// A copy.
    pub fn again(&self) -> Front
        ensures { result ≡ self.now }
    {
        Front {
            deeds: self.deeds,
            seen: self.seen.again(),
        }
    }

    /// The longer of two fronts, which the other begins.
    pub fn longer(&self, other: &Front) -> Front
        requires { other.now.which ≡ self.now.which }
        ensures which { result.which ≡ self.now.which }
        ensures this { IsPrefix self.now.deeds result.deeds }
        ensures that { IsPrefix other.now.deeds result.deeds }
    {
        let mut both = self.seen.again();
        both.learn(&other.seen);
        if self.deeds < other.deeds {
            other.again()
        } else {
            self.again()
        }
    }

    /// Where it says yes, what this front had published begins what the other one tried.
    pub fn is_reached(&self, other: &Front) -> bool
        requires { other.now.which ≡ self.now.which }
        ensures { IsTrue result → IsPrefix (published self.now.deeds) (tried other.now.deeds) }
    {
        let mut both = self.seen.again();
        both.learn(&other.seen);
        is_near(self.deeds, other.deeds)
    }

    /// Adds a try to all that was seen, and says whether it did.
    pub fn tries<J: Naming>(&mut self, book: &Book<J>, rec: &BundleRec) -> bool
        requires { self.old.which ≡ J.book }
        ensures which { self.new.which ≡ self.old.which }
        ensures deeds { MatchBool result (self.new.deeds ≡ self.old.deeds ++ Try rec.now ∷ [])
            (IsPrefix self.old.deeds self.new.deeds) }
    {
        let deeds = self.deeds;
        if deeds >= MOST {
            return false;
        }
        let mut offer: Offer<Deed, u64, Law, Nothing> = self
            .seen
            .plain::<Nothing, BundleRec, Tries>(rec);
        let mut pen = self.seen.no_pen();
        let found = book
            .head
            .compare_exchange::<Add, Nothing>(
                deeds,
                deeds + 1,
                &mut self.seen,
                &mut offer,
                &mut pen,
            );
        self.deeds = if found == deeds { deeds + 1 } else { found };
        found == deeds
    }

    /// Adds that what was tried last was published, and says whether it did.
    pub fn done<J: Naming>(&mut self, book: &Book<J>) -> bool
        requires { self.old.which ≡ J.book }
        ensures which { self.new.which ≡ self.old.which }
        ensures deeds { MatchBool result (self.new.deeds ≡ self.old.deeds ++ Done ∷ [])
            (IsPrefix self.old.deeds self.new.deeds) }
    {
        let deeds = self.deeds;
        if deeds >= MOST {
            return false;
        }
        let mut offer: Offer<Deed, u64, Law, Nothing> = self
            .seen
            .plain::<Nothing, u64, HasDone>(&0);
        let mut pen = self.seen.no_pen();
        let found = book
            .head
            .compare_exchange::<Add, Nothing>(
                deeds,
                deeds + 1,
                &mut self.seen,
                &mut offer,
                &mut pen,
            );
        self.deeds = if found == deeds { deeds + 1 } else { found };
        found == deeds
    }
}

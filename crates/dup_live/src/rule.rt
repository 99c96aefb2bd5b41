// The rule: what is published is good, and only grows.
ghost use Rattle.dup_live.specs.Kept.{IsKept, IsOf, Reads};

use crate::book::Naming;
use crate::deed::Log;
use crate::shown::Shown;
use crossbeam_utils::rule::{Outcome, Protocol};
use std::marker::PhantomData;

/// The published log is good, and its book and its site are those of the name. It begins with what each
/// reader and the writer have seen.
pub struct Kept<J: Naming> {
    of: PhantomData<J>,
}

impl<J: Naming> Protocol<Shown, Log> for Kept<J> {
    ghost use Rattle.std.specs.Prelude.{[]};

    ghost holds = { λ s views. IsOf J.book J.site s × IsKept J.site s.edition.log views };

    ghost first = { [] };
}

/// What is seen afterwards is the published log, which begins with what was seen.
pub struct Sees<J: Naming> {
    of: PhantomData<J>,
}

impl<J: Naming> Outcome<Shown, Log> for Sees<J> {
    ghost then = { λ v x y w. IsOf J.book J.site y × Reads J.site v y.edition.log w };
}

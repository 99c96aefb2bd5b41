// Where records of bundles go.
ghost use Rattle.std.specs.Prelude.{◌≡◌, ◌++◌, ◌∷◌, [], ℕ, List, IfOk, OnErr};
ghost use Rattle.dup_model.specs.Editions.{Bundle};

use crate::edition::Edition;
use crate::record::BundleRec;
use dup_names::NoMemory;
use std::alloc::Global;
use std::sync::Arc;

/// Where records of bundles go: it means a log, which only grows by what is published.
pub trait Outlet {
    /// What stands for the log at a moment.
    type Notice;

    /// The log.
    ghost log: { Self → List Bundle };

    /// Which published log it writes: a word by which these are told apart. It never changes.
    ghost place: { Self → List ℕ };

    /// Which logs it admits.
    ghost admits: { Self → List Bundle → Type 0 };

    /// The published log that a notice is of.
    ghost notice_place: { Self.Notice → List ℕ };

    /// The logs that a notice stands for: the published log begins with them.
    ghost stands_for: { Self.Notice → List Bundle → Type 0 };

    /// Appends a record.
    fn publish(
        &mut self,
        alloc: Global,
        rec: Arc<BundleRec, Global>,
    ) -> Result<Self::Notice, NoMemory>
        requires { admits self.old (log self.old ++ rec.value ∷ []) }
        ensures ok { IfOk result (λ notice. (log self.new ≡ log self.old ++ rec.value ∷ []) ×
            (notice_place notice ≡ place self.old) × stands_for notice (log self.new)) }
        ensures err { OnErr result (log self.new ≡ log self.old) }
        ensures place { place self.new ≡ place self.old }
        ensures admits { (l : List Bundle) → admits self.old l → admits self.new l };

    /// The edition that its log makes. It takes no memory.
    fn current(&self) -> &Edition
        ensures { result.now.log ≡ log self.now };
}

/// An edition by itself, which admits every log.
pub type PlainOutlet = Edition;

/// What a plain outlet answers. It holds nothing, and nobody hears it.
#[derive(Clone, Copy, Debug)]
pub struct PlainNotice;

impl Outlet for Edition {
    type Notice = PlainNotice;

    ghost log = { λ e. e.log };

    ghost place = { λ _. [] };

    ghost admits = { λ _ _. Unit {0} };

    ghost notice_place = { λ _. [] };

    ghost stands_for = { λ _ _. Unit {0} };

    fn publish(
        &mut self,
        alloc: Global,
        rec: Arc<BundleRec, Global>,
    ) -> Result<PlainNotice, NoMemory> {
        self.absorb(alloc, rec)?;
        Ok(PlainNotice)
    }

    fn current(&self) -> &Edition {
        self
    }
}

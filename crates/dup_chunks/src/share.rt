// Items that are shared.
ghost use Rattle.std.specs.Prelude.{◌≡◌, IfOk};

use dup_names::NoMemory;

/// An item of which one more owner costs little.
pub trait Share {
    /// An equal item.
    fn share(&self) -> Result<Self, NoMemory>
        ensures { IfOk result (λ made. made ≡ self.now) };
}

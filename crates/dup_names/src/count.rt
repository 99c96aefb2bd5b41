// Numbers that only grow.
ghost use Rattle.std.specs.Prelude.{◌≡◌, ◌+◌, ◌-◌, ◌^◌, min};

use std::marker::Model;

/// The edition that a reader has seen, by its number: what it reads next is no older.
#[derive(Clone, Copy, Debug, PartialEq, Eq, PartialOrd, Ord)]
pub struct Pass(pub u64);

/// Counts what was done.
#[derive(Debug, Drop)]
pub struct Meter {
    count: u64,
}

impl Model for Meter {
    ghost use Rattle.std.specs.Prelude.{ℕ};

    ghost Value = { ℕ };

    ghost view = { λ m. m.count };
}

impl Meter {
    /// A meter at 0.
    pub fn new() -> Meter
        ensures { result ≡ 0 }
    {
        Meter { count: 0 }
    }

    /// Raises the count by one, or leaves it at `u64::MAX`.
    pub fn tick(&mut self)
        ensures { self.new ≡ min (self.old + 1) (2 ^ 64 - 1) }
    {
        self.count = self.count.saturating_add(1);
    }

    /// How often it was ticked.
    pub fn count(&self) -> u64
        ensures { result ≡ self.now }
    {
        self.count
    }
}

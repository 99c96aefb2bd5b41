// How many settles and gets were done, and what came of them.
ghost use Rattle.std.specs.Prelude.{◌≡◌};
ghost use Rattle.dup_hall.specs.Tallies.{got_once, hits_in, hits_of, no_tally, settled_once};

use dup_script::{HowWord, Said};

/// What a hall did so far. Each count stays at `u64::MAX` once it is there.
#[derive(Clone, Copy, Debug, PartialEq, Eq)]
pub struct Tally {
    /// The settles.
    pub settles: u64,
    /// The objects that they expanded.
    pub expanded: u64,
    /// The objects that they joined.
    pub joined: u64,
    /// The gets.
    pub gets: u64,
    /// Those of them that were hits.
    pub hits: u64,
}

fn hits_of(how: HowWord) -> u64
    ensures { result ≡ hits_of how }
{
    match how {
        HowWord::Hit => 1,
        HowWord::Miss => 0,
        HowWord::Unkept => 0,
    }
}

// 1 where an answer tells of a hit, else 0.
fn hits_in(said: &Said) -> u64
    ensures { result ≡ hits_in said.now }
{
    match said {
        Said::Found {
            edition: _,
            version: _,
            how,
            bytes: _,
        } => hits_of(*how),
        _ => 0,
    }
}

impl Tally {
    /// Before any command.
    pub(crate) fn new() -> Tally
        ensures { result ≡ no_tally }
    {
        Tally {
            settles: 0,
            expanded: 0,
            joined: 0,
            gets: 0,
            hits: 0,
        }
    }

    /// Counts a settle that expanded and joined so many objects.
    pub(crate) fn settle(&mut self, expanded: u64, joined: u64)
        ensures { self.new ≡ settled_once expanded joined self.old }
    {
        self.settles = self.settles.saturating_add(1);
        self.expanded = self.expanded.saturating_add(expanded);
        self.joined = self.joined.saturating_add(joined);
    }

    /// Counts a get that was answered so.
    pub(crate) fn get(&mut self, said: &Said)
        ensures { self.new ≡ got_once said.now self.old }
    {
        self.gets = self.gets.saturating_add(1);
        self.hits = self.hits.saturating_add(hits_in(said));
    }
}

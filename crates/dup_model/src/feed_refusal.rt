ghost use Rattle.std.specs.Prelude.{◌≡◌};

use dup_names::NoMemory;
use std::alloc::AllocFailed;
use thiserror::Error;

/// Why a feed message says no commit.
#[derive(Clone, Copy, Debug, PartialEq, Eq, Error)]
pub enum FeedRefusal {
    /// They are no JSON text.
    #[error("not json")]
    NotJson,
    /// The value isn't an object with one array of changes, where this is 0; else the number of
    /// the first element that isn't a change, from 1.
    #[error("shape {0}")]
    Shape(u32),
    /// How many elements there are, where these are more than 256.
    #[error("too many changes: {0}")]
    TooMany(u64),
    /// Want of memory.
    #[error("out of memory")]
    NoMemory,
}

impl From<NoMemory> for FeedRefusal {
    ghost use Rattle.dup_model.specs.declared.feed_refusal.FeedRefusal.TheVariants.{NoMemory};

    ghost from_gives = { λ _ e. e ≡ NoMemory };

    fn from(_fault: NoMemory) -> FeedRefusal {
        FeedRefusal::NoMemory
    }
}

impl<T: Drop> From<AllocFailed<T>> for FeedRefusal {
    ghost use Rattle.dup_model.specs.declared.feed_refusal.FeedRefusal.TheVariants.{NoMemory};

    ghost from_gives = { λ _ e. e ≡ NoMemory };

    fn from(_fault: AllocFailed<T>) -> FeedRefusal {
        FeedRefusal::NoMemory
    }
}

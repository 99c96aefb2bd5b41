use dup_model::{FeedRefusal, Mode};
use dup_names::Path;

/// What a line of a script asks, where `C` is the form that commits have. A message that says no commit
/// is told why. `NotBuilt` stands for the commands of the table that aren't built, and `Bad` for every line
/// outside it.
#[derive(Debug, Drop, PartialEq, Eq)]
pub enum Command<C> {
    Blank,
    Commit(C),
    BadFeed(FeedRefusal),
    Settle,
    Status,
    Node {
        number: u16,
        capacity: u32,
        mode: Mode,
    },
    Deliver(u16),
    Get {
        node: u16,
        pass: u64,
        path: Path,
    },
    Evict {
        node: u16,
        path: Path,
    },
    NotBuilt,
    Bad,
}

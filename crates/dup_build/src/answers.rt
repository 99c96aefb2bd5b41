// What the calls of a build answer.
use dup_lists::Listed;
use dup_names::{Item, Path};
use dup_render::Target;
use dup_template::Value;

/// What `begin` answers.
#[derive(Debug, Drop, PartialEq, Eq)]
pub enum Begun {
    /// A work is open at the last version.
    Same(u64),
    /// No work is open, and the target is of the last version.
    Nothing(u64),
    /// A work was opened at this version, or the open one moved to it, and so many objects wait.
    Work { version: u64, waiting: u64 },
}

/// What `put` answers.
#[derive(Debug, Drop, PartialEq, Eq)]
pub enum Put {
    /// The expansion is of a site with another frame than the build's.
    Foreign,
    /// The object doesn't wait.
    Unasked,
    /// The first note whose value isn't that of the work's content.
    Stale {
        item: Item,
        noted: Value,
        present: Value,
    },
    /// It is the object's skeleton now, and so many objects wait.
    Kept {
        waiting: u64,
    },
}

/// What `join` answers.
#[derive(Debug, Drop, PartialEq, Eq)]
pub enum Joined {
    /// No work is open.
    Idle,
    /// So many objects wait.
    Waiting(u64),
    /// Every found object has a look.
    Done,
    /// All found objects without a look, what they embed having looks, got theirs: so many.
    Level(u64),
}

/// What `finish` answers.
#[derive(Debug, Drop, PartialEq, Eq)]
pub enum Finish {
    /// No work is open.
    Idle,
    /// So many objects wait.
    Waiting(u64),
    /// So many found objects have no look.
    Unjoined(u64),
    /// The work is closed. `kept` counts the live objects that it never joined. `touched` are the paths
    /// of the pages that are new or gone since the last target, and of those whose object it joined.
    Report {
        version: u64,
        expanded: u64,
        joined: u64,
        kept: u64,
        touched: Listed<Path>,
    },
}

/// What closing the open work comes to.
#[derive(Drop)]
pub struct Closing {
    /// The target of the work's version.
    pub target: Target,
    /// The paths of the pages that are new or gone since the last target, and of those whose object the
    /// work joined.
    pub touched: Listed<Path>,
}

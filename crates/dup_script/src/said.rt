// What the commands of a script are answered.
use dup_model::FeedRefusal;
use dup_names::Bytes;
use dup_records::CommitRefusal;

/// How a page was found.
#[derive(Clone, Copy, Debug, PartialEq, Eq)]
pub enum HowWord {
    Hit,
    Miss,
    /// It was missed, and couldn't be kept for want of memory.
    Unkept,
}

/// The answer to a command of a script.
#[derive(Debug, Drop)]
pub enum Said {
    Node(u16),
    NodeTaken(u16),
    /// There is no node of this number.
    NoNode(u16),
    /// A commit was taken, and made this version.
    Committed(u64),
    /// A commit was refused. Want of memory is none of the causes.
    Refused(CommitRefusal),
    /// A feed message says no commit. Want of memory is none of the causes.
    BadFeed(FeedRefusal),
    Settled {
        version: u64,
        edition: u64,
        bundles: u64,
        expanded: u64,
        joined: u64,
        kept: u64,
    },
    Delivered {
        node: u16,
        edition: u64,
        entries: u32,
    },
    /// A page of an edition, with its version and its bytes.
    Found {
        edition: u64,
        version: u64,
        how: HowWord,
        bytes: Bytes,
    },
    /// The edition has no such page.
    Absent(u64),
    /// The pass is greater than the edition.
    Ahead {
        pass: u64,
        edition: u64,
    },
    Evicted,
    /// The page that was to be evicted wasn't kept.
    NotKept,
    Status {
        version: u64,
        work: Option<u64>,
        target: Option<u64>,
        edition: u64,
        pending: bool,
    },
    /// A command that isn't built stands in the line of this number.
    NotBuilt(u64),
    /// No command stands in the line of this number.
    BadLine(u64),
}

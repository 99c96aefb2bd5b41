use dup_cache::How;
use dup_edition::Page;
use dup_names::Pass;
use std::alloc::Global;
use std::sync::Arc;

/// What a request is answered.
#[derive(Drop)]
pub enum Reply {
    /// The page, of this edition, and how it was found.
    Found {
        edition: u64,
        page: Arc<Page, Global>,
        how: How,
    },
    /// This edition lacks the path.
    Absent {
        edition: u64,
    },
    /// The newest edition that was seen is older than the pass.
    Ahead {
        pass: Pass,
        edition: u64,
    },
}

// What becomes of an entry.
use crate::entries::Shared;
use crate::path_key::PathKey;

/// What stands at a path from now on: a page, or none.
#[derive(Drop)]
pub(crate) struct Renewal {
    pub(crate) key: PathKey,
    pub(crate) page: Option<Shared>,
}

use dup_lists::Listed;
use dup_names::{Look, Path};
use std::alloc::Global;
use std::sync::Arc;

/// The whole site at a version: the look of each page, in path order.
#[derive(Drop)]
pub struct Target {
    pub version: u64,
    pub pages: Listed<(Path, Arc<Look, Global>)>,
}

/// How a node's cache catches up with the editions that it has missed.
#[derive(Clone, Copy, Debug, PartialEq, Eq)]
pub enum Mode {
    /// Each page that is kept becomes the newest edition's; one that isn't there leaves.
    Update,
    /// Each page that a bundle names leaves, and all leave behind more than 64 bundles.
    Invalidate,
}

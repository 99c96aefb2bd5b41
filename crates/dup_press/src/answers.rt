// What the calls of a press answer.

/// What `publish` answers.
#[derive(Drop)]
pub enum Published<N> {
    /// Nothing is changed.
    Nothing,
    /// A bundle went out, and this edition is the newest. The version is the target's; so many pages were
    /// put, and so many paths dropped.
    Bundle {
        number: u64,
        version: u64,
        puts: u64,
        drops: u64,
        notice: N,
    },
}

/// What a settle did: the version that is published now, the number of the newest edition, how many bundles
/// went out, how many objects were expanded and joined, and how many live ones were neither.
#[derive(Clone, Copy, Debug, PartialEq, Eq)]
pub struct Summary {
    pub version: u64,
    pub edition: u64,
    pub bundles: u64,
    pub expanded: u64,
    pub joined: u64,
    pub kept: u64,
}

/// How a press stands: the last version, those of the open work and of the target, if any, the number of the
/// newest edition, and whether something is pending.
#[derive(Clone, Copy, Debug, PartialEq, Eq)]
pub struct Status {
    pub version: u64,
    pub work: Option<u64>,
    pub target: Option<u64>,
    pub edition: u64,
    pub pending: bool,
}

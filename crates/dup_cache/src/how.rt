/// How a page was found.
#[derive(Clone, Copy, Debug, PartialEq, Eq)]
pub enum How {
    /// It was an entry.
    Hit,
    /// It was none, and is one now.
    Miss,
    /// It was none, and couldn't be kept for want of memory.
    MissUnkept,
}

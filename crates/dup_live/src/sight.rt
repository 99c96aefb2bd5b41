// What contracts see of an eye and of a window. No value of these types is made.
use crate::deed::Log;

/// An eye: the log that it saw last, the longest log that it was told of, how many entries gave it what is
/// published, and how many gave it nothing.
pub struct Sight {
    pub seen: Log,
    pub told: Log,
    pub entries: u64,
    pub blanks: u64,
}

/// A window: its eye, and the log of the edition that it keeps.
pub struct Pane {
    pub eye: Sight,
    pub log: Log,
}

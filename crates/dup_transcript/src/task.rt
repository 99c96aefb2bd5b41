/// What the program is asked to do.
#[derive(Clone, Copy, Debug, PartialEq, Eq)]
pub enum Task {
    /// To play a script over a site.
    Play,
    /// To check a site text.
    Check,
    /// To render each page of a site.
    Render,
}

//! Published editions for readers that never wait.
//!
//! An outlet publishes an edition at one step, beside readers that take it at one step and take no lock. A
//! window keeps the edition that it took last. What an outlet does is written into a book, of which a notice
//! is a beginning: a reader that hears one takes no edition from then on that is older.
#![tactic(auto)]

mod book;
mod copies;
mod deed;
mod eye;
mod notice;
mod outlet;
mod places;
mod rule;
mod shown;
mod sight;
mod window;

pub use book::{Naming, Opened};
pub use deed::Log;
pub use eye::Eye;
pub use notice::Notice;
pub use outlet::LiveOutlet;
pub use places::{Failed, FewPlaces, LiveRefusal, Places, RealPlaces, open_live};
pub use sight::{Pane, Sight};
pub use window::LiveWindow;

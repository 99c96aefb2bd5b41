//! What the contents of a site are, what their pages show, how pages are published and served, and
//! the laws of all this.
//!
//! The definitions stand in `specs`. A law is a function without a body: its contract is the law.
#![tactic(auto)]

mod content_laws;
mod edit;
mod feed_refusal;
mod mark;
mod mode;
mod publishing_laws;
mod rendering_laws;
mod serving_laws;

pub use content_laws::{commits_law, versions_law};
pub use edit::Edit;
pub use feed_refusal::FeedRefusal;
pub use mark::Mark;
pub use mode::Mode;
pub use publishing_laws::{bundle_law, closed_law, targets_law};
pub use rendering_laws::{
    changes_law, columns_law, expansions_law, good_sites_law, incremental_law, jobs_law, shows_law,
    uses_law,
};
pub use serving_laws::serving_law;

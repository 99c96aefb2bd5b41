//! Editions: the pages that are published, and the log of bundles that made them.
//!
//! An edition is seen as its site and its log; its pages are the fold of the log. An outlet is where
//! records of bundles go.
#![tactic(auto)]

mod edition;
mod outlet;
mod page;
mod pages;
mod record;

pub use edition::{Changes, Edition};
pub use outlet::{Outlet, PlainNotice, PlainOutlet};
pub use page::Page;
pub use record::BundleRec;

#[cfg(test)]
mod tests;

//! Sites: kinds, templates and page declarations, and what makes them good.
//!
//! `Parts` are what a site text says; `Site::check` makes a `Site` of parts that break no rule.
//! `path_of` and `obj_of` lead from an object to its page's path and back; `page_path` from a
//! template's name to a path, and `row_path` is that of a family's page without a look-up.
#![tactic(auto)]

mod bodies;
mod check;
mod laws;
mod measure;
mod numbers;
mod paths;
mod plain;
mod refusal;
mod same;
mod shared_body;
mod site;
mod statement;
mod value;
mod with_body;

pub use laws::same_bodies_law;
pub use paths::{obj_of, page_path, path_of, row_path};
pub use plain::{Plain, Prefix};
pub use refusal::{SiteRefusal, SiteTextRefusal, What};
pub use shared_body::SharedBody;
pub use site::{KindPart, PageRule, Parts, Site, TemplatePart};
pub use statement::{Body, Statement};
pub use value::Value;

#[cfg(test)]
mod tests;

//! The text of a site: `read_site` reads and checks it, `site_text` writes it. `read_body` and `body_lines` read
//! and write the body of one template.
//!
//! A text that is no good site's has its first cause; the canonical text reads back as the same site.
#![tactic(auto)]

mod body;
mod draft;
mod forms;
mod keeping;
mod read_line;
mod reading;
mod site_line;
mod text_laws;
mod writing;

pub use body::{body_lines, read_body};
pub use dup_template::SiteTextRefusal;
pub use reading::read_site;
pub use text_laws::{bodies_law, texts_law};
pub use writing::site_text;

#[cfg(test)]
mod tests;

//! Sets of objects, in object order, and tables of what is kept of objects.
//!
//! What is added all at once is added whole or not at all.
#![tactic(auto)]

mod obj_set;
mod table;

pub use obj_set::ObjSet;
pub use table::Table;

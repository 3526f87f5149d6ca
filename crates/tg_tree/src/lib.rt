//! Trees of files, as folders show them.
#![tactic(auto)]

mod items;
mod tree;

pub use items::{Item, Sort, path_of_entry, sort_by_name};
pub use tree::{Tree, list_items};

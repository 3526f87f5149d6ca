//! Laws of the block model: what follows from its definitions alone, and of the traversal of a DAG for a query, block by
//! block, with the tasks that are left of it. Each is the contract of a function that does nothing; code calls such a
//! function where its own proof needs the law.
#![tactic(auto)]

mod beside;
mod examples;
mod fitting;
mod openings;
mod partial;
mod places;
mod resolving;
mod sizes;
mod sound;
mod stages;
mod steps;
mod stores;
mod verified;
mod walks;

pub use beside::beside_dags;
pub use examples::parts_at_a_range;
pub use fitting::{against_every_peer, front_sections, one_fit, own_absences, own_sections};
pub use openings::taken_blocks;
pub use partial::{opened_texts, partial_dags};
pub use places::{met_parts, placed_children, placed_shards};
pub use resolving::resolved_paths;
pub use sizes::file_sizes;
pub use sound::{paths, traversals};
pub use stages::traversal_stages;
pub use steps::{traversal_steps, traversals_joined};
pub use stores::{cut_traversals, kept_sections, shown_dags};
pub use verified::verified_sections;
pub use walks::store_walks;

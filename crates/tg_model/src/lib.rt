//! The block model: what a block is read as, what a DAG of blocks says, what a query asks of it, and the steps that go
//! over one block.
#![tactic(auto)]

mod fault;
mod folders;
mod kinds;
pub mod laws;
mod limits;
mod links;
mod placed;
mod queries;
mod reading;
mod shards;
mod steps;
mod stores;
mod windows;

pub use fault::BlockFault;
pub use folders::is_good_name;
pub use kinds::{Entry, Kind, Made, NewEntry, Part, Slot, Step};
pub use limits::{LimitKind, Limits};
pub use links::part_at;
pub use placed::{FilePlaces, PartCursor, PlacedKind, reads_in_place};
pub use queries::{Form, Path, Query, Scope, Span, SpanFrom, well_formed};
pub use reading::reads;
pub use shards::check_shard;
pub use steps::step;
pub use stores::{Blocks, BlocksFault, DropKeep, Keep, KeepFault};
pub use windows::{resolve_span, window};

//! What requests ask: paths, words and byte ranges, targets and `Accept` fields read as queries, and the request that a
//! client prints for a query.
#![tactic(auto)]

mod accepts;
mod cuts;
mod fault;
mod joins;
pub mod laws;
pub mod path_laws;
mod paths;
mod requests;
mod spans;
mod targets;
mod types;
mod words;

pub use accepts::{Accepted, CarChoice, parse_accept};
pub use cuts::cut_first;
pub use fault::QueryFault;
pub use joins::join;
pub use paths::{MAX_SEGMENTS, parse_behind, parse_path};
pub use requests::{print_request, push_asked_path};
pub use spans::parse_span;
pub use targets::{Target, parse_target};
pub use types::{car_type, is_type_of, raw_type};
pub use words::{behind_front, parse_rooted, parse_word};

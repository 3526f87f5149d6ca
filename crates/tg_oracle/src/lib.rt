//! A plain and slow evaluator of queries over stored blocks. Tests of other crates compare their answers with its.
#![tactic(auto)]

mod evaluation;
mod hello_world;
mod queries;
mod ranges;
mod sizes;
mod small_dags;
mod texts;

pub use evaluation::{End, Evaluation, EvaluationFault, Sent, StoredBlock, evaluate};
pub use hello_world::{example_blocks, example_import, example_partial, example_whole};
pub use queries::{QueryFault, ranged_query, scoped_query, span_of};
pub use ranges::{bounds, is_met};
pub use sizes::car_size;
pub use small_dags::{small_directories, small_files, small_shards};

//! The text of an answer that is made into a tree of files as it comes.
#![tactic(auto)]

mod answers;
mod counts;
mod extract;
mod fault;
mod laws;
mod lines;
mod telling;

pub use answers::made_answers;
pub use counts::Counts;
pub use extract::Extract;
pub use fault::ExtractFault;
pub use laws::made_records;
pub use telling::TellExtract;

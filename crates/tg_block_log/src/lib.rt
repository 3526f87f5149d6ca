//! A store that logs each section that is kept in it, and tells what it logged. Its tests show what a caller behind
//! generic code still knows of its store.
#![tactic(auto)]

mod block_log;
mod logged_block;
#[cfg(test)]
mod stores;

pub use block_log::BlockLog;
pub use logged_block::LoggedBlock;

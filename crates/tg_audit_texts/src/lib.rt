//! What an audit asks of a drawn folder, which answers it expects by what was drawn alone, and the text that it tells.
#![tactic(auto)]

mod expected;
mod hashing;
mod queries;
mod summary;

pub use expected::expected_answers;
pub use hashing::{Hashed, Hashing};
pub use queries::{absent_query, answer_queries};
pub use summary::summary_text;

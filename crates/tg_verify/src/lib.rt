//! The verifier of a query's sections: it takes them one by one, each as the next block that the query asks for, and
//! writes what they say.
#![tactic(auto)]

mod absence;
mod all;
mod checking;
mod counts;
mod fault;
mod known;
pub mod laws;
mod opener;
mod settling;
mod terminal;
mod verifier;

pub use all::verify_all;
pub use fault::Refusal;
pub use terminal::Terminal;
pub use verifier::{Progress, Verifier};

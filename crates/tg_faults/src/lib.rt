//! Faults of objects of the outside: how they are told and counted, and calls that fail by their numbers.
#![tactic(auto)]

mod calls;

pub use calls::{Calls, Failed};

//! The mirror: a whole DAG is fetched from a gateway that isn't trusted into a store that serves as its original.
#![tactic(auto)]

pub mod laws;

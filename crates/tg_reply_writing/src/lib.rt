//! What a gateway writes: what a request's head asks, and the heads, texts and CAR parts of replies.
#![tactic(auto)]

mod asking;
mod car_parts;
mod fields;
mod heads;
mod refusals;

pub use asking::{AskFault, asked};
pub use car_parts::{car_header, section_front};
pub use heads::{car_head, raw_head, refusal_reply};
pub use refusals::{ends_connection, status_of};

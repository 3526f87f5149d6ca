//! What a gateway's reply to a request is: the query that a head asks, the text of a reply, the replies to a stream of
//! bytes, and what a session has sent for the bytes that it was fed, reply by reply, with its laws.
#![tactic(auto)]

mod examples;
mod laws;
mod refusal;
mod sending;
mod sent_worked;
mod status;
mod streams;

pub use examples::{absence_replies, block_replies, computed_replies, text_replies, two_replies};
pub use laws::{
    asked_queries, asked_replies_read, car_bytes, car_texts, cut_places, no_memory, raw_queries,
    replies_read, reply_bodies, reply_heads, request_targets, sent_sections, told_paths,
};
pub use refusal::Refusal;
pub use sending::{
    numbers_of_sent, sent_begins, sent_is_determined, sent_is_shaped, sent_joins, sessions_go_on,
};
pub use sent_worked::sent_examples;
pub use status::Status;
pub use streams::{first_heads, one_request, one_writing};

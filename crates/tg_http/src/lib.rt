//! HTTP/1.1 heads read from bytes, the framing that they state, and the lines before chunks.
#![tactic(auto)]

mod chunk;
mod cursor;
mod examples;
mod fault;
mod fields;
mod framing;
mod head_text;
pub mod laws;
mod reply;
mod request;

pub use chunk::chunk_head;
pub use cursor::{HeadCursor, next_reply, next_request};
pub use examples::endless_line;
pub use fault::HttpFault;
pub use fields::without_spaces;
pub use framing::Framing;
pub use head_text::{MAX_FIELDS, MAX_TEXT, is_empty_line, line_length};
pub use reply::{ReplyHead, read_reply};
pub use request::{RequestHead, read_request};

//! The listing of a directory, put into a sink.
#![tactic(auto)]

mod fault;
mod line;
mod listing;

pub use fault::ListingFault;
pub use line::ListingLine;
pub use listing::put_listing;

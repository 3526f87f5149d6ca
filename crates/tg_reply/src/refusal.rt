//! Why a request gets no block.
use tg_query::QueryFault;

/// Why a request gets a reply of one word, and no block.
///
/// Path Gateway and Trustless Gateway specifications, response status codes.
#[derive(Clone, Copy, PartialEq, Eq)]
pub enum Refusal {
    /// The first 16,384 bytes hold no whole head, or the head has more than 64 fields.
    HeadLimit,
    /// The head is none of the grammar of HTTP.
    BadHead,
    /// The request has a `Transfer-Encoding`, or a `Content-Length` other than one of value 0.
    BadFraming,
    /// The method is neither `GET` nor `HEAD`.
    BadMethod,
    /// The target or `Accept` asks for nothing that is served.
    Query(QueryFault),
    /// The root isn't stored.
    NoRoot,
    /// The store failed, or a stored block has changed.
    Store,
    /// A block on the path isn't stored.
    Gone,
    /// A block on the path has no kind, or can't stand where it stands.
    BadBlock,
}

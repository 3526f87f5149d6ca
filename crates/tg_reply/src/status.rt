//! Statuses of replies.

/// The status of a reply.
///
/// RFC 9110, section 15; RFC 6585, section 5.
#[derive(Clone, Copy, PartialEq, Eq)]
pub enum Status {
    /// 200: the path of the query leads to a block.
    Ok,
    /// 400: the request asks for nothing that can be read.
    BadRequest,
    /// 404: the root isn't stored, or the path leads nowhere.
    NotFound,
    /// 405: the method is neither `GET` nor `HEAD`.
    MethodNotAllowed,
    /// 406: a CAR with parameters that aren't served.
    NotAcceptable,
    /// 431: the head is too long or has too many fields.
    FieldsTooLarge,
    /// 500: the store has no good block on the path.
    ServerError,
}

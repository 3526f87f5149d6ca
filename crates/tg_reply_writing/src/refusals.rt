//! The statuses and the texts of refusals.
ghost use Rattle.std.specs.Prelude.{◌≡◌, ◌++◌, ◌∷◌, []};
ghost use Rattle.tg_bytes.specs.Ascii.{line_feed};
ghost use Rattle.tg_reply.specs.Heads.{text_of};
ghost use Rattle.tg_reply.specs.Refusals.{ends_connection, query_status, query_word, status_of};

use tg_query::QueryFault;
use tg_reply::{Refusal, Status};

/// The status of a refusal.
///
/// RFC 9110, section 15; RFC 6585, section 5; Path Gateway and Trustless Gateway specifications, response status codes.
pub fn status_of(refusal: Refusal) -> Status
    ensures { result ≡ status_of refusal }
{
    match refusal {
        Refusal::HeadLimit => Status::FieldsTooLarge,
        Refusal::BadHead | Refusal::BadFraming => Status::BadRequest,
        Refusal::BadMethod => Status::MethodNotAllowed,
        Refusal::Query(fault) => query_status(fault),
        Refusal::NoRoot => Status::NotFound,
        Refusal::Store | Refusal::Gone | Refusal::BadBlock => Status::ServerError,
    }
}

/// The status of a query's fault.
fn query_status(fault: QueryFault) -> Status
    ensures { result ≡ query_status fault }
{
    match fault {
        QueryFault::BadParam => Status::NotAcceptable,
        QueryFault::OutOfMemory => Status::ServerError,
        QueryFault::BadPath
        | QueryFault::BadCid(_)
        | QueryFault::NoFormat
        | QueryFault::BadFormat
        | QueryFault::BadScope
        | QueryFault::BadRange
        | QueryFault::Doubled
        | QueryFault::RawPath => Status::BadRequest,
    }
}

/// Whether the connection closes behind the reply to a refused request: where the head or the body of the request ends
/// isn't known.
///
/// RFC 9112, section 9.6.
pub fn ends_connection(refusal: Refusal) -> bool
    ensures { result ≡ ends_connection refusal }
{
    match refusal {
        Refusal::HeadLimit | Refusal::BadHead | Refusal::BadFraming => true,
        Refusal::BadMethod
        | Refusal::Query(_)
        | Refusal::NoRoot
        | Refusal::Store
        | Refusal::Gone
        | Refusal::BadBlock => false,
    }
}

/// The text of a refusal: its word and a line feed.
pub(crate) fn text_of(refusal: Refusal) -> &'static [u8]
    ensures { result.now ≡ text_of refusal }
{
    match refusal {
        Refusal::HeadLimit => b"HeadLimit\n",
        Refusal::BadHead => b"BadHead\n",
        Refusal::BadFraming => b"BadFraming\n",
        Refusal::BadMethod => b"BadMethod\n",
        Refusal::Query(fault) => query_text(fault),
        Refusal::NoRoot => b"NoRoot\n",
        Refusal::Store => b"Store\n",
        Refusal::Gone => b"Gone\n",
        Refusal::BadBlock => b"BadBlock\n",
    }
}

/// The text of a query's fault.
fn query_text(fault: QueryFault) -> &'static [u8]
    ensures { result.now ≡ query_word fault ++ line_feed ∷ [] }
{
    match fault {
        QueryFault::BadPath => b"BadPath\n",
        QueryFault::BadCid(_) => b"BadCid\n",
        QueryFault::NoFormat => b"NoFormat\n",
        QueryFault::BadFormat => b"BadFormat\n",
        QueryFault::BadScope => b"BadScope\n",
        QueryFault::BadRange => b"BadRange\n",
        QueryFault::Doubled => b"Doubled\n",
        QueryFault::BadParam => b"BadParam\n",
        QueryFault::RawPath => b"RawPath\n",
        QueryFault::OutOfMemory => b"OutOfMemory\n",
    }
}

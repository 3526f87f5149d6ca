//! What the head of a request asks.
ghost use Rattle.std.specs.Prelude.{◌≡◌, ◌||◌};
ghost use Rattle.tg_query.specs.Answers.{Gives};
ghost use Rattle.tg_query.specs.Laws.{asked_by};
ghost use Rattle.tg_reply.specs.Asked.{asked, is_get, is_head};
ghost use Rattle.tg_reply_writing.specs.Asking.{IsAskedAs};

use std::alloc::Global;
use tg_bytes::{Bytes, List};
use tg_http::RequestHead;
use tg_model::Query;
use tg_query::{QueryFault, join, parse_accept, parse_target};
use tg_reply::Refusal;

/// Why the head of a request asks for no query.
#[derive(Clone, Copy, PartialEq, Eq)]
pub enum AskFault {
    /// The request is refused so.
    Refused(Refusal),
    /// No memory was found.
    OutOfMemory,
}

impl From<QueryFault> for AskFault {
    ghost use Rattle.std.specs.Prelude.{◌≡◌};
    ghost use Rattle.tg_reply_writing.specs.Asking.{ask_fault_of};

    ghost from_gives = { λ fault given. given ≡ ask_fault_of fault };

    fn from(fault: QueryFault) -> AskFault {
        match fault {
            QueryFault::OutOfMemory => AskFault::OutOfMemory,
            _ => AskFault::Refused(Refusal::Query(fault)),
        }
    }
}

/// The query that the head of a request asks for.
///
/// RFC 9112, section 6; RFC 9110, section 9; Path Gateway and Trustless Gateway specifications. Errors: `Refused` with,
/// in this order, `BadFraming` where a body is announced, `BadMethod` where the method is neither `GET` nor `HEAD`, and
/// `Query` with the first fault of the target and of `Accept`; and `OutOfMemory`.
pub fn asked(alloc: Global, head: &RequestHead) -> Result<Query, AskFault>
    ensures { IsAskedAs (asked head.now) result }
{
    if head.framed {
        return Err(AskFault::Refused(Refusal::BadFraming));
    }
    if !is_served(head.method.as_slice()) {
        return Err(AskFault::Refused(Refusal::BadMethod));
    }
    Ok(query_of(alloc, head.target.as_slice(), &head.accept)?)
}

/// Whether a method is served.
fn is_served(method: &[u8]) -> bool
    ensures { result ≡ (is_get method.now || is_head method.now) }
{
    method == b"GET".as_slice() || method == b"HEAD".as_slice()
}

/// The query that a target and the values of `Accept` ask for.
fn query_of(alloc: Global, target: &[u8], accept: &List<Bytes>) -> Result<Query, QueryFault>
    ensures { Gives (asked_by target.now accept.now) result }
{
    let target = parse_target(alloc, target)?;
    let accepted = parse_accept(alloc, accept)?;
    join(alloc, target, &accepted)
}

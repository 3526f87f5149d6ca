//! `fetch`.
ghost use Rattle.tg_app.specs.Fetches.{FetchAnswers, IsFetchRefusal};
ghost use Rattle.tg_commands.specs.Lines.{end_of};
ghost use Rattle.tg_dials.specs.Dials.{at_dial};
ghost use Rattle.tg_query.specs.Requests.{IsAddr};
ghost use Rattle.tg_streams.specs.Streams.{into};

use std::alloc::Global;
use tg_commands::CommandFault;
use tg_commands::verify::refusal_of_verifier;
use tg_dials::Dial;
use tg_fetch::{FetchFault, Watch, fetch};
use tg_model::Limits;
use tg_streams::Sink;
use tg_words::Fetch;

/// `fetch`: what a query asks for is fetched from a gateway, and what it says goes to out. `watch` is told how far it has
/// come.
pub fn fetch_answer<D: Dial, O: Sink, W: Watch>(
    alloc: Global,
    asked: &Fetch,
    dial: &mut D,
    out: &mut O,
    watch: &mut W,
) -> Result<(), CommandFault>
    requires { IsAddr asked.now.addr }
    ensures { FetchAnswers asked.now (at_dial D.dial dial.old dial.new) (into O.sink out.old out.new) (end_of result) }
{
    match fetch(
        alloc,
        &asked.query,
        Limits::standard(),
        asked.addr.as_str(),
        dial,
        out,
        watch,
    ) {
        Ok(()) => Ok(()),
        Err(fault) => Err(refusal_of_fetch(alloc, fault)),
    }
}

/// The refusal for a reply that isn't accepted.
pub(crate) fn refusal_of_fetch(alloc: Global, fault: FetchFault) -> CommandFault
    ensures { IsFetchRefusal fault result }
{
    match fault {
        FetchFault::Refused(fault) => refusal_of_verifier(alloc, fault),
        FetchFault::Status(status) => CommandFault::Status { status },
        FetchFault::BadType => CommandFault::BadType,
        FetchFault::BadReplyHead => CommandFault::BadReplyHead,
        FetchFault::BadFraming => CommandFault::BadFraming,
        FetchFault::BadCar(_) => CommandFault::BadCar,
        FetchFault::PeerFault => CommandFault::PeerFault,
        FetchFault::KeepFault => CommandFault::PackFault,
        FetchFault::OutOfMemory => CommandFault::OutOfMemory,
    }
}

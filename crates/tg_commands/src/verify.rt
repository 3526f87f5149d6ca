//! `verify`.
ghost use Rattle.std.specs.Prelude.{◌≡◌, ◌⊎◌, IfOk};
ghost use Rattle.tg_commands.specs.Blocks.{IsTextOf};
ghost use Rattle.tg_commands.specs.Exports.{ShowsOrWants};
ghost use Rattle.tg_commands.specs.Lines.{end_of};
ghost use Rattle.tg_commands.specs.Verify.{IsVerifyRefusal, ShowsCids, VerifyEnds};
ghost use Rattle.tg_client.specs.declared.fault.ClientFault.{ClientFault};
ghost use Rattle.tg_streams.specs.Streams.{into, through};

use crate::fault::CommandFault;
use std::alloc::{AllocError, Global};
use tg_bytes::Bytes;
use tg_cid::Cid;
use tg_client::{ClientFault, verify_car};
use tg_model::{BlockFault, Limits, Query};
use tg_streams::{Sink, Source};
use tg_verify::Refusal as VerifierRefusal;

/// `verify`: the input is verified to be a CAR of what a query asks for, and what it says goes to out.
pub fn verify<I: Source, O: Sink>(
    alloc: Global,
    query: &Query,
    input: &mut I,
    out: &mut O,
) -> Result<(), CommandFault>
    ensures { VerifyEnds query.now (through I.source input.old input.new) (into O.sink out.old out.new)
        (end_of result) }
{
    match verify_car(alloc, query, Limits::standard(), input, out) {
        Ok(()) => Ok(()),
        Err(fault) => Err(refusal_of(alloc, fault)),
    }
}

/// The refusal for a CAR that isn't accepted.
pub fn refusal_of(alloc: Global, fault: ClientFault) -> CommandFault
    ensures { IsVerifyRefusal fault result }
{
    match fault {
        ClientFault::Refused(fault) => refusal_of_verifier(alloc, fault),
        ClientFault::BadCar(_) => CommandFault::BadCar,
        ClientFault::InputFault => CommandFault::InputFault,
        ClientFault::KeepFault => CommandFault::PackFault,
        ClientFault::OutOfMemory => CommandFault::OutOfMemory,
    }
}

/// The refusal for one of the verifier.
pub fn refusal_of_verifier(alloc: Global, fault: VerifierRefusal) -> CommandFault
    ensures { IsVerifyRefusal (ClientFault.Refused fault) result }
{
    match fault {
        VerifierRefusal::Extra { sections } => CommandFault::Extra { sections },
        VerifierRefusal::Limit { kind, number } => CommandFault::Limit { kind, number },
        VerifierRefusal::BadDigest { cid } => bad_digest(alloc, &cid),
        VerifierRefusal::WrongBlock { want, got } => wrong_block(alloc, &want, &got),
        VerifierRefusal::BadBlock { cid, fault } => bad_received(alloc, &cid, fault),
        VerifierRefusal::BadSize { declared, actual } => CommandFault::BadSize { declared, actual },
        VerifierRefusal::NotFolder { segment } => CommandFault::NotFolder { segment },
        VerifierRefusal::NotThere { segment } => CommandFault::NotThere { segment },
        VerifierRefusal::SinkFault => CommandFault::SinkFault,
        VerifierRefusal::Truncated { want, sections } => truncated(alloc, &want, sections),
        VerifierRefusal::OutOfMemory => CommandFault::OutOfMemory,
    }
}

/// The refusal for a block that its CID doesn't name, or for want of memory for the CID's text.
fn bad_digest(alloc: Global, cid: &Cid) -> CommandFault
    ensures { ShowsOrWants CommandFault.BadDigest cid.now result }
{
    match cid.to_text(alloc) {
        Ok(cid) => CommandFault::BadDigest { cid },
        Err(_) => CommandFault::OutOfMemory,
    }
}

/// The refusal for another block than the wanted one, or for want of memory for a CID's text.
fn wrong_block(alloc: Global, want: &Cid, got: &Cid) -> CommandFault
    ensures { ShowsCids CommandFault.WrongBlock want.now got.now result ⊎ (result ≡ CommandFault.OutOfMemory) }
{
    match shown(alloc, want, got) {
        Ok((want, got)) => CommandFault::WrongBlock { want, got },
        Err(_) => CommandFault::OutOfMemory,
    }
}

/// The texts of two CIDs in version 1. The error is want of memory.
fn shown(alloc: Global, first: &Cid, second: &Cid) -> Result<(Bytes, Bytes), AllocError>
    ensures { IfOk result (λ texts. IsTextOf first.now texts.0 × IsTextOf second.now texts.1) }
{
    Ok((first.to_text(alloc)?, second.to_text(alloc)?))
}

/// The refusal for a block without a kind, or for want of memory for its CID's text.
fn bad_received(alloc: Global, cid: &Cid, fault: BlockFault) -> CommandFault
    ensures { ShowsOrWants (λ text. CommandFault.BadReceived text fault) cid.now result }
{
    match cid.to_text(alloc) {
        Ok(cid) => CommandFault::BadReceived { cid, fault },
        Err(_) => CommandFault::OutOfMemory,
    }
}

/// The refusal for a CAR that ends before the last section, or for want of memory for the text of the wanted CID.
fn truncated(alloc: Global, want: &Cid, sections: u64) -> CommandFault
    ensures { ShowsOrWants (λ text. CommandFault.Truncated text sections) want.now result }
{
    match want.to_text(alloc) {
        Ok(want) => CommandFault::Truncated { want, sections },
        Err(_) => CommandFault::OutOfMemory,
    }
}

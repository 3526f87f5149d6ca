//! A query's sections in a list.
ghost use Rattle.std.specs.Prelude.{map};
ghost use Rattle.tg_streams.specs.Streams.{into};
ghost use Rattle.tg_verify.specs.History.{AllEnd, section_of_pair};
ghost use Rattle.tg_verify.specs.Taken.{IsFresh};

use crate::fault::Refusal;
use crate::verifier::Verifier;
use std::alloc::Global;
use tg_bytes::{Bytes, List};
use tg_cid::Cid;
use tg_model::{Limits, Query};
use tg_streams::Sink;

/// Verifies the sections of a query, from the first one on, and puts what they say. It answers the CID of the block
/// that is wanted behind them, or none where they are all that the query asks for. Each block is copied.
///
/// Trustless Gateway specification, dag-scope, entity-bytes and dups. Errors: those of `Verifier::start` and
/// `Verifier::section`.
pub fn verify_all<S: Sink>(
    alloc: Global,
    query: &Query,
    limits: Limits,
    sections: &List<(Cid, Bytes)>,
    out: &mut S,
) -> Result<Option<Cid>, Refusal>
    ensures { AllEnd query.now limits (map section_of_pair sections.now) (into S.sink out.old out.new) result }
{
    tg_model_laws::verified_sections();
    match Verifier::new(alloc, query, limits) {
        Ok(mut verifier) => take_all(alloc, &mut verifier, sections, out),
        Err(_) => Err(Refusal::OutOfMemory),
    }
}

/// Starts a verifier and hands it these sections, and answers the CID of the block that is wanted behind them. Errors:
/// those of `Verifier::start` and `Verifier::section`.
fn take_all<S: Sink>(
    alloc: Global,
    verifier: &mut Verifier,
    sections: &List<(Cid, Bytes)>,
    out: &mut S,
) -> Result<Option<Cid>, Refusal>
    requires fresh { IsFresh verifier.old }
    ensures { AllEnd verifier.old.left.query verifier.old.limits (map section_of_pair sections.now)
        (into S.sink out.old out.new) result }
{
    verifier.start(out)?;
    for (cid, block) in sections.as_slice() {
        let block = Bytes::of(alloc, block.as_slice())?;
        verifier.section(*cid, block, out)?;
    }
    Ok(verifier.want())
}

//! Audits: what a gateway answers of a drawn folder, compared with what is expected.
ghost use Rattle.std.specs.Prelude.{◌≡◌, ◌↔◌, ◌<◌, ◌≤◌, IsTrue, MatchResult, length};
ghost use Rattle.tg_audit.specs.Asking.{IsAnsweredBy};
ghost use Rattle.tg_audit.specs.Audits.{AreAnswered, AuditEnds, IsAbsent, IsAnsweredAs, IsAudited, IsUnabsent};
ghost use Rattle.tg_audit.specs.Audits.{IsUnansweredAs, IsUnaudited, IsUnexpected, StopsAt, not_there};
ghost use Rattle.tg_audit.specs.declared.fault.AuditFault.{AuditFault};
ghost use Rattle.tg_streams.specs.Streams.{into};

use crate::asking::ask;
use crate::fault::AuditFault;
use crate::laws;
use crate::packing::{Packed, attach, import_tree};
use std::alloc::Global;
use tg_audit_texts::{Hashed, absent_query, answer_queries, expected_answers, summary_text};
use tg_bytes::Bytes;
use tg_draws::{draw, tree_of};
use tg_fetch::FetchFault;
use tg_model::{Blocks, Query};
use tg_streams::{Sink, put_all};
use tg_verify::Refusal;

/// The number of the query of a name that isn't there.
const ABSENT: u64 = 9;

/// Audits this build on this machine: draws a folder from a seed, with so many files in its folder `many`, imports it in
/// memory, asks a gateway for it by nine queries over a door and a dial in memory as a client does, compares what the
/// client writes with what is expected by what was drawn, and puts a text that tells it.
///
/// This project's own text. `files` is 1 to 1,000,000. Errors, with which nothing was put: `Import` and `Pack` where the
/// folder can't be imported and attached; `Client`, `Limit` and `Differs` for the first query that is refused or whose
/// answer isn't the expected one, which comes only where two different blocks of the folder's DAG have one SHA-256, or
/// `many` has more shards than its listing may remember, which takes more than 393,113 files; and `OutOfMemory`, also where
/// a store, a door or a dial in memory failed; and `SinkFault` where out failed in the text.
pub fn audit<S: Sink>(alloc: Global, seed: u64, files: u32, out: &mut S) -> Result<(), AuditFault>
    requires some { 0 < files }
    requires few { files ≤ 1000000 }
    ensures { AuditEnds seed files (into S.sink out.old out.new) result }
{
    laws::denied_audits();
    let text = audited(alloc, seed, files)?;
    match put_all(out, text.as_slice()) {
        Ok(()) => Ok(()),
        Err(_) => Err(AuditFault::SinkFault),
    }
}

/// The text of an audit that finds every answer as it is expected. Errors: those of `audit` but `SinkFault`.
fn audited(alloc: Global, seed: u64, files: u32) -> Result<Bytes, AuditFault>
    requires some { 0 < files }
    requires few { files ≤ 1000000 }
    ensures { MatchResult result (λ text. IsAudited seed files text) (IsUnaudited seed files) }
{
    let drawn = draw(alloc, seed, files)?;
    let expected = expected_answers(alloc, &drawn)?;
    let packed = import_tree(alloc, tree_of(alloc, drawn)?)?;
    answered(alloc, packed, expected.as_slice())
}

/// The text for a folder that was imported, whose answers are expected to have these lengths and digests. Errors: `Pack`,
/// `Client`, `Limit`, `Differs` and `OutOfMemory`.
fn answered(alloc: Global, packed: Packed, expected: &[Hashed]) -> Result<Bytes, AuditFault>
    requires { length expected.now ≡ 8 }
    ensures { MatchResult result (IsAnsweredAs packed expected.now) (IsUnansweredAs packed expected.now) }
{
    let Packed {
        root,
        summary,
        pack,
    } = packed;
    let queries = answer_queries(alloc, root)?;
    let absent = absent_query(alloc, root)?;
    let mut store = attach(alloc, pack)?;
    compare_all(alloc, queries.as_slice(), expected, &mut store)?;
    find_absent(alloc, &absent, &mut store)?;
    Ok(summary_text(alloc, &root, &summary, expected)?)
}

/// Asks for each query, and compares its answer with what is expected of it. Errors: those of `compare`, of the first
/// query that has one.
fn compare_all<B: Blocks>(
    alloc: Global,
    queries: &[Query],
    expected: &[Hashed],
    blocks: &mut B,
) -> Result<(), AuditFault>
    requires { length queries.now ≡ length expected.now }
    ensures ends { MatchResult result (λ _. AreAnswered (B.blocks.stored blocks.old) queries.now expected.now)
        (StopsAt (B.blocks.stored blocks.old) queries.now expected.now) }
    ensures same { B.blocks.stored blocks.new ≡ B.blocks.stored blocks.old }
{
    for (i, query) in queries.iter().enumerate() {
        compare(alloc, query, expected[i], i as u64 + 1, blocks)?;
    }
    Ok(())
}

/// Asks for the query with this number, and compares its answer with what is expected of it. Errors: those of `ask`; and
/// `Differs` where it is another.
fn compare<B: Blocks>(
    alloc: Global,
    query: &Query,
    expected: Hashed,
    number: u64,
    blocks: &mut B,
) -> Result<(), AuditFault>
    ensures ends { MatchResult result (λ _. IsAnsweredBy (B.blocks.stored blocks.old) query.now expected)
        (IsUnexpected (B.blocks.stored blocks.old) query.now expected number) }
    ensures same { B.blocks.stored blocks.new ≡ B.blocks.stored blocks.old }
{
    if ask(alloc, query, blocks)? == expected {
        Ok(())
    } else {
        Err(AuditFault::Differs { query: number })
    }
}

/// Asks for the query of a name that isn't there, and sees to it that the client is shown that. Errors: those of `ask`
/// but this one; and `Differs` where there is an answer.
fn find_absent<B: Blocks>(alloc: Global, query: &Query, blocks: &mut B) -> Result<(), AuditFault>
    ensures { MatchResult result (λ _. IsAbsent (B.blocks.stored blocks.old) query.now)
        (IsUnabsent (B.blocks.stored blocks.old) query.now) }
{
    match ask(alloc, query, blocks) {
        Ok(_) => Err(AuditFault::Differs { query: ABSENT }),
        Err(fault) => {
            if shows_absence(&fault) {
                return Ok(());
            }
            Err(fault)
        }
    }
}

/// Whether the client was shown that the path's first segment leads nowhere.
fn shows_absence(fault: &AuditFault) -> bool
    ensures { IsTrue result ↔ (fault.now ≡ AuditFault.Client not_there) }
{
    let AuditFault::Client(fault) = fault else {
        return false;
    };
    let FetchFault::Refused(refusal) = fault else {
        return false;
    };
    let Refusal::NotThere { segment } = refusal else {
        return false;
    };
    *segment == 0
}

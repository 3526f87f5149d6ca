//! `audit`.
ghost use Rattle.std.specs.Prelude.{◌<◌, ◌≤◌};
ghost use Rattle.tg_app.specs.Audits.{AuditAnswers, IsAuditRefusal};
ghost use Rattle.tg_commands.specs.Lines.{end_of};
ghost use Rattle.tg_streams.specs.Streams.{into};

use crate::fetching::refusal_of_fetch;
use std::alloc::Global;
use tg_audit::{AuditFault, audit};
use tg_commands::CommandFault;
use tg_commands::export::refusal_of_pack;
use tg_commands::import::refusal_of_import;
use tg_model::LimitKind;
use tg_streams::Sink;
use tg_words::Audit;

/// `audit`: a folder that a seed draws is imported, served and fetched in memory, and a text that tells it goes to out.
pub fn audit_build<O: Sink>(alloc: Global, asked: &Audit, out: &mut O) -> Result<(), CommandFault>
    requires some { 0 < asked.now.files }
    requires few { asked.now.files ≤ 20000 }
    ensures { AuditAnswers asked.now (into O.sink out.old out.new) (end_of result) }
{
    match audit(alloc, asked.seed, asked.files, out) {
        Ok(()) => Ok(()),
        Err(fault) => Err(refusal_of_audit(alloc, fault)),
    }
}

/// The refusal for an audit that doesn't end well.
fn refusal_of_audit(alloc: Global, fault: AuditFault) -> CommandFault
    ensures { IsAuditRefusal fault result }
{
    match fault {
        AuditFault::Import(fault) => refusal_of_import(alloc, fault),
        AuditFault::Pack(fault) => refusal_of_pack(fault),
        AuditFault::Client(fault) => refusal_of_fetch(alloc, fault),
        AuditFault::Limit { number } => CommandFault::Limit {
            kind: LimitKind::Received,
            number,
        },
        AuditFault::Differs { query } => CommandFault::Differs { query },
        AuditFault::SinkFault => CommandFault::SinkFault,
        AuditFault::OutOfMemory => CommandFault::OutOfMemory,
    }
}

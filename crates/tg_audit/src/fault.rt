//! Why an audit doesn't end well.
use std::alloc::AllocError;
use tg_fetch::FetchFault;
use tg_import::ImportFault;
use tg_store::PackFault;
use thiserror::Error;

/// Why an audit doesn't end well. No inner fault is want of memory.
#[derive(Debug, Drop, Error)]
pub enum AuditFault {
    /// The folder can't be imported: two of its names have one hash, say.
    #[error("Import")]
    Import(ImportFault),
    /// The pack that was made can't be attached.
    #[error("Pack")]
    Pack(PackFault),
    /// The client refuses what the gateway said.
    #[error("{0}")]
    Client(FetchFault),
    /// The gateway refuses the request, which has more bytes than may be received on a link: this number.
    #[error("Limit Received {number}")]
    Limit { number: u64 },
    /// The query with this number has another answer than the one that is expected of it.
    #[error("Differs {query}")]
    Differs { query: u64 },
    /// A fault of out was counted. A front of the text was put.
    #[error("SinkFault")]
    SinkFault,
    /// No memory was found.
    #[error("OutOfMemory")]
    OutOfMemory,
}

impl From<AllocError> for AuditFault {
    ghost use Rattle.std.specs.Prelude.{◌≡◌};
    ghost use Rattle.tg_audit.specs.declared.fault.AuditFault.TheVariants.{OutOfMemory};

    ghost from_gives = { λ _ fault. fault ≡ OutOfMemory };

    fn from(_: AllocError) -> AuditFault {
        AuditFault::OutOfMemory
    }
}

impl From<ImportFault> for AuditFault {
    ghost use Rattle.std.specs.Prelude.{◌≡◌};
    ghost use Rattle.tg_audit.specs.Faults.{fault_of_import};

    ghost from_gives = { λ fault given. given ≡ fault_of_import fault };

    /// A fault of a folder or of a pack in memory comes for want of memory alone.
    fn from(fault: ImportFault) -> AuditFault {
        match fault {
            ImportFault::Folder | ImportFault::Keep | ImportFault::OutOfMemory => {
                AuditFault::OutOfMemory
            }
            ImportFault::TooDeep { .. }
            | ImportFault::BadName { .. }
            | ImportFault::LongName { .. }
            | ImportFault::SameHash { .. }
            | ImportFault::NotPlain { .. }
            | ImportFault::TooBig { .. } => AuditFault::Import(fault),
        }
    }
}

impl From<PackFault> for AuditFault {
    ghost use Rattle.std.specs.Prelude.{◌≡◌};
    ghost use Rattle.tg_audit.specs.Faults.{fault_of_pack};

    ghost from_gives = { λ fault given. given ≡ fault_of_pack fault };

    /// A fault of a pack in memory comes for want of memory alone.
    fn from(fault: PackFault) -> AuditFault {
        match fault {
            PackFault::Failed | PackFault::OutOfMemory => AuditFault::OutOfMemory,
            PackFault::NotCar { .. }
            | PackFault::BadDigest { .. }
            | PackFault::Unfinished
            | PackFault::Truncated { .. }
            | PackFault::BlockLimit { .. } => AuditFault::Pack(fault),
        }
    }
}

impl From<FetchFault> for AuditFault {
    ghost use Rattle.std.specs.Prelude.{◌≡◌};
    ghost use Rattle.tg_audit.specs.Faults.{fault_of_fetch};

    ghost from_gives = { λ fault given. given ≡ fault_of_fetch fault };

    /// A fault of a dial in memory comes for want of memory alone.
    fn from(fault: FetchFault) -> AuditFault {
        match fault {
            FetchFault::PeerFault | FetchFault::OutOfMemory => AuditFault::OutOfMemory,
            fault => AuditFault::Client(fault),
        }
    }
}

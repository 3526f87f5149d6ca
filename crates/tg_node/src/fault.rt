//! Why there is no text of a block.
use std::alloc::AllocError;
use tg_pbtable::PbFault;
use tg_unixfs::UnixFault;
use thiserror::Error;

/// Why `node` writes nothing of a block under a DAG-PB CID.
#[derive(Clone, Copy, Debug, PartialEq, Eq, Error)]
pub enum NodeFault {
    /// The block is no DAG-PB node.
    #[error("BadNode")]
    BadNode,
    /// The hash of a link isn't the bytes of a CID.
    #[error("BadLink")]
    BadLink,
    /// The node's data is no UnixFS data.
    #[error("BadUnix")]
    BadUnix,
}

/// Why there is no text of a block.
#[derive(Clone, Copy, Debug, PartialEq, Eq, Error)]
pub enum TextFault {
    /// The block is at fault.
    #[error("{0}")]
    Block(NodeFault),
    /// No memory was found for the text.
    #[error("OutOfMemory")]
    OutOfMemory,
}

impl From<AllocError> for TextFault {
    ghost use Rattle.std.specs.Prelude.{◌≡◌};
    ghost use Rattle.tg_node.specs.declared.fault.TextFault.TheVariants.{OutOfMemory};

    ghost from_gives = { λ _ e. e ≡ OutOfMemory };

    fn from(_fault: AllocError) -> TextFault {
        TextFault::OutOfMemory
    }
}

impl From<PbFault> for TextFault {
    ghost use Rattle.std.specs.Prelude.{◌≡◌};
    ghost use Rattle.tg_node.specs.NodeTexts.{fault_of_pb};

    ghost from_gives = { λ fault e. e ≡ fault_of_pb fault };

    fn from(fault: PbFault) -> TextFault {
        match fault {
            PbFault::OutOfMemory => TextFault::OutOfMemory,
            PbFault::Short { .. }
            | PbFault::BadVarint { .. }
            | PbFault::Unknown { .. }
            | PbFault::WrongWire { .. }
            | PbFault::OutOfOrder { .. }
            | PbFault::Doubled { .. }
            | PbFault::Missing { .. } => TextFault::Block(NodeFault::BadNode),
        }
    }
}

impl From<UnixFault> for TextFault {
    ghost use Rattle.std.specs.Prelude.{◌≡◌};
    ghost use Rattle.tg_node.specs.NodeTexts.{fault_of_unix};

    ghost from_gives = { λ fault e. e ≡ fault_of_unix fault };

    fn from(fault: UnixFault) -> TextFault {
        match fault {
            UnixFault::OutOfMemory => TextFault::OutOfMemory,
            UnixFault::Pb(_)
            | UnixFault::BadTime(_)
            | UnixFault::BadKind { .. }
            | UnixFault::BadHash { .. }
            | UnixFault::BadFanout { .. } => TextFault::Block(NodeFault::BadUnix),
        }
    }
}

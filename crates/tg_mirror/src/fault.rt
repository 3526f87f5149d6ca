//! Why a DAG isn't mirrored.
use tg_fetch::FetchFault;
use tg_store::PackFault;
use thiserror::Error;

/// Why a DAG isn't mirrored.
#[derive(Clone, Copy, Debug, Error)]
pub enum MirrorFault {
    /// The reply isn't the DAG, or the peer failed; `KeepFault` where the pack failed at a section. Want of memory is here.
    #[error("{0}")]
    Client(FetchFault),
    /// The pack failed and counted it where it was begun or finished: `Failed` alone.
    #[error("{0}")]
    Pack(PackFault),
}

impl From<FetchFault> for MirrorFault {
    ghost use Rattle.std.specs.Prelude.{◌≡◌};
    ghost use Rattle.tg_mirror.specs.declared.fault.MirrorFault.TheVariants.{Client};

    ghost from_gives = { λ fetch fault. fault ≡ Client fetch };

    fn from(fetch: FetchFault) -> MirrorFault {
        MirrorFault::Client(fetch)
    }
}

impl From<PackFault> for MirrorFault {
    ghost use Rattle.std.specs.Prelude.{◌≡◌};
    ghost use Rattle.tg_mirror.specs.Filled.{fault_of_pack};

    ghost from_gives = { λ pack fault. fault ≡ fault_of_pack pack };

    fn from(pack: PackFault) -> MirrorFault {
        match pack {
            PackFault::OutOfMemory => MirrorFault::Client(FetchFault::OutOfMemory),
            pack => MirrorFault::Pack(pack),
        }
    }
}

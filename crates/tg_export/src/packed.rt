//! The answer to a query from a pack, written as a CAR.
ghost use Rattle.std.specs.Prelude.{◌≡◌, [], List, ℕ, Some, IfSome};
ghost use Rattle.tg_export.specs.Cars.{HasOwnMemory};
ghost use Rattle.tg_export.specs.Packed.{ExportEnds, HasPackedCause, IsExportedElse, IsRefusedFor};
ghost use Rattle.tg_files.specs.Packs.{Did, pack_step};
ghost use Rattle.tg_model.specs.Dag.{Section};
ghost use Rattle.tg_model.specs.PathWalk.{TraversalEnd, whole};
ghost use Rattle.tg_model.specs.Stores.{Store};
ghost use Rattle.tg_store.specs.Attaching.{HasPackCause, IsAttached};
ghost use Rattle.tg_store.specs.declared.fault.PackFault.{PackFault};
ghost use Rattle.tg_streams.specs.Streams.{into};
ghost use Rattle.tg_walk.specs.Walks.{HasEnded, max_depth};

use crate::car::write_car;
use crate::fault::ExportFault;
use std::alloc::Global;
use tg_files::Pack;
use tg_model::Query;
use tg_store::PackStore;
use tg_streams::Sink;

/// Writes the CAR of a query from a pack, which is read through and checked first, and gives the pack back, to which
/// nothing was done.
///
/// CARv1 specification; Trustless Gateway specification, CAR responses. Errors: `Pack` where the pack can't be attached
/// as a store, with which nothing was written; and those of `write_car`.
pub fn export<P: Pack, S: Sink>(
    alloc: Global,
    query: &Query,
    pack: P,
    out: &mut S,
) -> (P, Result<(), ExportFault>)
    ensures pack { Did [] (pack_step P.pack pack result.0) }
    ensures ends { ExportEnds query.now (pack_step P.pack pack result.0) (into S.sink out.old out.new) result.1 }
    ensures cause { HasPackedCause (pack_step P.pack pack result.0) result.1 }
    ensures memory { HasOwnMemory result.1 }
    // Where a cause of a refusal holds of a told content, its fault comes, or the pack failed or memory was wanted.
    ensures refused { IfSome (P.pack.content pack) (λ content. (fault : PackFault) → HasPackCause content fault
        → IsRefusedFor fault result.1) }
    // Where the content has the whole traversal, none of it too deep, it is written, but for counted faults and want of
    // memory.
    ensures answered { (content : List ℕ) (store : Store) (sections : List Section) → P.pack.content pack ≡ Some content
        → IsAttached content store → HasEnded query.now store max_depth sections whole → IsExportedElse result.1 }
{
    tg_store::laws::one_cause();
    tg_store::laws::finished_packs::<P>();
    match PackStore::attach_pack(alloc, pack) {
        Ok(store) => {
            let mut store = store;
            let end = write_car(alloc, query, &mut store, out);
            (store.into_pack(), end)
        }
        Err(refused) => (refused.pack, Err(ExportFault::from(refused.fault))),
    }
}

//! A folder imported into a pack.
ghost use Rattle.std.specs.Prelude.{◌≡◌, IfErr, IfOk, IfSome, OnErr, OnOk};
ghost use Rattle.tg_bytes.specs.Told.{IsNothing};
ghost use Rattle.tg_files.specs.Folders.{FolderQuiet, SameFolder, folder_step};
ghost use Rattle.tg_files.specs.Packs.{pack_step};
ghost use Rattle.tg_import.specs.Imported.{AreOptions};
ghost use Rattle.tg_import.specs.Packing.{IsPacked, IsPackingCause};
ghost use Rattle.tg_store.specs.Filling.{Grows, GrowsWithRoot, IsUnfinished, StaysTold};
ghost use Rattle.tg_store.specs.Filling.{StopsWriting, WritesPack};
ghost use Rattle.tg_store.specs.Finishing.{IsNew};

use crate::fault::ImportFault;
use crate::importing::import;
use crate::summary::{Options, Summary};
use std::alloc::Global;
use tg_cid::Cid;
use tg_files::{Folder, Pack};
use tg_store::{PackFault, PackStore};

/// Imports a folder into an empty pack, and gives the pack back: a CAR whose root is the folder's, and which has each
/// block of its DAG once.
///
/// CARv1 specification; UnixFS specification. Errors: those of `import`, where `Keep` says that the pack failed and
/// counted it. The pack is a CAR that isn't finished then, as far as it is told.
pub fn import_pack<F: Folder, P: Pack>(
    alloc: Global,
    folder: &mut F,
    pack: P,
    options: Options,
) -> (P, Result<(Cid, Summary), ImportFault>)
    requires options { AreOptions options }
    requires empty { IsNothing (P.pack.content pack) }
    ensures packed { IfOk result.1 (λ found. IsPacked options (F.folder.tree folder.old) found.0 found.1
        (pack_step P.pack pack result.0)) }
    // A pack that tells what it holds tells the CAR.
    ensures told { OnOk result.1 (StaysTold (P.pack.content pack) (P.pack.content result.0)) }
    ensures quiet { OnOk result.1 (FolderQuiet (folder_step F.folder folder.old folder.new)) }
    ensures same { SameFolder (folder_step F.folder folder.old folder.new) }
    ensures cause { IfErr result.1 (λ fault. IsPackingCause options (F.folder.tree folder.old) fault
        (folder_step F.folder folder.old folder.new) (pack_step P.pack pack result.0)) }
    ensures unfinished { OnErr result.1 (IfSome (P.pack.content result.0) IsUnfinished) }
    // What was done to the pack, also where it doesn't tell what it holds.
    ensures written { IfOk result.1 (λ found. WritesPack found.0 (pack_step P.pack pack result.0)) }
    ensures stopped { OnErr result.1 (StopsWriting (pack_step P.pack pack result.0)) }
{
    tg_store::laws::filled_packs::<P>();
    let mut store = match PackStore::create(alloc, pack) {
        Ok(store) => store,
        Err(refused) => return (refused.pack, Err(ImportFault::Keep)),
    };
    let end = fill(alloc, folder, &mut store, options);
    (store.into_pack(), end)
}

/// Imports a folder into a store that was just created, and finishes it.
///
/// Errors: those of `import_pack`.
fn fill<F: Folder, P: Pack>(
    alloc: Global,
    folder: &mut F,
    store: &mut PackStore<P>,
    options: Options,
) -> Result<(Cid, Summary), ImportFault>
    requires options { AreOptions options }
    requires new { IsNew P.pack store.old }
    ensures packed { IfOk result (λ found. IsPacked options (F.folder.tree folder.old) found.0 found.1
        (pack_step P.pack store.old.pack store.new.pack)) }
    ensures told { OnOk result (StaysTold (P.pack.content store.old.pack) (P.pack.content store.new.pack)) }
    ensures quiet { OnOk result (FolderQuiet (folder_step F.folder folder.old folder.new)) }
    ensures same { SameFolder (folder_step F.folder folder.old folder.new) }
    ensures cause { IfErr result (λ fault. IsPackingCause options (F.folder.tree folder.old) fault
        (folder_step F.folder folder.old folder.new) (pack_step P.pack store.old.pack store.new.pack)) }
    ensures unfinished { OnErr result (IfSome (P.pack.content store.new.pack) IsUnfinished) }
    ensures written { IfOk result (λ found. GrowsWithRoot found.0 (pack_step P.pack store.old.pack store.new.pack)) }
    ensures stopped { OnErr result (Grows (pack_step P.pack store.old.pack store.new.pack)) }
{
    tg_store::laws::filled_packs::<P>();
    let (root, summary) = import(alloc, folder, store, options)?;
    match store.finish(root) {
        Ok(()) => Ok((root, summary)),
        Err(PackFault::OutOfMemory) => Err(ImportFault::OutOfMemory),
        Err(_) => Err(ImportFault::Keep),
    }
}

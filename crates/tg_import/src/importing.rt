//! The import of a folder.
ghost use Rattle.std.specs.Prelude.{◌≡◌, ◌≤◌, [], IfErr, IfOk, OnErr, OnOk};
ghost use Rattle.tg_cid.specs.declared.cid.Codec.TheVariants as codecs;
ghost use Rattle.tg_cid.specs.declared.cid.HashKind.TheVariants as hashes;
ghost use Rattle.tg_files.specs.Folders.{FolderQuiet, SameFolder, folder_step};
ghost use Rattle.tg_import.specs.Counting.{counts_of, nothing};
ghost use Rattle.tg_import.specs.Imported.{AreOptions, KeepsImported};
ghost use Rattle.tg_import.specs.Refused.{IsImportCause, PassesTotal, max_levels};
ghost use Rattle.tg_model.specs.Dag.{Dag, root_cid};
ghost use Rattle.tg_model.specs.Stores.{kept_in};

use crate::fault::ImportFault;
use crate::folder::Importer;
use crate::summary::{Options, Summary};
use std::alloc::Global;
use tg_cid::Cid;
use tg_files::Folder;
use tg_model::Keep;

/// How many levels of folders are imported at most, the root being the first.
const MAX_LEVELS: u32 = 32;

/// Keeps the blocks of the DAG of a folder, each behind those below it, and says its root and what it holds.
///
/// Folders are gone through depth first, their entries in the order of their names' bytes. The names of a folder are
/// all checked before any of its entries is read. It holds the entries of the folders on the way, one chunk, and the
/// links that wait.
///
/// UnixFS specification: File, Directory and HAMTDirectory. Errors, at the first place where one holds: `TooDeep` at a
/// folder on level 33, before it is listed; `TooBig` where a folder lists 2^32 entries or more; `BadName` and
/// `LongName`; `NotPlain` where an entry is neither a file nor a folder; `TooBig` where a file gives more than 2^40
/// bytes, or where the Tsizes of a folder's entries or a number of the summary would pass 2^62; `SameHash` where a
/// directory is sharded and two of its names have one hash. Besides, `Folder` and `Keep` where the folder or the store
/// failed and counted it, and `OutOfMemory`. What was kept before stays kept.
pub fn import<F: Folder, K: Keep>(
    alloc: Global,
    folder: &mut F,
    keep: &mut K,
    options: Options,
) -> Result<(Cid, Summary), ImportFault>
    requires { AreOptions options }
    ensures imported { IfOk result (λ found. (d : Dag)
        × KeepsImported options (F.folder.tree folder.old) [] d (kept_in K.keeper keep.old keep.new)
        × (found.0 ≡ root_cid d) × (found.1 ≡ counts_of d)) }
    // The root is a CIDv1 of dag-pb and sha2-256.
    ensures plain { IfOk result (λ found. (found.0.version ≡ 1) × (found.0.codec ≡ codecs.DagPb)
        × (found.0.hash ≡ hashes.Sha256)) }
    // No number of the summary passes 2^62.
    ensures small { IfOk result (λ found. ¬ PassesTotal found.1) }
    ensures quiet { OnOk result (FolderQuiet (folder_step F.folder folder.old folder.new)) }
    ensures same { SameFolder (folder_step F.folder folder.old folder.new) }
    ensures cause { IfErr result (λ fault. IsImportCause max_levels options (F.folder.tree folder.old) [] nothing fault
        (folder_step F.folder folder.old folder.new) (kept_in K.keeper keep.old keep.new)) }
    ensures err_counted { OnErr result (K.keeper.faults keep.old ≤ K.keeper.faults keep.new) }
{
    folder.tells();
    let mut importer = Importer::new(alloc, options)?;
    let made = importer.folder(folder, keep, &[], MAX_LEVELS)?;
    Ok((made.cid, importer.summary))
}

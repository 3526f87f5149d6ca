//! The bytes of a file, taken piece by piece.
ghost use Rattle.std.specs.Prelude.{◌≡◌, ◌≤◌, ◌<◌, ◌+◌, [], length, take, IfErr, IfOk, OnErr, OnOk};
ghost use Rattle.tg_files.specs.Folders.{FolderQuiet, SameFolder, folder_step};
ghost use Rattle.tg_import_file.specs.Files.{IsFileCause, max_file_len};
ghost use Rattle.tg_import_file.specs.Taking.{HasTaken, LinksLast, MakesFile, MayTake, Stops, TakesFile, TakesPiece};
ghost use Rattle.tg_filedag.specs.State.{StandsFor};
ghost use Rattle.tg_import_file.specs.declared.fault.FileFault.TheVariants.{TooBig};
ghost use Rattle.tg_model.specs.Stores.{kept_in};
ghost use Rattle.tg_tree.specs.Tree.{HasFileAt, bytes_of, tree_at};

use crate::fault::FileFault;
use tg_bytes::Bytes;
use tg_filedag::{Balanced, Chunker};
use tg_files::Folder;
use tg_model::{Keep, KeepFault, Made};

/// How many bytes an imported file has at most: 2^40.
pub const MAX_FILE_LEN: u64 = 1 << 40;

/// Reads the file at a path to its end and takes its bytes, which are at most 2^40.
///
/// Errors: those of `FileFault`.
pub(crate) fn take_file<F: Folder, K: Keep>(
    folder: &mut F,
    path: &[Bytes],
    piece: &mut [u8],
    chunker: &mut Chunker,
    balanced: &mut Balanced,
    keep: &mut K,
) -> Result<(), FileFault>
    requires file { HasFileAt (F.folder.tree folder.old) path.now }
    requires ready { HasTaken chunker.old balanced.old [] [] }
    requires room { 0 < length piece.old }
    ensures chunk { chunker.new.size ≡ chunker.old.size }
    ensures width { balanced.new.width ≡ balanced.old.width }
    ensures taken { OnOk result (TakesFile (bytes_of (tree_at (F.folder.tree folder.old) path.now))
        chunker.new balanced.new (kept_in K.keeper keep.old keep.new)) }
    ensures quiet { OnOk result (FolderQuiet (folder_step F.folder folder.old folder.new)) }
    ensures same { SameFolder (folder_step F.folder folder.old folder.new) }
    ensures cause { IfErr result (λ fault. IsFileCause (bytes_of (tree_at (F.folder.tree folder.old) path.now)) fault
        (folder_step F.folder folder.old folder.new) (kept_in K.keeper keep.old keep.new)) }
    ensures err_counted { OnErr result (K.keeper.faults keep.old ≤ K.keeper.faults keep.new) }
{
    tg_model_laws::kept_sections();
    tg_filedag::laws::kept_in_order();
    let mut offset = 0;
    loop {
        let n = folder.read_at(path, offset, piece)?;
        if n == 0 {
            return Ok(());
        }
        offset = length_with(offset, n)?;
        take_piece(chunker, balanced, &piece[..n], keep)?;
    }
}

/// How long a file is with `n` bytes more. The error is that these are more than 2^40.
fn length_with(length: u64, n: usize) -> Result<u64, FileFault>
    requires { length ≤ max_file_len }
    ensures sum { IfOk result (λ sum. (sum ≡ length + n) × (sum ≤ max_file_len)) }
    ensures too_big { IfErr result (λ fault. (fault ≡ TooBig) × (max_file_len < length + n)) }
{
    let n = n as u64;
    if n > MAX_FILE_LEN - length {
        return Err(FileFault::TooBig);
    }
    Ok(length + n)
}

/// Takes the bytes of a piece: each chunk that is full with them is linked at once. Errors: those of the store, and
/// want of memory.
fn take_piece<K: Keep>(
    chunker: &mut Chunker,
    balanced: &mut Balanced,
    piece: &[u8],
    keep: &mut K,
) -> Result<(), KeepFault>
    requires { MayTake chunker.old balanced.old (length piece.now) }
    ensures chunk { chunker.new.size ≡ chunker.old.size }
    ensures width { balanced.new.width ≡ balanced.old.width }
    ensures taken { OnOk result (TakesPiece chunker.old balanced.old chunker.new balanced.new piece.now
        (kept_in K.keeper keep.old keep.new)) }
    ensures stops { IfErr result (λ fault. Stops chunker.old balanced.old fault (kept_in K.keeper keep.old keep.new)) }
    ensures err_counted { OnErr result (K.keeper.faults keep.old ≤ K.keeper.faults keep.new) }
{
    tg_model_laws::kept_sections();
    let mut rest = piece;
    while !rest.is_empty() {
        let n = fill_chunk(chunker, balanced, rest, keep)?;
        rest = &rest[n..];
    }
    Ok(())
}

/// Takes the first bytes of a piece, for which the chunk at hand has room, links the chunk if it is full then, and says
/// how many bytes these are. Errors: those of the store, and want of memory.
fn fill_chunk<K: Keep>(
    chunker: &mut Chunker,
    balanced: &mut Balanced,
    piece: &[u8],
    keep: &mut K,
) -> Result<usize, KeepFault>
    requires { MayTake chunker.old balanced.old (length piece.now) }
    ensures chunk { chunker.new.size ≡ chunker.old.size }
    ensures width { balanced.new.width ≡ balanced.old.width }
    ensures within { IfOk result (λ n. n ≤ length piece.now) }
    ensures some { 0 < length piece.now → IfOk result (λ n. 0 < n) }
    ensures taken { IfOk result (λ n. TakesPiece chunker.old balanced.old chunker.new balanced.new (take n piece.now)
        (kept_in K.keeper keep.old keep.new)) }
    ensures stops { IfErr result (λ fault. Stops chunker.old balanced.old fault (kept_in K.keeper keep.old keep.new)) }
    ensures err_counted { OnErr result (K.keeper.faults keep.old ≤ K.keeper.faults keep.new) }
{
    tg_filedag::laws::kept_in_order();
    let (taken, full) = chunker.feed(piece);
    if !full {
        return Ok(taken);
    }
    balanced.leaf(chunker.chunk(), keep)?;
    chunker.clear();
    Ok(taken)
}

/// Links the last chunk, if it has a byte, and what is left, and says what was made. Errors: those of the store, and
/// want of memory.
pub(crate) fn close_file<K: Keep>(
    chunker: &mut Chunker,
    balanced: &mut Balanced,
    keep: &mut K,
) -> Result<Made, KeepFault>
    requires { MayTake chunker.old balanced.old 0 }
    ensures chunk { chunker.new.size ≡ chunker.old.size }
    ensures width { balanced.new.width ≡ balanced.old.width }
    ensures made { IfOk result (λ made. MakesFile chunker.old balanced.old made (kept_in K.keeper keep.old keep.new)) }
    ensures anew { OnOk result (StandsFor balanced.new [] []) }
    ensures empty { OnOk result (chunker.new.bytes ≡ []) }
    ensures stops { IfErr result (λ fault. Stops chunker.old balanced.old fault (kept_in K.keeper keep.old keep.new)) }
    ensures err_counted { OnErr result (K.keeper.faults keep.old ≤ K.keeper.faults keep.new) }
{
    tg_model_laws::kept_sections();
    tg_filedag::laws::kept_in_order();
    link_last(chunker, balanced, keep)?;
    balanced.finish(keep)
}

/// Links the last chunk, if it has a byte. Errors: those of the store, and want of memory.
fn link_last<K: Keep>(
    chunker: &mut Chunker,
    balanced: &mut Balanced,
    keep: &mut K,
) -> Result<(), KeepFault>
    requires { MayTake chunker.old balanced.old 0 }
    ensures chunk { chunker.new.size ≡ chunker.old.size }
    ensures width { balanced.new.width ≡ balanced.old.width }
    ensures empty { OnOk result (chunker.new.bytes ≡ []) }
    ensures linked { OnOk result (LinksLast chunker.old balanced.old balanced.new
        (kept_in K.keeper keep.old keep.new)) }
    ensures stops { IfErr result (λ fault. Stops chunker.old balanced.old fault (kept_in K.keeper keep.old keep.new)) }
    ensures err_counted { OnErr result (K.keeper.faults keep.old ≤ K.keeper.faults keep.new) }
{
    tg_filedag::laws::cut_chunks();
    tg_filedag::laws::kept_in_order();
    if chunker.chunk().is_empty() {
        return Ok(());
    }
    balanced.leaf(chunker.chunk(), keep)?;
    chunker.clear();
    Ok(())
}

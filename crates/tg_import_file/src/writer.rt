//! Files read in pieces, cut into chunks and linked.
ghost use Rattle.std.specs.Prelude.{◌≡◌, ◌≤◌, IfErr, IfOk, OnErr, OnOk};
ghost use Rattle.tg_cid.specs.Limits.{max_block_len};
ghost use Rattle.tg_files.specs.Folders.{FolderQuiet, SameFolder, folder_step};
ghost use Rattle.tg_import_file.specs.Files.{IsFileCause, IsReady, KeepsFile};
ghost use Rattle.tg_model.specs.Stores.{kept_in};
ghost use Rattle.tg_tree.specs.Tree.{HasFileAt, bytes_of, tree_at};

use crate::fault::FileFault;
use crate::pieces::{close_file, take_file};
use std::alloc::{AllocError, Global};
use std::marker::Model;
use tg_bytes::Bytes;
use tg_filedag::{Balanced, Chunker};
use tg_files::Folder;
use tg_model::{Keep, Made};

/// How many bytes of a file are read at once.
const PIECE_LEN: usize = 65536;

/// A writer of the DAGs of files, one after another. It holds one chunk, one piece of a file and the links that wait,
/// and takes the room of the chunk and of the piece when it is made.
///
/// UnixFS specification, File.
#[derive(Drop)]
pub struct FileWriter {
    chunker: Chunker,
    balanced: Balanced,
    piece: Vec<u8>,
}

impl Model for FileWriter {
    ghost use Rattle.tg_import_file.specs.Files.{FileWriterState};
    ghost use Rattle.std.specs.Prelude.{◌≡◌, ◌≤◌, vec_len};

    ghost Value = { FileWriterState };

    ghost view = { λ w. record { chunker = w.chunker; balanced = w.balanced } };

    ghost invariant = { λ w. (vec_len w.piece ≡ 65536) × (1 ≤ w.chunker.size) };
}

impl FileWriter {
    /// A writer for files in chunks of `chunk` bytes, from 1 to 2,097,152, and nodes of at most `width` links, from 2
    /// to 4,096. The error is want of memory.
    pub fn new(alloc: Global, chunk: u32, width: u32) -> Result<FileWriter, AllocError>
        requires chunk_low { 1 ≤ chunk }
        requires chunk_high { chunk ≤ max_block_len }
        requires width_low { 2 ≤ width }
        requires width_high { width ≤ 4096 }
        ensures ready { IfOk result IsReady }
        ensures chunk { IfOk result (λ writer. writer.chunker.size ≡ chunk) }
        ensures width { IfOk result (λ writer. writer.balanced.width ≡ width) }
    {
        Ok(FileWriter {
            chunker: Chunker::new(alloc, chunk)?,
            balanced: Balanced::new(alloc, width),
            piece: vec![in alloc; 0; PIECE_LEN]?,
        })
    }

    /// Reads the file at a path to its end, keeps its blocks, each behind those below it, and says what was made. The
    /// file has at most 2^40 bytes.
    ///
    /// UnixFS specification, File. Errors: `Folder` and `Keep` where the folder or the store failed and counted it;
    /// `TooBig` where the file gives more than 2^40 bytes; `OutOfMemory`. What was kept before stays kept, and the
    /// writer isn't to be used any more.
    pub fn import<F: Folder, K: Keep>(
        &mut self,
        folder: &mut F,
        path: &[Bytes],
        keep: &mut K,
    ) -> Result<Made, FileFault>
        requires ready { IsReady self.old }
        requires file { HasFileAt (F.folder.tree folder.old) path.now }
        ensures chunk { self.new.chunker.size ≡ self.old.chunker.size }
        ensures width { self.new.balanced.width ≡ self.old.balanced.width }
        ensures ready { OnOk result (IsReady self.new) }
        ensures made { IfOk result (λ made. KeepsFile self.old.chunker.size self.old.balanced.width
            (bytes_of (tree_at (F.folder.tree folder.old) path.now)) made (kept_in K.keeper keep.old keep.new)) }
        ensures quiet { OnOk result (FolderQuiet (folder_step F.folder folder.old folder.new)) }
        ensures same { SameFolder (folder_step F.folder folder.old folder.new) }
        ensures cause { IfErr result (λ fault. IsFileCause
            (bytes_of (tree_at (F.folder.tree folder.old) path.now)) fault
            (folder_step F.folder folder.old folder.new) (kept_in K.keeper keep.old keep.new)) }
        ensures err_counted { OnErr result (K.keeper.faults keep.old ≤ K.keeper.faults keep.new) }
    {
        tg_model_laws::kept_sections();
        take_file(
            folder,
            path,
            self.piece.as_mut_slice(),
            &mut self.chunker,
            &mut self.balanced,
            keep,
        )?;
        Ok(close_file(&mut self.chunker, &mut self.balanced, keep)?)
    }
}

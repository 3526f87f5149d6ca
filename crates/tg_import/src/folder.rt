//! A folder with all below it.
ghost use Rattle.std.specs.Prelude.{◌≡◌, ◌≤◌, ◌-◌, ◌^◌, IfErr, IfOk, OnErr, OnOk, min};
ghost use Rattle.tg_cid.specs.declared.cid.Codec.TheVariants as codecs;
ghost use Rattle.tg_dir.specs.Made.{MakesDirectory};
ghost use Rattle.tg_files.specs.Folders.{FolderQuiet, SameFolder, folder_step};
ghost use Rattle.tg_import.specs.Counting.{nothing, plus};
ghost use Rattle.tg_import.specs.Imported.{AreOptions};
ghost use Rattle.tg_import.specs.Refused.{IsCauseBy, IsFileFault, IsImportCause, PassesTotal};
ghost use Rattle.tg_import.specs.Steps.{AreNewEntries, ImportsAs, IsEntriesCause, IsWriterFor, own_count_for};
ghost use Rattle.tg_import.specs.Steps.{tsizes_for};
ghost use Rattle.tg_model.specs.Stores.{kept_in};
ghost use Rattle.tg_tree.specs.Tree.{HasFileAt, HasFolderAt};

use crate::fault::ImportFault;
use crate::names::{copy_of, listed};
use crate::summary::{MAX_TOTAL, Options, Summary};
use std::alloc::{AllocError, Global};
use tg_bytes::{Bytes, List};
use tg_cid::MAX_DIGEST_LEN;
use tg_dir::HamtFault;
use tg_files::Folder;
use tg_import_file::{FileFault, FileWriter};
use tg_model::{Keep, Made, NewEntry};
use tg_tree::{Sort, path_of_entry};

/// An import while it goes on: what was imported so far, and the writer of files.
#[derive(Drop)]
pub(crate) struct Importer {
    alloc: Global,
    options: Options,
    writer: FileWriter,
    pub summary: Summary,
}

impl Importer {
    /// An import of which nothing came. The error is want of memory.
    pub(crate) fn new(alloc: Global, options: Options) -> Result<Importer, AllocError>
        requires { AreOptions options }
        ensures writer { IfOk result (λ importer. IsWriterFor options importer.writer) }
        ensures options { IfOk result (λ importer. importer.options ≡ options) }
        ensures summary { IfOk result (λ importer. importer.summary ≡ nothing) }
    {
        Ok(Importer {
            alloc,
            options,
            writer: FileWriter::new(alloc, options.chunk, options.width)?,
            summary: Summary::nothing(),
        })
    }

    /// Imports the folder at a path, below which so many levels of folders may be gone into, this one with them. Where
    /// that is none, nothing is listed and nothing is kept. Errors: those of `import`.
    pub(crate) fn folder<F: Folder, K: Keep>(
        &mut self,
        folder: &mut F,
        keep: &mut K,
        path: &[Bytes],
        levels: u32,
    ) -> Result<Made, ImportFault>
        requires writer { IsWriterFor self.old.options self.old.writer }
        requires at { HasFolderAt (F.folder.tree folder.old) path.now }
        ensures options { self.new.options ≡ self.old.options }
        ensures writer { OnOk result (IsWriterFor self.old.options self.new.writer) }
        ensures imported { IfOk result (λ made. ImportsAs self.old.options
            (F.folder.tree folder.old) path.now self.old.summary made self.new.summary
            (kept_in K.keeper keep.old keep.new)) }
        ensures directory { IfOk result (λ made. made.cid.codec ≡ codecs.DagPb) }
        ensures small { OnOk result (¬ PassesTotal self.new.summary) }
        ensures quiet { OnOk result (FolderQuiet (folder_step F.folder folder.old folder.new)) }
        ensures same { SameFolder (folder_step F.folder folder.old folder.new) }
        ensures cause { IfErr result (λ fault. IsImportCause levels self.old.options
            (F.folder.tree folder.old) path.now self.old.summary fault
            (folder_step F.folder folder.old folder.new) (kept_in K.keeper keep.old keep.new)) }
        ensures untouched { levels ≡ 0 → (folder.new ≡ folder.old) × (keep.new ≡ keep.old) }
        ensures err_counted { OnErr result (K.keeper.faults keep.old ≤ K.keeper.faults keep.new) }
    {
        tg_model_laws::kept_sections();
        if levels == 0 {
            return Err(ImportFault::TooDeep {
                path: copy_of(self.alloc, path)?,
            });
        }
        let items = listed(self.alloc, folder, path)?;
        let mut entries = List::new(self.alloc);
        for item in items.into_vec() {
            let at = path_of_entry(self.alloc, path, item.name.as_slice())?;
            let made = match item.sort {
                Sort::File => self.file(folder, keep, at.as_slice())?,
                Sort::Folder => self.folder(folder, keep, at.as_slice(), levels - 1)?,
                Sort::Symlink | Sort::Other => return Err(ImportFault::NotPlain { path: at }),
            };
            // The weight of the entries is told by the size of each digest.
            prove!(made.cid.digest().len() <= MAX_DIGEST_LEN);
            entries.push(NewEntry {
                name: item.name,
                cid: made.cid,
                tsize: made.tsize,
            })?;
        }
        self.directory(entries.as_slice(), keep, path)
    }

    /// Imports the file at a path. Errors: `TooBig`, those of the folder and of the store, and want of memory.
    fn file<F: Folder, K: Keep>(
        &mut self,
        folder: &mut F,
        keep: &mut K,
        path: &[Bytes],
    ) -> Result<Made, ImportFault>
        requires writer { IsWriterFor self.old.options self.old.writer }
        requires at { HasFileAt (F.folder.tree folder.old) path.now }
        ensures options { self.new.options ≡ self.old.options }
        ensures writer { OnOk result (IsWriterFor self.old.options self.new.writer) }
        ensures imported { IfOk result (λ made. ImportsAs self.old.options
            (F.folder.tree folder.old) path.now self.old.summary made self.new.summary
            (kept_in K.keeper keep.old keep.new)) }
        ensures quiet { OnOk result (FolderQuiet (folder_step F.folder folder.old folder.new)) }
        ensures same { SameFolder (folder_step F.folder folder.old folder.new) }
        ensures cause { IfErr result (λ fault. IsCauseBy
            (λ kept fault. IsFileFault (F.folder.tree folder.old) path.now self.old.summary kept fault) fault
            (folder_step F.folder folder.old folder.new) (kept_in K.keeper keep.old keep.new)) }
        ensures err_counted { OnErr result (K.keeper.faults keep.old ≤ K.keeper.faults keep.new) }
    {
        let made = match self.writer.import(folder, path, keep) {
            Ok(made) => made,
            Err(FileFault::Folder) => return Err(ImportFault::Folder),
            Err(FileFault::Keep) => return Err(ImportFault::Keep),
            Err(FileFault::TooBig) => {
                return Err(ImportFault::TooBig {
                    path: copy_of(self.alloc, path)?,
                });
            }
            Err(FileFault::OutOfMemory) => return Err(ImportFault::OutOfMemory),
        };
        let Some(summary) = self.summary.with(Summary::of_file(made.content)) else {
            return Err(ImportFault::TooBig {
                path: copy_of(self.alloc, path)?,
            });
        };
        self.summary = summary;
        Ok(made)
    }

    /// Makes the directory of these entries, which is that at a path. Errors: `TooBig`, `SameHash`, those of the store,
    /// and want of memory.
    fn directory<K: Keep>(
        &mut self,
        entries: &[NewEntry],
        keep: &mut K,
        path: &[Bytes],
    ) -> Result<Made, ImportFault>
        requires entries { AreNewEntries entries.now }
        requires shard { self.old.options.shard ≤ 1048576 }
        ensures options { self.new.options ≡ self.old.options }
        ensures writer { self.new.writer ≡ self.old.writer }
        ensures made { IfOk result (λ made. MakesDirectory self.old.options.shard entries.now made
            (kept_in K.keeper keep.old keep.new)) }
        ensures small { OnOk result (¬ PassesTotal self.new.summary) }
        ensures counted { OnOk result (self.new.summary ≡ plus self.old.summary
            (own_count_for self.old.options.shard entries.now)) }
        ensures cause { IfErr result
            (λ fault. IsEntriesCause self.old.options.shard path.now self.old.summary entries.now fault
            (kept_in K.keeper keep.old keep.new)) }
        ensures err_counted { OnErr result (K.keeper.faults keep.old ≤ K.keeper.faults keep.new) }
    {
        if tsizes(entries) > MAX_TOTAL {
            return Err(ImportFault::TooBig {
                path: copy_of(self.alloc, path)?,
            });
        }
        let sharded = tg_dir::weight(entries) > self.options.shard;
        let Some(summary) = self.summary.with(Summary::of_folder(sharded)) else {
            return Err(ImportFault::TooBig {
                path: copy_of(self.alloc, path)?,
            });
        };
        self.summary = summary;
        match tg_dir::build(self.alloc, entries, self.options.shard, keep) {
            Ok(made) => Ok(made),
            Err(HamtFault::SameHash { first, second }) => Err(ImportFault::SameHash {
                first,
                second,
            }),
            Err(HamtFault::Keep(_)) => Err(ImportFault::Keep),
            Err(HamtFault::OutOfMemory) => Err(ImportFault::OutOfMemory),
        }
    }
}

/// The Tsizes of the entries together, or the largest number where they are more.
fn tsizes(entries: &[NewEntry]) -> u64
    ensures { result ≡ min (tsizes_for entries.now) (2 ^ 64 - 1) }
{
    let mut sum = 0_u64;
    for entry in entries {
        sum = sum.saturating_add(entry.tsize);
    }
    sum
}

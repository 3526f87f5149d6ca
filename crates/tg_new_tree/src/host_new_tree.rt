//! New trees of the system.
ghost use Rattle.std.specs.Prelude.{◌≡◌, ◌≤◌, All, IfOk, None, OnOk, [], string_bytes, true};
ghost use Rattle.std.specs.Fs.{asks_create_new, asks_write};
ghost use Rattle.tg_faults.specs.Faults.{Rose};
ghost use Rattle.tg_files.specs.Folders.{IsTextName};

use crate::new_trees::NewTree;
use crate::noted::{Noted, Now};
use std::fs::OpenOptions;
use std::io::ErrorKind;
use std::marker::Model;
use std::rt::Files;
use std::{fs, io};
use tg_bytes::Bytes;
use tg_faults::Failed;
use tg_files::{FolderFault, system_path};
use tg_streams::{Sink, StdSink};

/// A tree of files of the system that is made anew. What contracts say was made is what its calls answered: that the system did it is said by
/// the system alone.
///
/// Every call before it is begun is a fault. Each folder and file is made where nothing stands (POSIX.1-2017, `mkdir`, and `open` with
/// `O_EXCL`), so that nothing is written over, and a symbolic link at the last name isn't followed. Anyone may read and write what is made,
/// but for what the system takes from new files (`umask`). The file that was made last stays open until something else is made, or
/// the tree is begun anew or dropped. Nothing is removed, and the system isn't asked to make it last.
#[derive(Drop)]
pub struct HostNewTree<R: Files> {
    rt: R,
    top: Option<String>,
    file: Option<StdSink<R::File>>,
    noted: Noted,
    failed: u64,
}

impl<R: Files> Model for HostNewTree<R> {
    ghost use Rattle.std.specs.Prelude.{option_map, string_bytes};
    ghost use Rattle.tg_new_tree.specs.Noted.{HostTreeState, IsOpen};

    ghost Value = { HostTreeState };

    ghost view = { λ t. record { made = t.noted.made; place = option_map string_bytes t.top; faults = t.failed } };

    ghost invariant = { λ t. IsOpen t.file t.noted.made };
}

impl<R: Files> HostNewTree<R> {
    /// A tree that is to be begun, with no fault counted.
    pub fn new(rt: R) -> HostNewTree<R>
        ensures { result ≡ record { made = []; place = None; faults = 0 } }
    {
        HostNewTree {
            rt,
            top: None,
            file: None,
            noted: Noted::of(&Now::Nothing),
            failed: 0,
        }
    }

    /// How many calls failed.
    pub fn count(&self) -> u64
        ensures { result ≡ self.now.faults }
    {
        self.failed
    }

    /// Counts a call that failed.
    fn fault(&mut self) -> Failed
        ensures made { self.new.made ≡ self.old.made }
        ensures place { self.new.place ≡ self.old.place }
        ensures rose { Rose self.old.faults self.new.faults }
        ensures counted { self.old.faults ≤ self.new.faults }
    {
        self.failed = self.failed.saturating_add(1);
        Failed
    }
}

impl<R: Files + AllocGlobal> HostNewTree<R> {
    /// The path of the system that names lead to below the top. Errors: those of `system_path`; `Failed` before the tree is begun.
    fn path_of(&self, names: &[Bytes]) -> Result<String, FolderFault>
        ensures { IfOk result (λ _. All IsTextName names.now) }
    {
        match &self.top {
            Some(top) => system_path(self.rt.alloc(), top.as_str(), names),
            None => Err(FolderFault::Failed),
        }
    }

    /// Has the system make a folder. Errors: those of `path_of`, and of the system.
    fn new_folder(&self, names: &[Bytes]) -> Result<(), FolderFault>
        ensures { OnOk result (All IsTextName names.now) }
    {
        let path = self.path_of(names)?;
        Ok(fs::create_dir(&self.rt, path.as_str())?)
    }

    /// Has the system make a file. Errors: those of `path_of`, and of the system.
    fn new_file(&self, names: &[Bytes]) -> Result<StdSink<R::File>, FolderFault>
        ensures { IfOk result (λ _. All IsTextName names.now) }
    {
        let path = self.path_of(names)?;
        let file = how_to_open().open(&self.rt, path.as_str())?;
        Ok(StdSink::new(file))
    }
}

impl<R: Files + AllocGlobal> NewTree for HostNewTree<R> {
    ghost new_tree = { record {
      made = λ t. t.made;
      place = λ t. t.place;
      faults = λ t. t.faults;
      calls = λ _. None;
    } };

    /// Whether nothing stands there is looked at once; whether the top can be made there isn't.
    fn begin(&mut self, path: &str) -> Result<(), Failed> {
        match free_path(&self.rt, path) {
            Ok(top) => {
                self.file = None;
                self.top = Some(top);
                self.noted = Noted::of(&Now::Nothing);
                Ok(())
            }
            Err(_) => Err(self.fault()),
        }
    }

    fn make_folder(&mut self, path: &[Bytes]) -> Result<(), Failed> {
        match self.new_folder(path) {
            Ok(()) => {
                self.file = None;
                self.noted = Noted::of(&Now::Folder(&self.noted, path));
                Ok(())
            }
            Err(_) => Err(self.fault()),
        }
    }

    fn make_file(&mut self, path: &[Bytes]) -> Result<(), Failed> {
        match self.new_file(path) {
            Ok(file) => {
                self.noted = Noted::of(&Now::File(&self.noted, path));
                self.file = Some(file);
                Ok(())
            }
            Err(_) => Err(self.fault()),
        }
    }

    /// One write, begun anew where it is interrupted.
    fn add(&mut self, bytes: &[u8]) -> Result<usize, Failed> {
        let put = match &mut self.file {
            Some(file) => file.put(bytes),
            None => Err(Failed),
        };
        match put {
            Ok(n) => {
                self.noted = Noted::of(&Now::More(&self.noted, &bytes[..n]));
                Ok(n)
            }
            Err(_) => Err(self.fault()),
        }
    }
}

/// The path itself, at which nothing stands. Errors: `AlreadyExists` where something does, a symbolic link too; those of the system.
fn free_path<R: Files + AllocGlobal>(rt: &R, path: &str) -> io::Result<String>
    ensures { IfOk result (λ top. string_bytes top ≡ path.now) }
{
    match fs::symlink_metadata(rt, path) {
        Ok(_) => Err(io::Error::from(ErrorKind::AlreadyExists)),
        Err(e) if e.kind() == ErrorKind::NotFound => Ok(String::from_str(rt.alloc(), path)?),
        Err(e) => Err(e),
    }
}

/// A file that wasn't there before, to be written.
fn how_to_open() -> OpenOptions
    ensures new { asks_create_new result ≡ true }
    ensures write { asks_write result ≡ true }
{
    let mut how = OpenOptions::new();
    how.write(true).create_new(true);
    how
}

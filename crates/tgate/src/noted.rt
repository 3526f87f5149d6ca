//! Which entry of a folder couldn't be read, or made.
use std::alloc::{AllocError, Global};
use std::cell::Cell;
use std::marker::Model;
use tg_bytes::{Bytes, List};
use tg_escape::push_escaped;
use tg_faults::Failed;
use tg_files::{Folder, FolderFault};
use tg_new_tree::NewTree;
use tg_tree::Item;

/// The path of the entry, below the folder, at which a call of the folder failed last, as a person reads it: what isn't printable
/// in a name is escaped with percent signs. Where memory is wanted for it there is none.
#[derive(Drop)]
pub struct FailedEntry {
    alloc: Global,
    path: Cell<Option<Bytes>>,
    /// The path of the file that was made last, to which bytes are added.
    open: Cell<Option<Bytes>>,
}

impl FailedEntry {
    /// None yet.
    pub fn new(alloc: Global) -> FailedEntry {
        FailedEntry {
            alloc,
            path: Cell::new(None),
            open: Cell::new(None),
        }
    }

    /// The path, where a call failed.
    pub fn take(&self) -> Option<Bytes> {
        self.path.replace(None)
    }

    /// A call at this path failed.
    fn note(&self, path: &[Bytes]) {
        let _before = self.path.replace(path_text(self.alloc, path).ok());
    }

    /// A file was made at this path.
    fn open(&self, path: &[Bytes]) {
        let _before = self.open.replace(path_text(self.alloc, path).ok());
    }

    /// No bytes could be added to the file that was made last.
    fn note_open(&self) {
        let _before = self.path.replace(self.open.replace(None));
    }
}

/// A path of names, each behind a slash.
fn path_text(alloc: Global, path: &[Bytes]) -> Result<Bytes, AllocError> {
    let mut text = Bytes::new(alloc);
    for name in path {
        text.push_all(b"/")?;
        push_escaped(&mut text, alloc, name.as_slice())?;
    }
    Ok(text)
}

/// A folder, or a new tree, of which it is noted where it failed: one that does and means what the inner one does.
#[derive(Drop)]
pub struct Noted<'a, F> {
    pub inner: F,
    pub failed: &'a FailedEntry,
}

impl<'a, F> Model for Noted<'a, F> {
    ghost Value = { F };

    ghost view = { λ s. s.inner };
}

impl<F: Folder> Folder for Noted<'_, F> {
    ghost folder = { F.folder };

    fn tells(&self) {
        self.inner.tells();
    }

    fn attach(&mut self, path: &str) -> Result<(), Failed> {
        let attached = self.inner.attach(path);
        if attached.is_err() {
            self.failed.note(&[]);
        }
        attached
    }

    fn list(&mut self, path: &[Bytes]) -> Result<List<Item>, FolderFault> {
        let listed = self.inner.list(path);
        if let Err(FolderFault::Failed) = &listed {
            self.failed.note(path);
        }
        listed
    }

    fn read_at(&mut self, path: &[Bytes], offset: u64, buf: &mut [u8]) -> Result<usize, Failed> {
        let read = self.inner.read_at(path, offset, buf);
        if read.is_err() {
            self.failed.note(path);
        }
        read
    }
}

impl<T: NewTree> NewTree for Noted<'_, T> {
    ghost new_tree = { T.new_tree };

    fn begin(&mut self, path: &str) -> Result<(), Failed> {
        let begun = self.inner.begin(path);
        if begun.is_err() {
            self.failed.note(&[]);
        }
        begun
    }

    fn make_folder(&mut self, path: &[Bytes]) -> Result<(), Failed> {
        let made = self.inner.make_folder(path);
        if made.is_err() {
            self.failed.note(path);
        }
        made
    }

    fn make_file(&mut self, path: &[Bytes]) -> Result<(), Failed> {
        let made = self.inner.make_file(path);
        match &made {
            Ok(()) => self.failed.open(path),
            Err(Failed) => self.failed.note(path),
        }
        made
    }

    fn add(&mut self, bytes: &[u8]) -> Result<usize, Failed> {
        let added = self.inner.add(bytes);
        if added.is_err() {
            self.failed.note_open();
        }
        added
    }
}

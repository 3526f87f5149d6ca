//! Trees of files from the fields of a row.
use std::alloc::{AllocError, Global};
use std::mem::replace;
use std::str::from_utf8;
use tg_bytes::{Bytes, List, number_of};
use tg_tree::Tree;

/// A folder that isn't ended: its name, and the entries of the folder around it that come before it.
#[derive(Drop)]
struct Around {
    name: Bytes,
    before: List<(Bytes, Tree)>,
}

/// A tree that is read, up to the folder that isn't ended.
#[derive(Drop)]
struct Growing {
    alloc: Global,
    entries: List<(Bytes, Tree)>,
    around: Vec<Around>,
    is_bad: bool,
}

/// The folder with these entries: `file NAME BYTES`, `link NAME TARGET`, `other NAME`, `folder NAME ENTRY .. end`, and
/// `nest NAME COUNT ENTRY ..`, which are so many folders, one in another. An `end` at the end may be left out.
pub fn tree_of(alloc: Global, given: &[Bytes]) -> Option<Tree> {
    let mut growing = Growing {
        alloc,
        entries: List::new(alloc),
        around: Vec::new(alloc),
        is_bad: false,
    };
    let mut rest = given;
    for _ in 0..given.len() {
        rest = growing.read(rest);
    }
    growing.end_all();
    if growing.is_bad || !rest.is_empty() {
        return None;
    }
    Some(Tree::Folder(growing.entries.into_vec()))
}

impl Growing {
    /// Reads an entry, and gives the fields behind it.
    fn read<'a>(&mut self, fields: &'a [Bytes]) -> &'a [Bytes] {
        let [word, fields @ ..] = fields else {
            return &[];
        };
        match (from_utf8(word.as_slice()), fields) {
            (Ok("end"), _) => {
                self.end();
                fields
            }
            (Ok("other"), [name, rest @ ..]) => {
                self.add(name.as_slice(), Ok(Tree::Other));
                rest
            }
            (Ok("folder"), [name, rest @ ..]) => {
                self.begin(name.as_slice());
                rest
            }
            (Ok(kind), [name, value, rest @ ..]) => {
                self.read_pair(kind, name.as_slice(), value.as_slice());
                rest
            }
            _ => {
                self.is_bad = true;
                &[]
            }
        }
    }

    /// Reads an entry that has a name and a value.
    fn read_pair(&mut self, kind: &str, name: &[u8], value: &[u8]) {
        match kind {
            "file" => {
                let file = file_of(self.alloc, value);
                self.add(name, file);
            }
            "link" => {
                let link = link_of(self.alloc, value);
                self.add(name, link);
            }
            "nest" => self.begin_each(name, number_of(value).unwrap_or(0).min(1_000)),
            _ => self.is_bad = true,
        }
    }

    /// Adds an entry.
    fn add(&mut self, name: &[u8], tree: Result<Tree, AllocError>) {
        match (Bytes::of(self.alloc, name), tree) {
            (Ok(name), Ok(tree)) => self.push(name, tree),
            _ => self.is_bad = true,
        }
    }

    fn push(&mut self, name: Bytes, tree: Tree) {
        if self.entries.push((name, tree)).is_err() {
            self.is_bad = true;
        }
    }

    fn begin_each(&mut self, name: &[u8], count: u64) {
        for _ in 0..count {
            self.begin(name);
        }
    }

    /// Begins a folder.
    fn begin(&mut self, name: &[u8]) {
        let before = replace(&mut self.entries, List::new(self.alloc));
        match Bytes::of(self.alloc, name) {
            Ok(name) => {
                if self.around.push(Around { name, before }).is_err() {
                    self.is_bad = true;
                }
            }
            Err(_) => self.is_bad = true,
        }
    }

    /// Ends a folder.
    fn end(&mut self) {
        match self.around.pop() {
            Some(Around { name, before }) => {
                let inside = replace(&mut self.entries, before);
                self.push(name, Tree::Folder(inside.into_vec()));
            }
            None => self.is_bad = true,
        }
    }

    /// Ends all folders.
    fn end_all(&mut self) {
        for _ in 0..self.around.len() {
            self.end();
        }
    }
}

/// A file with these bytes.
fn file_of(alloc: Global, bytes: &[u8]) -> Result<Tree, AllocError> {
    Ok(Tree::File(Bytes::of(alloc, bytes)?))
}

/// A symbolic link with this target.
fn link_of(alloc: Global, target: &[u8]) -> Result<Tree, AllocError> {
    Ok(Tree::Symlink(Bytes::of(alloc, target)?))
}

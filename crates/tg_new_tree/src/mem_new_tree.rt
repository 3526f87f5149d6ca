//! New trees in memory, which fail at the calls that they are given.
ghost use Rattle.std.specs.Prelude.{◌≡◌, ◌↔◌, ◌<◌, ◌≤◌, ◌++◌, ◌∷◌, [], All, Contains, IfOk, IsErr, IsTrue, None, OnErr, OnOk, length, take};
ghost use Rattle.tg_faults.specs.Faults.{counted};
ghost use Rattle.tg_files.specs.Folders.{IsTextName};
ghost use Rattle.tg_new_tree.specs.NewTrees.{AddedTo, BegunAt, HasFolderFor, IsFree, MadeMore, NewTreeCalled, NewTreeFailed};
ghost use Rattle.tg_new_tree.specs.NewTrees.{NewTreeQuiet, mem_new_tree, new_tree_step, path_made, paths_made};
ghost use Rattle.tg_new_tree.specs.declared.made.Made.TheVariants.{File as a_file, Folder as a_folder};

use crate::made::Made;
use crate::new_trees::NewTree;
use std::alloc::{AllocError, Global};
use std::marker::Model;
use tg_bytes::{Bytes, List};
use tg_faults::{Calls, Failed};
use tg_files::{FolderFault, system_path};

/// A tree in memory that is made anew. The calls are numbered from 0, and those whose numbers it was given fail.
#[derive(Drop)]
pub struct MemNewTree {
    alloc: Global,
    made: Vec<Made>,
    top: Option<String>,
    calls: Calls,
}

impl Model for MemNewTree {
    ghost use Rattle.std.specs.Prelude.{option_map, string_bytes};
    ghost use Rattle.tg_new_tree.specs.NewTrees.{NewTreeState};

    ghost Value = { NewTreeState };

    ghost view = { λ t. record {
      made = t.made.items;
      place = option_map string_bytes t.top;
      fails = t.calls.fails;
      calls = t.calls.made;
      faults = t.calls.faults;
    } };
}

impl MemNewTree {
    /// A tree that is to be begun. The calls whose numbers stand in `fails`, counted from 0, fail.
    pub fn new(alloc: Global, fails: List<u64>) -> MemNewTree
        ensures { result ≡ record { made = []; place = None; fails = fails; calls = 0; faults = 0 } }
    {
        MemNewTree {
            alloc,
            made: Vec::new(alloc),
            top: None,
            calls: Calls::new(fails),
        }
    }

    /// What was made, in order.
    pub fn made(&self) -> &[Made]
        ensures { result.now ≡ self.now.made }
    {
        self.made.as_slice()
    }

    /// How many calls failed.
    pub fn count(&self) -> u64
        ensures { result ≡ self.now.faults }
    {
        self.calls.faults
    }
}

impl NewTree for MemNewTree {
    ghost new_tree = { mem_new_tree };

    /// The path isn't looked for, and what was made before is forgotten. It fails where the call's number stands in the list that it was
    /// given, and for want of memory alone besides.
    fn begin(&mut self, path: &str) -> Result<(), Failed>
        ensures at { OnOk result (BegunAt path.now (new_tree_step mem_new_tree self.old self.new)) }
        ensures quiet { OnOk result (NewTreeQuiet (new_tree_step mem_new_tree self.old self.new)) }
        ensures call { NewTreeCalled (new_tree_step mem_new_tree self.old self.new) }
        ensures err { OnErr result (NewTreeFailed (new_tree_step mem_new_tree self.old self.new)) }

        ensures fails { Contains self.old.fails self.old.calls → IsErr result }
        ensures kept { self.new.fails ≡ self.old.fails }
        ensures err_count { OnErr result (self.new.faults ≡ counted self.old.faults) }
    {
        self.calls.next()?;
        let Ok(top) = String::from_str(self.alloc, path) else {
            return Err(self.calls.fault());
        };
        self.top = Some(top);
        self.made = Vec::new(self.alloc);
        Ok(())
    }

    /// It fails where the call's number stands in the list that it was given, where a name isn't text that leads into a folder, where
    /// something stands at the path or the folder around it isn't there, and for want of memory alone besides.
    fn make_folder(&mut self, path: &[Bytes]) -> Result<(), Failed>
        ensures made { OnOk result (MadeMore (a_folder path.now) (new_tree_step mem_new_tree self.old self.new)) }
        ensures inside { OnOk result (All IsTextName path.now) }
        ensures quiet { OnOk result (NewTreeQuiet (new_tree_step mem_new_tree self.old self.new)) }
        ensures call { NewTreeCalled (new_tree_step mem_new_tree self.old self.new) }
        ensures err { OnErr result (NewTreeFailed (new_tree_step mem_new_tree self.old self.new)) }

        ensures fails { Contains self.old.fails self.old.calls → IsErr result }
        ensures free { OnOk result (IsFree self.old.made path.now) }
        ensures kept { self.new.fails ≡ self.old.fails }
        ensures err_count { OnErr result (self.new.faults ≡ counted self.old.faults) }
    {
        self.calls.next()?;
        let Ok(path) = self.free_path(path) else {
            return Err(self.calls.fault());
        };
        self.keep(Made::Folder(path))
    }

    /// It fails as `make_folder` does.
    fn make_file(&mut self, path: &[Bytes]) -> Result<(), Failed>
        ensures made { OnOk result (MadeMore (a_file path.now []) (new_tree_step mem_new_tree self.old self.new)) }
        ensures inside { OnOk result (All IsTextName path.now) }
        ensures quiet { OnOk result (NewTreeQuiet (new_tree_step mem_new_tree self.old self.new)) }
        ensures call { NewTreeCalled (new_tree_step mem_new_tree self.old self.new) }
        ensures err { OnErr result (NewTreeFailed (new_tree_step mem_new_tree self.old self.new)) }

        ensures fails { Contains self.old.fails self.old.calls → IsErr result }
        ensures free { OnOk result (IsFree self.old.made path.now) }
        ensures kept { self.new.fails ≡ self.old.fails }
        ensures err_count { OnErr result (self.new.faults ≡ counted self.old.faults) }
    {
        self.calls.next()?;
        let Ok(path) = self.free_path(path) else {
            return Err(self.calls.fault());
        };
        self.keep(Made::File(path, Bytes::new(self.alloc)))
    }

    /// Adds all of the bytes. It fails where the call's number stands in the list that it was given, where the last thing that was made
    /// isn't a file, and for want of memory alone besides.
    fn add(&mut self, bytes: &[u8]) -> Result<usize, Failed>
        ensures within { IfOk result (λ n. n ≤ length bytes.now) }
        ensures moves { IfOk result (λ n. 0 < length bytes.now → 0 < n) }
        ensures added { IfOk result (λ n. AddedTo (take n bytes.now) (new_tree_step mem_new_tree self.old self.new)) }
        ensures quiet { OnOk result (NewTreeQuiet (new_tree_step mem_new_tree self.old self.new)) }
        ensures call { NewTreeCalled (new_tree_step mem_new_tree self.old self.new) }
        ensures err { OnErr result (NewTreeFailed (new_tree_step mem_new_tree self.old self.new)) }

        ensures fails { Contains self.old.fails self.old.calls → IsErr result }
        ensures amount { IfOk result (λ n. n ≡ length bytes.now) }
        ensures kept { self.new.fails ≡ self.old.fails }
        ensures err_count { OnErr result (self.new.faults ≡ counted self.old.faults) }
    {
        self.calls.next()?;
        if self.push_all(bytes).is_err() {
            return Err(self.calls.fault());
        }
        Ok(bytes.len())
    }
}

impl MemNewTree {
    /// A path at which something may be made. Errors: those of `system_path`; `Failed` where it isn't free.
    fn free_path(&self, path: &[Bytes]) -> Result<List<Bytes>, FolderFault>
        ensures path { IfOk result (λ copy. copy ≡ path.now) }
        ensures inside { IfOk result (λ _. All IsTextName path.now) }
        ensures free { IfOk result (λ _. IsFree self.now.made path.now) }
    {
        system_path(self.alloc, "", path)?;
        if !is_free(self.made.as_slice(), path) {
            return Err(FolderFault::Failed);
        }
        Ok(copied(self.alloc, path)?)
    }

    /// Keeps what was made. The error is want of memory, which is counted.
    fn keep(&mut self, made: Made) -> Result<(), Failed>
        ensures made { OnOk result (self.new.made ≡ self.old.made ++ made ∷ []) }
        ensures quiet { OnOk result (self.new.faults ≡ self.old.faults) }
        ensures same { (self.new.place ≡ self.old.place) × (self.new.fails ≡ self.old.fails) × (self.new.calls ≡ self.old.calls) }
        ensures err { OnErr result (self.new.made ≡ self.old.made) }
        ensures err_count { OnErr result (self.new.faults ≡ counted self.old.faults) }
        ensures err_counted { OnErr result (self.old.faults ≤ self.new.faults) }
    {
        if self.made.push(made).is_err() {
            return Err(self.calls.fault());
        }
        Ok(())
    }

    /// Adds bytes to the file that was made last. Errors: `Failed`, where no file was; `OutOfMemory`.
    fn push_all(&mut self, bytes: &[u8]) -> Result<(), FolderFault>
        ensures added { OnOk result (AddedTo bytes.now (new_tree_step mem_new_tree self.old self.new)) }
        ensures same { (self.new.fails ≡ self.old.fails) × (self.new.calls ≡ self.old.calls) × (self.new.faults ≡ self.old.faults) }
        ensures place { self.new.place ≡ self.old.place }
        ensures err { OnErr result (self.new.made ≡ self.old.made) }
    {
        match self.made.last_mut() {
            Some(last) => last.push_all(bytes),
            None => Err(FolderFault::Failed),
        }
    }
}

/// Whether something may be made at a path: nothing was yet, and the folder around it was.
fn is_free(made: &[Made], path: &[Bytes]) -> bool
    ensures { IsTrue result ↔ IsFree made.now path.now }
{
    !is_made(made, path) && has_folder_for(made, path)
}

/// Whether something was made at a path.
fn is_made(made: &[Made], path: &[Bytes]) -> bool
    ensures { IsTrue result ↔ Contains (paths_made made.now) path.now }
{
    for one in made {
        if one.path() == path {
            return true;
        }
    }
    false
}

/// Whether the folder was made in which a path leads to an entry; that of the top is none, and the top is made first.
fn has_folder_for(made: &[Made], path: &[Bytes]) -> bool
    ensures { IsTrue result ↔ HasFolderFor made.now path.now }
{
    match path.split_last() {
        None => made.is_empty(),
        Some((_, folder)) => has_folder(made, folder),
    }
}

/// Whether a folder was made at a path.
fn has_folder(made: &[Made], path: &[Bytes]) -> bool
    ensures { IsTrue result ↔ Contains made.now (a_folder path.now) }
{
    for one in made {
        if one.is_folder_at(path) {
            return true;
        }
    }
    false
}

/// The same path. The error is want of memory.
fn copied(alloc: Global, path: &[Bytes]) -> Result<List<Bytes>, AllocError>
    ensures { IfOk result (λ copy. copy ≡ path.now) }
{
    let mut copy = List::new(alloc);
    for name in path {
        copy.push(Bytes::of(alloc, name.as_slice())?)?;
    }
    Ok(copy)
}

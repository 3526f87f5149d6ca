//! A tree of files in memory, which is read and fails at the calls that it is given.
ghost use Rattle.std.specs.Prelude.{◌≡◌, ◌-◌, ◌↔◌, min, [], length, drop, Some, None, All, IsErr, IsErrOf, Contains};
ghost use Rattle.std.specs.Prelude.{OnErr, OnOk, IfOk, IfErr, IfSome, MatchOption};
ghost use Rattle.tg_faults.specs.Faults.{counted};
ghost use Rattle.tg_files.specs.Packs.{ReadAt};
ghost use Rattle.tg_files.specs.Folders.{AttachedAt, FolderCalled, FolderCounts, FolderQuiet, FolderRose, Leads, Lists};
ghost use Rattle.tg_files.specs.Folders.{SameFolder, TellsFolder, folder_step, mem_folder};
ghost use Rattle.tg_tree.specs.Tree.{IsFolderOfFiles, bytes_of, items_of, tree_at};

use crate::folders::{Folder, FolderFault};
use crate::place::{Place, Target};
use crate::reading::read_front;
use std::alloc::Global;
use std::marker::Model;
use tg_bytes::{Bytes, List};
use tg_faults::{Calls, Failed};
use tg_tree::{Item, Tree, list_items};

/// A tree of files in memory that is read. The calls are numbered from 0, and those whose numbers it was given fail.
#[derive(Drop)]
pub struct MemFolder {
    alloc: Global,
    tree: Tree,
    place: Place,
    calls: Calls,
}

impl Model for MemFolder {
    ghost use Rattle.tg_files.specs.Folders.{FolderState};
    ghost use Rattle.tg_tree.specs.Tree.{IsFolderOfFiles};
    ghost use Rattle.tg_tree.specs.contracts.tree.Tree as trees;
    ghost use Rattle.std.specs.Coded.{codes};
    ghost use Rattle.std.specs.Prelude.{option_map};

    ghost Value = { FolderState };

    ghost coded = { Prim.hlevel (codes, trees.the_row.coded) };

    ghost view = { λ f. record {
      tree = f.tree;
      place = option_map (λ p. p.path) f.place.at;
      fails = f.calls.fails;
      calls = f.calls.made;
      faults = f.calls.faults;
    } };

    ghost invariant = { λ f. IsFolderOfFiles f.tree };
}

impl MemFolder {
    /// A folder of this tree, which is a folder in which, and in each folder below, the names differ. The calls whose
    /// numbers stand in `fails`, counted from 0, fail. Lists are made with the allocator.
    pub fn new(alloc: Global, tree: Tree, fails: List<u64>) -> MemFolder
        requires { IsFolderOfFiles tree }
        ensures { result ≡ record { tree = tree; place = None; fails = fails; calls = 0; faults = 0 } }
    {
        MemFolder {
            alloc,
            tree,
            place: Place::nowhere(),
            calls: Calls::new(fails),
        }
    }

    /// How many calls failed.
    pub fn count(&self) -> u64
        ensures { result ≡ self.now.faults }
    {
        self.calls.faults
    }
}

impl Folder for MemFolder {
    ghost folder = { mem_folder };

    fn tells(&self) {
        let _tree = &self.tree;
    }

    /// The path isn't looked for, and the tree stays. It fails exactly where the call's number stands in the list that
    /// it was given.
    fn attach(&mut self, path: &str) -> Result<(), Failed>
        ensures tells { OnOk result (TellsFolder (Some self.new.tree)) }
        ensures at { OnOk result (AttachedAt path.now (folder_step mem_folder self.old self.new)) }
        ensures quiet { OnOk result (FolderQuiet (folder_step mem_folder self.old self.new)) }
        ensures call { FolderCalled (folder_step mem_folder self.old self.new) }
        ensures err_same { OnErr result (SameFolder (folder_step mem_folder self.old self.new)) }
        ensures err_rose { OnErr result (FolderRose (folder_step mem_folder self.old self.new)) }

        ensures fails { IsErr result ↔ Contains self.old.fails self.old.calls }
        ensures kept { (self.new.tree ≡ self.old.tree) × (self.new.fails ≡ self.old.fails) }
        ensures err_count { OnErr result (self.new.faults ≡ counted self.old.faults) }
    {
        self.calls.next()?;
        self.place = Place::of(&Target { path, fresh: false });
        Ok(())
    }

    /// The names in the order of the tree. It is a fault exactly where the call's number stands in the list that it was
    /// given.
    fn list(&mut self, path: &[Bytes]) -> Result<List<Item>, FolderFault>
        ensures items { IfOk result (λ items. Lists (tree_at (Some self.old.tree) path.now) items) }
        ensures leads { IfOk result (λ items. All (Leads (Some self.old.tree) path.now) items) }
        ensures same { SameFolder (folder_step mem_folder self.old self.new) }
        ensures quiet { OnOk result (FolderQuiet (folder_step mem_folder self.old self.new)) }
        ensures call { FolderCalled (folder_step mem_folder self.old self.new) }
        ensures err_counts { IfErr result (λ e. FolderCounts e (folder_step mem_folder self.old self.new)) }

        ensures fails { IsErrOf result FolderFault.Failed ↔ Contains self.old.fails self.old.calls }
        ensures in_order { IfOk result (λ items.
            MatchOption (tree_at (Some self.old.tree) path.now) (items ≡ []) (λ found. items ≡ items_of found)) }
        ensures kept { self.new.fails ≡ self.old.fails }
        ensures err_count { IsErrOf result FolderFault.Failed → self.new.faults ≡ counted self.old.faults }
    {
        self.calls.next()?;
        match self.tree.at(path) {
            Some(found) => Ok(list_items(self.alloc, found.entries())?),
            None => Ok(List::new(self.alloc)),
        }
    }

    /// Reads as many bytes as the buffer and the file allow. It fails exactly where the call's number stands in the
    /// list that it was given.
    fn read_at(&mut self, path: &[Bytes], offset: u64, buf: &mut [u8]) -> Result<usize, Failed>
        ensures read { let file = bytes_of (tree_at (Some self.old.tree) path.now) in
            IfOk result (λ n. ReadAt file offset n buf.new) }
        ensures same { SameFolder (folder_step mem_folder self.old self.new) }
        ensures quiet { OnOk result (FolderQuiet (folder_step mem_folder self.old self.new)) }
        ensures call { FolderCalled (folder_step mem_folder self.old self.new) }
        ensures err_rose { OnErr result (FolderRose (folder_step mem_folder self.old self.new)) }

        ensures fails { IsErr result ↔ Contains self.old.fails self.old.calls }
        ensures amount { IfOk result (λ n. IfSome (bytes_of (tree_at (Some self.old.tree) path.now))
            (λ file. n ≡ min (length buf.new) (length file - offset))) }
        ensures others { IfOk result (λ n. drop n buf.new ≡ drop n buf.old) }
        ensures err_buffer { OnErr result (buf.new ≡ buf.old) }
        ensures kept { self.new.fails ≡ self.old.fails }
        ensures err_count { OnErr result (self.new.faults ≡ counted self.old.faults) }
    {
        self.calls.next()?;
        Ok(read_front(self.tree.bytes_at(path), offset, buf))
    }
}

//! Trees of files that are made anew.
ghost use Rattle.std.specs.Prelude.{◌≡◌, ◌<◌, ◌≤◌, [], All, IfOk, OnErr, OnOk, length, take};
ghost use Rattle.tg_files.specs.Folders.{IsTextName};
ghost use Rattle.tg_new_tree.specs.NewTrees.{AddedTo, BegunAt, MadeMore, NewTreeCalled, NewTreeFailed, NewTreeMeaning};
ghost use Rattle.tg_new_tree.specs.NewTrees.{NewTreeQuiet, new_tree_step};
ghost use Rattle.tg_new_tree.specs.declared.made.Made.TheVariants.{File as a_file, Folder as a_folder};

use tg_bytes::Bytes;
use tg_faults::Failed;

/// A tree of files that is made anew: nothing that stood there before is written, and each name is made once. A place in it is a path of
/// names from its top, which is the empty path, and may be a folder or a file.
///
/// Its meaning is one record: `made` is what was made, in order, each file with the bytes that were added to it; `place` is the path of the
/// system at which the top is to stand, by the last `begin` that answered Ok, and `None` before the first; `faults` counts the calls that
/// failed and stands still at 2^64 - 1; `calls` counts the calls that were made, or is `None` where that isn't told.
pub trait NewTree {
    ghost new_tree: { NewTreeMeaning Self };

    /// From now on the top is to stand at a path of the system, at which nothing stands. Nothing is made by it. The error is a fault of
    /// the tree, also where something stands there, a symbolic link too.
    fn begin(&mut self, path: &str) -> Result<(), Failed>
        ensures at { OnOk result (BegunAt path.now (new_tree_step new_tree self.old self.new)) }
        ensures quiet { OnOk result (NewTreeQuiet (new_tree_step new_tree self.old self.new)) }
        ensures call { NewTreeCalled (new_tree_step new_tree self.old self.new) }
        ensures err { OnErr result (NewTreeFailed (new_tree_step new_tree self.old self.new)) };

    /// Makes a folder at a path. The error is a fault of the tree, also where something stands at the path, where the folder around it
    /// isn't there, and where a name isn't text or leads out of that folder.
    fn make_folder(&mut self, path: &[Bytes]) -> Result<(), Failed>
        ensures made { OnOk result (MadeMore (a_folder path.now) (new_tree_step new_tree self.old self.new)) }
        ensures inside { OnOk result (All IsTextName path.now) }
        ensures quiet { OnOk result (NewTreeQuiet (new_tree_step new_tree self.old self.new)) }
        ensures call { NewTreeCalled (new_tree_step new_tree self.old self.new) }
        ensures err { OnErr result (NewTreeFailed (new_tree_step new_tree self.old self.new)) };

    /// Makes an empty file at a path, to which bytes can be added until something else is made. The errors are those of `make_folder`.
    fn make_file(&mut self, path: &[Bytes]) -> Result<(), Failed>
        ensures made { OnOk result (MadeMore (a_file path.now []) (new_tree_step new_tree self.old self.new)) }
        ensures inside { OnOk result (All IsTextName path.now) }
        ensures quiet { OnOk result (NewTreeQuiet (new_tree_step new_tree self.old self.new)) }
        ensures call { NewTreeCalled (new_tree_step new_tree self.old self.new) }
        ensures err { OnErr result (NewTreeFailed (new_tree_step new_tree self.old self.new)) };

    /// Adds a front of the bytes to the file that was made last, at least one where there is one, and says how many. The error is a
    /// fault of the tree, which adds nothing, also where the last thing that was made isn't a file.
    fn add(&mut self, bytes: &[u8]) -> Result<usize, Failed>
        ensures within { IfOk result (λ n. n ≤ length bytes.now) }
        ensures moves { IfOk result (λ n. 0 < length bytes.now → 0 < n) }
        ensures added { IfOk result (λ n. AddedTo (take n bytes.now) (new_tree_step new_tree self.old self.new)) }
        ensures quiet { OnOk result (NewTreeQuiet (new_tree_step new_tree self.old self.new)) }
        ensures call { NewTreeCalled (new_tree_step new_tree self.old self.new) }
        ensures err { OnErr result (NewTreeFailed (new_tree_step new_tree self.old self.new)) };
}

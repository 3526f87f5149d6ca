//! What is imported from and into, and what is left of it.
ghost use Rattle.std.specs.Prelude.{◌≡◌, IsTrue};
ghost use Rattle.tg_tree.specs.Tree.{IsFolderOfFiles};

use crate::given::fails_at;
use crate::numbered_log::NumberedLog;
use std::alloc::Global;
use tg_bytes::List;
use tg_files::MemFolder;
use tg_rows::Answer;
use tg_tree::{Sort, Tree};

/// The call of the folder that fails, and that of the keeper, by its number, or none.
#[derive(Clone, Copy)]
pub struct Fails {
    pub folder: Option<u64>,
    pub keeper: Option<u64>,
}

/// No call fails.
pub const NONE: Fails = Fails {
    folder: None,
    keeper: None,
};

/// The call of the folder with this number fails.
pub const fn in_folder(number: u64) -> Fails {
    Fails {
        folder: Some(number),
        keeper: None,
    }
}

/// The call of the keeper with this number fails.
pub const fn in_keeper(number: u64) -> Fails {
    Fails {
        folder: None,
        keeper: Some(number),
    }
}

/// How many calls of a row fail in turn at most.
pub const MOST_CALLS: u64 = 10_000;

/// Whether the tree is a folder in which the names differ.
pub fn has_names(tree: &Tree) -> bool
    ensures { IsTrue result → IsFolderOfFiles tree.now }
{
    tree.sort() == Sort::Folder && tree.names_differ()
}

/// A folder in memory, of which this call fails, or none.
pub fn folder_of(alloc: Global, tree: Tree, call: Option<u64>) -> MemFolder
    requires { IsFolderOfFiles tree }
    ensures { result.tree ≡ tree }
{
    MemFolder::new(alloc, tree, fails_at(alloc, call))
}

/// An empty log, of which this call fails, or none.
pub fn log_of(alloc: Global, call: Option<u64>) -> NumberedLog {
    NumberedLog::new(alloc, fails_at(alloc, call))
}

/// What is left of an import: how often the folder failed and the keeper, and how many bytes each block has that was
/// kept, in order.
#[derive(Drop)]
pub struct Left {
    pub folder_faults: u64,
    pub keeper_faults: u64,
    pub lengths: List<u64>,
}

impl Left {
    /// What the folder and the log tell.
    pub fn of(alloc: Global, folder: &MemFolder, log: &NumberedLog) -> Left {
        Left {
            folder_faults: folder.count(),
            keeper_faults: log.faults(),
            lengths: match log.lengths() {
                Ok(lengths) => lengths,
                Err(_) => List::new(alloc),
            },
        }
    }

    /// Whether the folder failed so often, and the keeper so often.
    pub fn failed(&self, folder: u64, keeper: u64) -> bool {
        self.folder_faults == folder && self.keeper_faults == keeper
    }

    /// Whether just the first so many of these blocks were kept.
    pub fn has_first(&self, whole: &[u64], count: usize) -> bool {
        self.lengths.as_slice() == whole.get(..count).unwrap_or(whole)
    }
}

/// Says numbers.
pub fn say_numbers(numbers: &[u64], answer: &mut Answer) {
    for number in numbers {
        answer.number(*number);
    }
}

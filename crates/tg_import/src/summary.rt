//! How a folder is imported, and what was.
ghost use Rattle.std.specs.Prelude.{◌≡◌, IfSome, MatchOption, cond};
ghost use Rattle.tg_import.specs.Counting.{nothing, one_file, one_folder, one_sharded, plus};
ghost use Rattle.tg_import.specs.Refused.{PassesTotal};

/// How large a number of a summary and the Tsizes of a directory's entries together are at most: 2^62.
pub(crate) const MAX_TOTAL: u64 = 1 << 62;

/// How a folder is imported.
#[derive(Clone, Copy, Debug, PartialEq, Eq)]
pub struct Options {
    /// How many bytes a chunk has, from 1 to 2,097,152.
    pub chunk: u32,
    /// How many links a node of a file has at most, from 2 to 4,096.
    pub width: u32,
    /// The weight above which a directory is sharded, at most 1,048,576.
    pub shard: u64,
}

/// What was imported. Each number is at most 2^62.
#[derive(Clone, Copy, Debug, PartialEq, Eq)]
pub struct Summary {
    /// How many files.
    pub files: u64,
    /// How many folders, the root with them.
    pub folders: u64,
    /// How many of them are sharded.
    pub shards: u64,
    /// How many bytes the files have together.
    pub bytes: u64,
}

impl Summary {
    /// What was imported where nothing was.
    pub(crate) fn nothing() -> Summary
        ensures { result ≡ nothing }
    {
        Summary {
            files: 0,
            folders: 0,
            shards: 0,
            bytes: 0,
        }
    }

    /// A file with so many bytes.
    pub(crate) fn of_file(bytes: u64) -> Summary
        ensures { result ≡ one_file bytes }
    {
        Summary {
            files: 1,
            folders: 0,
            shards: 0,
            bytes,
        }
    }

    /// A directory itself.
    pub(crate) fn of_folder(sharded: bool) -> Summary
        ensures { result ≡ cond sharded one_sharded one_folder }
    {
        Summary {
            files: 0,
            folders: 1,
            shards: u64::from(sharded),
            bytes: 0,
        }
    }

    /// Both together, and none where a number would pass 2^62.
    pub(crate) fn with(self, more: Summary) -> Option<Summary>
        ensures sum { MatchOption result (PassesTotal (plus self more)) (λ sum. sum ≡ plus self more) }
        ensures small { IfSome result (λ sum. ¬ PassesTotal sum) }
    {
        let sum = Summary {
            files: self.files.saturating_add(more.files),
            folders: self.folders.saturating_add(more.folders),
            shards: self.shards.saturating_add(more.shards),
            bytes: self.bytes.saturating_add(more.bytes),
        };
        if sum.files > MAX_TOTAL
            || sum.folders > MAX_TOTAL
            || sum.shards > MAX_TOTAL
            || sum.bytes > MAX_TOTAL
        {
            return None;
        }
        Some(sum)
    }
}

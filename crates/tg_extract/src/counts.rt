//! How much was made.
ghost use Rattle.std.specs.Prelude.{◌≡◌, ◌+◌};
ghost use Rattle.tg_verify.specs.State.{told};

/// How many files and folders were made, the top with them, and how many bytes were added to the files. Each number stands still at
/// 2^64 - 1.
#[derive(Clone, Copy, Debug, PartialEq, Eq)]
pub struct Counts {
    pub files: u64,
    pub folders: u64,
    pub bytes: u64,
}

impl Counts {
    /// Nothing was made.
    pub(crate) fn new() -> Counts
        ensures { result ≡ record { files = 0; folders = 0; bytes = 0 } }
    {
        Counts {
            files: 0,
            folders: 0,
            bytes: 0,
        }
    }

    /// A file was made.
    pub(crate) fn file(&mut self)
        ensures { self.new ≡ record self.old { files = told (self.old.files + 1) } }
    {
        self.files = self.files.saturating_add(1);
    }

    /// A folder was made.
    pub(crate) fn folder(&mut self)
        ensures { self.new ≡ record self.old { folders = told (self.old.folders + 1) } }
    {
        self.folders = self.folders.saturating_add(1);
    }

    /// So many bytes were added to a file.
    pub(crate) fn add(&mut self, bytes: usize)
        ensures { self.new ≡ record self.old { bytes = told (self.old.bytes + bytes) } }
    {
        self.bytes = self.bytes.saturating_add(bytes as u64);
    }
}

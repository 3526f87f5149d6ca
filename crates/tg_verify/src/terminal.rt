//! What a query's path leads to.
ghost use Rattle.std.specs.Prelude.{◌≡◌, ℕ, List as Items};
ghost use Rattle.tg_model.specs.Placed.{StandsForKind};
ghost use Rattle.tg_model.specs.declared.kinds.Kind.{Kind};
ghost use Rattle.tg_verify.specs.Terminals.{terminal_kind};

use tg_model::PlacedKind;

/// What a query's path leads to, by what its block is read as.
///
/// UnixFS specification, node types; Path Gateway specification, Path Resolution.
#[derive(Clone, Copy, PartialEq, Eq)]
pub enum Terminal {
    /// A file: a raw block, or UnixFS data of type Raw or File.
    File,
    /// A directory, in one block or in shards: UnixFS data of type Directory or HAMTShard.
    Directory,
    /// A symbolic link: UnixFS data of type Symlink.
    Symlink,
}

/// That of a block that is read as this kind.
pub(crate) fn terminal_of(found: &PlacedKind) -> Terminal
    ensures { (block : Items ℕ) (kind : Kind) → StandsForKind block found.now kind → result ≡ terminal_kind kind }
{
    match found {
        PlacedKind::Raw | PlacedKind::File(_) => Terminal::File,
        PlacedKind::Basic { .. } | PlacedKind::Shard { .. } => Terminal::Directory,
        PlacedKind::Symlink { .. } => Terminal::Symlink,
    }
}

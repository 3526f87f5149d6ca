//! A folder in memory, imported into a pack in memory.
ghost use Rattle.std.specs.Prelude.{MatchResult};
ghost use Rattle.tg_audit.specs.Packing.{IsAttachedOf, IsPackedOf, IsUnattached, IsUnpacked};
ghost use Rattle.tg_tree.specs.Tree.{IsFolderOfFiles};

use crate::fault::AuditFault;
use std::alloc::Global;
use tg_bytes::{Bytes, List};
use tg_cid::Cid;
use tg_files::{MemFolder, MemPack};
use tg_import::{Options, Summary, import_pack};
use tg_store::PackStore;
use tg_tree::Tree;

/// How the folder is imported: chunks of 1,048,576 bytes, 1,024 links a node, and sharded directories above a weight of
/// 16,384.
const OPTIONS: Options = Options {
    chunk: 1_048_576,
    width: 1_024,
    shard: 16_384,
};

/// What was imported, and the pack that holds it.
#[derive(Drop)]
pub struct Packed {
    /// The folder's CID.
    pub root: Cid,
    /// How many files, folders and bytes were imported.
    pub summary: Summary,
    /// A CAR with that root, in memory.
    pub pack: MemPack,
}

/// Imports a tree, which is a folder, into a pack in memory.
///
/// UnixFS and CARv1 specifications. Errors: `Import`, where the tree has a cause of a refusal; and `OutOfMemory`.
pub fn import_tree(alloc: Global, tree: Tree) -> Result<Packed, AuditFault>
    requires { IsFolderOfFiles tree }
    ensures { MatchResult result (IsPackedOf tree) (IsUnpacked tree) }
{
    let mut folder = MemFolder::new(alloc, tree, List::new(alloc));
    let pack = MemPack::new(Bytes::new(alloc), List::new(alloc));
    let (pack, end) = import_pack(alloc, &mut folder, pack, OPTIONS);
    let (root, summary) = end?;
    Ok(Packed {
        root,
        summary,
        pack,
    })
}

/// The store of what a pack holds, which is read through and checked.
///
/// CARv1 specification. Errors: `Pack`, where the content has a cause of a refusal; and `OutOfMemory`.
pub fn attach(alloc: Global, pack: MemPack) -> Result<PackStore<MemPack>, AuditFault>
    ensures { MatchResult result (IsAttachedOf pack) (IsUnattached pack) }
{
    match PackStore::attach_pack(alloc, pack) {
        Ok(store) => Ok(store),
        Err(refused) => Err(AuditFault::from(refused.fault)),
    }
}

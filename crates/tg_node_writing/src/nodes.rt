//! The block of a node.
ghost use Rattle.std.specs.Prelude.{IfOk};
ghost use Rattle.tg_unixfs.specs.Unix.{IsUnix};
ghost use Rattle.tg_node_writing.specs.Nodes.{IsLinkFor, IsNodeOf};

use std::alloc::{AllocError, Global};
use tg_bytes::{Bytes, List};
use tg_dagpb::{Link, Node};
use tg_model::NewEntry;
use tg_unixfs::Unix;

/// The canonical block of a node with a link for each entry, in their order, and with this data, which
/// `tg_unixfs::decode` can give. A link has the entry's CID, its name, which is written also where it is empty, and its
/// Tsize. The error is want of memory.
///
/// IPLD specification, DAG-PB, Serial Format; UnixFS specification, Data Format.
pub fn node_block(alloc: Global, entries: &[NewEntry], unix: &Unix) -> Result<Bytes, AllocError>
    requires { IsUnix unix.now }
    ensures { IfOk result (IsNodeOf entries.now unix.now) }
{
    let mut links = Vec::with_capacity(alloc, entries.len())?;
    for entry in entries {
        links.push(link_for(alloc, entry)?)?;
    }
    let node = Node {
        links: List::from(links),
        payload: Some(tg_unixfs::encode(alloc, unix)?),
    };
    tg_dagpb::encode(alloc, &node)
}

/// The link for an entry.
fn link_for(alloc: Global, entry: &NewEntry) -> Result<Link, AllocError>
    ensures { IfOk result (IsLinkFor entry.now) }
{
    Ok(Link {
        hash: entry.cid.to_bytes(alloc)?,
        name: Some(Bytes::of(alloc, entry.name.as_slice())?),
        tsize: Some(entry.tsize),
    })
}

//! The blocks of a file, kept one by one.
ghost use Rattle.std.specs.Prelude.{◌≡◌, ◌≤◌, [], ◌∷◌, All, IfOk, IfErr, OnErr, length, map};
ghost use Rattle.std.specs.List.{sum_by};
ghost use Rattle.tg_cid.specs.Limits.{max_block_len};
ghost use Rattle.tg_node_writing.specs.Keeping.{Keeps, StopsAfter, section_of};
ghost use Rattle.tg_filedag.specs.Linking.{IsKeptNode};
ghost use Rattle.tg_filedag.specs.Trees.{IsFileBlock, IsPlain, content_in, entry_for, leaf_made, tsize_in};
ghost use Rattle.tg_cid.specs.declared.cid.Codec.TheVariants.{Raw};
ghost use Rattle.tg_model.specs.Stores.{kept_in};

use crate::subtree::Subtree;
use std::alloc::{AllocError, Global};
use tg_bytes::{Bytes, List};
use tg_cid::Codec;
use tg_model::{Keep, KeepFault, Made, NewEntry};
use tg_node_writing::{keep_block, node_block};
use tg_unixfs::Unix;

/// The UnixFS type of a file.
const FILE: u64 = 2;

/// Keeps the chunk as a raw leaf. Errors: those of the store.
pub(crate) fn keep_leaf<K: Keep>(chunk: &[u8], keep: &mut K) -> Result<Made, KeepFault>
    requires { length chunk.now ≤ max_block_len }
    ensures made { IfOk result (λ made. (made ≡ leaf_made chunk.now)
        × Keeps (section_of Raw chunk.now ∷ []) (kept_in K.keeper keep.old keep.new)) }
    ensures stops { IfErr result (λ fault. StopsAfter [] fault (kept_in K.keeper keep.old keep.new)) }
    ensures err_counted { OnErr result (K.keeper.faults keep.old ≤ K.keeper.faults keep.new) }
{
    keep_block(Codec::Raw, chunk, chunk.len() as u64, 0, keep)
}

/// Keeps the node over these links, of which there are at most 4,096. Errors: those of the store, and want of memory.
///
/// UnixFS specification, File.
pub(crate) fn keep_node<K: Keep>(
    alloc: Global,
    links: &[Subtree],
    keep: &mut K,
) -> Result<Made, KeepFault>
    requires few { length links.now ≤ 4096 }
    requires plain { All IsPlain links.now }
    requires content { sum_by content_in links.now ≤ 2305843009213693952 }
    requires tsize { sum_by tsize_in links.now ≤ 2305843009213693952 }
    ensures made { IfOk result (λ made. IsKeptNode links.now made (kept_in K.keeper keep.old keep.new)) }
    ensures stops { IfErr result (λ fault. StopsAfter [] fault (kept_in K.keeper keep.old keep.new)) }
    ensures err_counted { OnErr result (K.keeper.faults keep.old ≤ K.keeper.faults keep.new) }
{
    tg_node_writing::laws::written_nodes();
    let (content, tsizes) = totals(links);
    let Ok(block) = file_block(alloc, links, content) else {
        return Err(KeepFault::OutOfMemory);
    };
    keep_block(Codec::DagPb, block.as_slice(), content, tsizes, keep)
}

/// How many bytes of content the links have together, and the sum of their Tsizes.
fn totals(links: &[Subtree]) -> (u64, u64)
    requires content { sum_by content_in links.now ≤ 2305843009213693952 }
    requires tsize { sum_by tsize_in links.now ≤ 2305843009213693952 }
    ensures content { result.0 ≡ sum_by content_in links.now }
    ensures tsize { result.1 ≡ sum_by tsize_in links.now }
{
    let mut content = 0;
    let mut tsizes = 0;
    for link in links {
        content += link.made.content;
        tsizes += link.made.tsize;
    }
    (content, tsizes)
}

/// The block of the node over these links, whose content has so many bytes.
fn file_block(alloc: Global, links: &[Subtree], content: u64) -> Result<Bytes, AllocError>
    requires { content ≡ sum_by content_in links.now }
    ensures { IfOk result (IsFileBlock links.now) }
{
    let entries = entries_for(alloc, links)?;
    let unix = Unix {
        kind: FILE,
        inline: None,
        filesize: Some(content),
        sizes: sizes_of(alloc, links)?,
        hash: None,
        fanout: None,
    };
    node_block(alloc, entries.as_slice(), &unix)
}

/// The entries for the links, which have no names.
fn entries_for(alloc: Global, links: &[Subtree]) -> Result<List<NewEntry>, AllocError>
    ensures { IfOk result (λ entries. entries ≡ map entry_for links.now) }
{
    let mut entries = Vec::with_capacity(alloc, links.len())?;
    for link in links {
        entries.push(NewEntry {
            name: Bytes::new(alloc),
            cid: link.made.cid,
            tsize: link.made.tsize,
        })?;
    }
    Ok(List::from(entries))
}

/// How many bytes of content each link has.
fn sizes_of(alloc: Global, links: &[Subtree]) -> Result<List<u64>, AllocError>
    ensures { IfOk result (λ sizes. sizes ≡ map content_in links.now) }
{
    let mut sizes = Vec::with_capacity(alloc, links.len())?;
    for link in links {
        sizes.push(link.made.content)?;
    }
    Ok(List::from(sizes))
}

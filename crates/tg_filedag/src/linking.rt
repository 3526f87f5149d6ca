//! Subtrees of a file, linked from the lowest level up.
ghost use Rattle.std.specs.Prelude.{◌≡◌, ◌≢◌, ◌↔◌, ◌<◌, ◌≤◌, ◌+◌, ◌-◌, ℕ, List, [], ◌∷◌, ◌++◌, All, IfOk, IfErr};
ghost use Rattle.std.specs.Prelude.{IsTrue, OnErr, OnOk, drop, length, slice_index};
ghost use Rattle.std.specs.List.{sum_by};
ghost use Rattle.tg_cid.specs.Limits.{max_block_len};
ghost use Rattle.tg_node_writing.specs.Keeping.{StopsAfter};
ghost use Rattle.tg_filedag.specs.Linking.{Closes, HasFullLevel, HasRoom, MakesFile, Raises, StopsLeaf, StopsLinking};
ghost use Rattle.tg_filedag.specs.Linking.{TakesLeaf};
ghost use Rattle.tg_filedag.specs.State.{HasNoFullLevel, IsGrowing, heights};
ghost use Rattle.tg_filedag.specs.Trees.{IsPlain, content_in, tsize_in};
ghost use Rattle.tg_model.specs.Dag.{Section};
ghost use Rattle.tg_model.specs.Stores.{kept_in};

use crate::keeping::{keep_leaf, keep_node};
use crate::subtree::Subtree;
use std::alloc::Global;
use tg_model::{Keep, KeepFault, Made};

/// Keeps the chunk as a raw leaf, and links what is full with it. Errors: those of the store, and want of memory.
pub(crate) fn link_leaf<K: Keep>(
    alloc: Global,
    width: usize,
    subtrees: &mut Vec<Subtree>,
    chunk: &[u8],
    keep: &mut K,
) -> Result<(), KeepFault>
    requires small { length chunk.now ≤ max_block_len }
    requires levels { HasNoFullLevel width subtrees.old.items }
    requires growing { (chunks : List (List ℕ)) × (kept : List Section) × IsGrowing width subtrees.old.items chunks kept
        × HasRoom chunks chunk.now }
    ensures leaf { OnOk result (TakesLeaf width subtrees.old.items subtrees.new.items chunk.now
        (kept_in K.keeper keep.old keep.new)) }
    ensures stops { IfErr result (λ fault. StopsLeaf width subtrees.old.items chunk.now fault
        (kept_in K.keeper keep.old keep.new)) }
    ensures err_counted { OnErr result (K.keeper.faults keep.old ≤ K.keeper.faults keep.new) }
{
    tg_model_laws::kept_sections();
    let made = keep_leaf(chunk, keep)?;
    push(subtrees, Subtree { height: 0, made })?;
    raise(alloc, width, subtrees, keep)
}

/// Links all subtrees into one file, or keeps the raw leaf of no bytes where there is none. Errors: those of the store,
/// and want of memory.
pub(crate) fn link_all<K: Keep>(
    alloc: Global,
    width: usize,
    subtrees: &mut Vec<Subtree>,
    keep: &mut K,
) -> Result<Made, KeepFault>
    requires levels { HasNoFullLevel width subtrees.old.items }
    requires growing { (chunks : List (List ℕ)) × (kept : List Section)
        × IsGrowing width subtrees.old.items chunks kept }
    ensures made { IfOk result (λ made. MakesFile width subtrees.old.items made (kept_in K.keeper keep.old keep.new)) }
    ensures stops { IfErr result (λ fault. StopsLinking width subtrees.old.items fault
        (kept_in K.keeper keep.old keep.new)) }
    ensures err_counted { OnErr result (K.keeper.faults keep.old ≤ K.keeper.faults keep.new) }
{
    if subtrees.is_empty() {
        return keep_leaf(&[], keep);
    }
    close_all(alloc, width, subtrees, keep)
}

/// Puts a subtree behind the others. The error is want of memory.
fn push(subtrees: &mut Vec<Subtree>, subtree: Subtree) -> Result<(), KeepFault>
    ensures items { OnOk result (subtrees.new.items ≡ subtrees.old.items ++ subtree ∷ []) }
    ensures memory { IfErr result (λ fault. fault ≡ KeepFault.OutOfMemory) }
{
    match subtrees.push(subtree) {
        Ok(()) => Ok(()),
        Err(_) => Err(KeepFault::OutOfMemory),
    }
}

/// Links full levels until there is none: the last `width` subtrees, where they have one height, become one that stands
/// a level higher. Errors: those of the store, and want of memory.
fn raise<K: Keep>(
    alloc: Global,
    width: usize,
    subtrees: &mut Vec<Subtree>,
    keep: &mut K,
) -> Result<(), KeepFault>
    requires { (chunks : List (List ℕ)) × (kept : List Section) × IsGrowing width subtrees.old.items chunks kept }
    ensures raised { OnOk result (Raises width subtrees.old.items subtrees.new.items
        (kept_in K.keeper keep.old keep.new)) }
    ensures stops { IfErr result (λ fault. StopsLinking width subtrees.old.items fault
        (kept_in K.keeper keep.old keep.new)) }
    ensures err_counted { OnErr result (K.keeper.faults keep.old ≤ K.keeper.faults keep.new) }
{
    tg_model_laws::kept_sections();
    tg_node_writing::laws::written_nodes();
    tg_node_writing::laws::file_nodes();
    while has_full_level(width, subtrees.as_slice()) {
        let start = subtrees.len() - width;
        let height = subtrees[start].height + 1;
        close(alloc, subtrees, start, height, keep)?;
    }
    Ok(())
}

/// Links all subtrees, of which there is one at least, into one file, from the lowest level up. Errors: those of the
/// store, and want of memory.
fn close_all<K: Keep>(
    alloc: Global,
    width: usize,
    subtrees: &mut Vec<Subtree>,
    keep: &mut K,
) -> Result<Made, KeepFault>
    requires some { 0 < length subtrees.old.items }
    requires levels { HasNoFullLevel width subtrees.old.items }
    requires growing { (chunks : List (List ℕ)) × (kept : List Section)
        × IsGrowing width subtrees.old.items chunks kept }
    ensures made { IfOk result (λ made. MakesFile width subtrees.old.items made (kept_in K.keeper keep.old keep.new)) }
    ensures stops { IfErr result (λ fault. StopsLinking width subtrees.old.items fault
        (kept_in K.keeper keep.old keep.new)) }
    ensures err_counted { OnErr result (K.keeper.faults keep.old ≤ K.keeper.faults keep.new) }
{
    tg_model_laws::kept_sections();
    tg_node_writing::laws::written_nodes();
    tg_node_writing::laws::file_nodes();
    while subtrees.len() > 1 {
        let lowest = subtrees[subtrees.len() - 1].height;
        let start = first_of_height(subtrees.as_slice(), lowest);
        close(alloc, subtrees, start, lowest + 1, keep)?;
    }
    Ok(subtrees[0].made)
}

/// Links the subtrees from `start` on into one of this height, which then stands in their place. Errors: those of the
/// store, and want of memory.
fn close<K: Keep>(
    alloc: Global,
    subtrees: &mut Vec<Subtree>,
    start: usize,
    height: u64,
    keep: &mut K,
) -> Result<(), KeepFault>
    requires start { start < length subtrees.old.items }
    requires few { length subtrees.old.items ≤ start + 4096 }
    requires plain { All IsPlain (drop start subtrees.old.items) }
    requires content { sum_by content_in (drop start subtrees.old.items) ≤ 2305843009213693952 }
    requires tsize { sum_by tsize_in (drop start subtrees.old.items) ≤ 2305843009213693952 }
    ensures closes { OnOk result (Closes subtrees.old.items start height subtrees.new.items
        (kept_in K.keeper keep.old keep.new)) }
    ensures stops { IfErr result (λ fault. StopsAfter [] fault (kept_in K.keeper keep.old keep.new)) }
    ensures err_counted { OnErr result (K.keeper.faults keep.old ≤ K.keeper.faults keep.new) }
{
    let made = keep_node(alloc, &subtrees.as_slice()[start..], keep)?;
    subtrees.as_mut_slice()[start] = Subtree { height, made };
    subtrees.truncate(start + 1);
    Ok(())
}

/// Whether the last `width` subtrees have one height.
fn has_full_level(width: usize, subtrees: &[Subtree]) -> bool
    requires { 0 < width }
    ensures { IsTrue result ↔ HasFullLevel width subtrees.now }
{
    let len = subtrees.len();
    len >= width && subtrees[len - width].height == subtrees[len - 1].height
}

/// Where the first subtree of this height stands, or how many subtrees there are where none has it.
fn first_of_height(subtrees: &[Subtree], height: u64) -> usize
    ensures within { result ≤ length subtrees.now }
    ensures before { (i : ℕ) → i < result → slice_index (heights subtrees.now) i ≢ height }
    ensures found { result < length subtrees.now → slice_index (heights subtrees.now) result ≡ height }
{
    for (i, subtree) in subtrees.iter().enumerate() {
        if subtree.height == height {
            return i;
        }
    }
    subtrees.len()
}

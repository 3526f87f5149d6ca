//! A block, kept.
ghost use Rattle.std.specs.Prelude.{◌≤◌, ◌^◌, [], IfErr, IfOk, OnErr, length};
ghost use Rattle.tg_cid.specs.Limits.{max_block_len};
ghost use Rattle.tg_model.specs.Stores.{kept_in};
ghost use Rattle.tg_node_writing.specs.Keeping.{KeepsBlock, StopsAfter};

use tg_cid::{Cid, Codec};
use tg_model::{Keep, KeepFault, Made};

/// Keeps a block under its CID of this codec and says what was made: its content has so many bytes, and its Tsize is
/// how many bytes it has and the Tsizes of its links. Errors: those of the store.
///
/// IPLD specification, DAG-PB; CID specification.
pub fn keep_block<K: Keep>(
    codec: Codec,
    block: &[u8],
    content: u64,
    tsizes: u64,
    keep: &mut K,
) -> Result<Made, KeepFault>
    requires small { length block.now ≤ max_block_len }
    requires room { tsizes ≤ 2 ^ 63 }
    ensures made { IfOk result (λ made. KeepsBlock codec block.now content tsizes made
        (kept_in K.keeper keep.old keep.new)) }
    ensures stops { IfErr result (λ fault. StopsAfter [] fault (kept_in K.keeper keep.old keep.new)) }
    ensures err_counted { OnErr result (K.keeper.faults keep.old ≤ K.keeper.faults keep.new) }
{
    let cid = Cid::of_block(codec, block);
    keep.keep(cid, block)?;
    Ok(Made {
        cid,
        content,
        tsize: block.len() as u64 + tsizes,
    })
}

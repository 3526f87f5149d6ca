//! Blocks read from a pack.
ghost use Rattle.std.specs.Prelude.{◌≡◌, ◌+◌, ◌^◌, ◌<◌, length, IfErr, IfOk, MatchResult, OnErr, OnOk, Some};
ghost use Rattle.tg_files.specs.Packs.{PackQuiet, PackRose, SameContent, pack_step};
ghost use Rattle.tg_store.specs.PackReads.{HasBlockAt, HasReadCause, ReadsUpTo};

use crate::place::Place;
use std::alloc::Global;
use tg_bytes::Bytes;
use tg_faults::Failed;
use tg_files::Pack;
use tg_model::BlocksFault;

/// Reads from the offset on until the buffer is full or the pack ends, and says how many bytes.
pub(crate) fn read_up_to<P: Pack>(
    pack: &mut P,
    offset: u64,
    buf: &mut [u8],
) -> Result<usize, Failed>
    requires { offset + length buf.old < 2 ^ 64 }
    ensures read { IfOk result (λ n. ReadsUpTo (P.pack.content pack.old) offset n buf.new) }
    ensures same { SameContent (pack_step P.pack pack.old pack.new) }
    ensures quiet { OnOk result (PackQuiet (pack_step P.pack pack.old pack.new)) }
    ensures rose { OnErr result (PackRose (pack_step P.pack pack.old pack.new)) }
{
    let mut done = 0;
    while done < buf.len() {
        let count = pack.read_at(offset + done as u64, &mut buf[done..])?;
        if count == 0 {
            return Ok(done);
        }
        done += count;
    }
    Ok(done)
}

/// The bytes at the place, fewer where the pack ends before.
pub(crate) fn read_block<P: Pack>(
    alloc: Global,
    pack: &mut P,
    place: Place,
) -> Result<Bytes, BlocksFault>
    requires { place.offset + place.size < 2 ^ 64 }
    ensures block { IfOk result (λ block. HasBlockAt (P.pack.content pack.old) place block) }
    ensures same { SameContent (pack_step P.pack pack.old pack.new) }
    ensures quiet { OnOk result (PackQuiet (pack_step P.pack pack.old pack.new)) }
    ensures cause { IfErr result (λ fault. HasReadCause (pack_step P.pack pack.old pack.new) fault) }
{
    let Ok(mut block) = vec![in alloc; 0u8; place.size as usize] else {
        return Err(BlocksFault::OutOfMemory);
    };
    match read_up_to(pack, place.offset, block.as_mut_slice()) {
        Ok(count) => {
            block.truncate(count);
            Ok(Bytes::from(block))
        }
        Err(Failed) => Err(BlocksFault::Failed),
    }
}

/// A copy of the bytes, as a block that was found. The error is want of memory.
pub(crate) fn copy_of(alloc: Global, bytes: &[u8]) -> Result<Option<Bytes>, BlocksFault>
    ensures { MatchResult result (λ found. found ≡ Some bytes.now) (λ fault. fault ≡ BlocksFault.OutOfMemory) }
{
    match Bytes::of(alloc, bytes) {
        Ok(copy) => Ok(Some(copy)),
        Err(_) => Err(BlocksFault::OutOfMemory),
    }
}

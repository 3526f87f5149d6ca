//! A store in memory that logs each block that is kept in it.
ghost use Rattle.std.specs.Prelude.{◌≡◌, [], map, IfOk, Some, refl};
ghost use Rattle.tg_block_log.specs.BlockLog.{Logged, Searched, first_block};
ghost use Rattle.tg_block_log.specs.BlockLogLaws.{log_is_store, logged_joins, logged_rests, searched_joins};
ghost use Rattle.tg_block_log.specs.LoggedBlocks.{are_good, section_of};

use crate::logged_block::LoggedBlock;
use std::alloc::{AllocError, Global};
use tg_bytes::{Bytes, List};
use tg_cid::Cid;
use tg_model::{Blocks, BlocksFault, Keep, KeepFault};

/// A store in memory that logs each block that is kept in it, in order, and tells the first of each CID. It counts how
/// often blocks are looked up, and stands still at 2 ^ 64 - 1.
#[derive(Drop)]
pub struct BlockLog {
    alloc: Global,
    /// The number that it was made with.
    pub number: u64,
    /// The blocks that are kept, in order.
    pub blocks: List<LoggedBlock>,
    lookups: u64,
}

impl BlockLog {
    /// An empty log with this number.
    pub fn new(alloc: Global, number: u64) -> BlockLog
        ensures number { result.number ≡ number }
        ensures blocks { result.blocks ≡ [] }
    {
        BlockLog {
            alloc,
            number,
            blocks: List::new(alloc),
            lookups: 0,
        }
    }
}

impl Blocks for BlockLog {
    ghost blocks = { record {
      stored = λ s. Some (first_block (map section_of s.blocks));
      faults = λ _. 0;
      looked = λ a b _. Searched a.number b.number (map section_of a.blocks) (map section_of b.blocks);
    } };

    ghost told = { λ s. log_is_store section_of are_good s.blocks };

    ghost rests = { λ s. record { number = refl; same = refl } };

    ghost joins = { λ a b c u v. searched_joins a.number b.number c.number
        (map section_of a.blocks) (map section_of b.blocks) (map section_of c.blocks) };

    /// A copy of the first block under the CID. It fails for want of memory alone.
    fn get(&mut self, cid: &Cid) -> Result<Option<Bytes>, BlocksFault> {
        self.lookups = self.lookups.saturating_add(1);
        match first_block(self.alloc, self.blocks.as_slice(), cid) {
            Ok(found) => Ok(found),
            Err(_) => Err(BlocksFault::OutOfMemory),
        }
    }
}

impl Keep for BlockLog {
    ghost keeper = { record {
      stored = ⟦<BlockLog as Blocks>⟧.blocks.stored;
      faults = ⟦<BlockLog as Blocks>⟧.blocks.faults;
      kept = λ a b sections. Logged a.number b.number (map section_of a.blocks) (map section_of b.blocks) sections;
    } };

    ghost told = { λ s. log_is_store section_of are_good s.blocks };

    ghost rests = { λ s. logged_rests s.number (map section_of s.blocks) };

    ghost joins = { λ a b c u v. logged_joins a.number b.number c.number
        (map section_of a.blocks) (map section_of b.blocks) (map section_of c.blocks) u v };

    /// It fails for want of memory alone.
    fn keep(&mut self, cid: Cid, block: &[u8]) -> Result<(), KeepFault> {
        let Ok(block) = Bytes::of(self.alloc, block) else {
            return Err(KeepFault::OutOfMemory);
        };
        let held = LoggedBlock {
            cid: cid.to_v1(),
            block,
        };
        match self.blocks.push(held) {
            Ok(()) => Ok(()),
            Err(_) => Err(KeepFault::OutOfMemory),
        }
    }
}

/// A copy of the first block whose CID has one version 1 form with this.
fn first_block(
    alloc: Global,
    blocks: &[LoggedBlock],
    cid: &Cid,
) -> Result<Option<Bytes>, AllocError>
    ensures { IfOk result (λ found. found ≡ first_block (map section_of blocks.now) cid.now) }
{
    tg_cid::laws::equality();
    let form = cid.to_v1();
    for held in blocks {
        if held.cid.to_v1() == form {
            return Ok(Some(Bytes::of(alloc, held.block.as_slice())?));
        }
    }
    Ok(None)
}

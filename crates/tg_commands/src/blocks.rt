//! Blocks on the input of commands.
ghost use Rattle.tg_cid.specs.Limits.{max_block_len};
ghost use Rattle.std.specs.Prelude.{◌≡◌, ◌+◌, ◌≤◌, length, take, IfOk, IfErr, vec_len};
ghost use Rattle.tg_streams.specs.Streams.{through};
ghost use Rattle.tg_commands.specs.Blocks.{IsNoBlock, ReadBlock, refusal_for};

use crate::fault::CommandFault;
use std::alloc::{AllocError, Global};
use tg_bytes::{Bytes, zeros};
use tg_cid::{Cid, MAX_BLOCK_LEN};
use tg_streams::{Source, read_front};

/// Why the input isn't a block that a CID names.
#[derive(Clone, Copy)]
pub enum InputRefusal {
    /// A fault of the input was counted.
    Fault,
    /// The input has more bytes than a block may have.
    Limit,
    /// The CID doesn't name the block.
    BadDigest,
}

/// The refusal of a command over a block, with the text of the CID.
pub fn refusal_for(why: InputRefusal, cid: Bytes) -> CommandFault
    ensures { result ≡ refusal_for why cid }
{
    match why {
        InputRefusal::Fault => CommandFault::InputFault,
        InputRefusal::Limit => CommandFault::BlockLimit,
        InputRefusal::BadDigest => CommandFault::BadDigest { cid },
    }
}

/// Reads the input as a block that the CID names into a buffer of one byte more than a block may have, and says how
/// long the block is. It takes no memory.
pub fn read_block<I: Source>(
    buffer: &mut [u8],
    cid: &Cid,
    input: &mut I,
) -> Result<usize, InputRefusal>
    requires room { length buffer.old ≡ max_block_len + 1 }
    ensures within { IfOk result (λ n. n ≤ length buffer.new) }
    ensures read { IfOk result (λ n. ReadBlock cid.now (take n buffer.new) (through I.source input.old input.new)) }
    ensures unread { IfErr result (λ why. IsNoBlock cid.now why (through I.source input.old input.new)) }
{
    let Ok(filled) = read_front(input, buffer) else {
        return Err(InputRefusal::Fault);
    };
    if filled > MAX_BLOCK_LEN {
        return Err(InputRefusal::Limit);
    }
    if !cid.holds(&buffer[..filled]) {
        return Err(InputRefusal::BadDigest);
    }
    Ok(filled)
}

/// A buffer of one byte more than a block may have.
pub fn block_buffer(alloc: Global) -> Result<Vec<u8>, AllocError>
    ensures { IfOk result (λ buffer. vec_len buffer ≡ max_block_len + 1) }
{
    zeros(alloc, MAX_BLOCK_LEN + 1)
}

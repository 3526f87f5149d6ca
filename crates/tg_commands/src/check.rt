//! `check`.
ghost use Rattle.tg_cid.specs.Limits.{max_block_len};
ghost use Rattle.std.specs.Prelude.{◌≡◌, ◌+◌, length};
ghost use Rattle.tg_streams.specs.Streams.{into, through};
ghost use Rattle.tg_commands.specs.Lines.{end_of};
ghost use Rattle.tg_commands.specs.Blocks.{IsTextOf};
ghost use Rattle.tg_commands.specs.Check.{CheckEnds};

use crate::blocks::{block_buffer, read_block, refusal_for};
use crate::fault::{CommandFault, put_text};
use std::alloc::Global;
use tg_bytes::Bytes;
use tg_cid::Cid;
use tg_streams::{Sink, Source};

/// `check`: the input goes to out where it is a block that the CID names.
pub fn check<I: Source, O: Sink>(
    alloc: Global,
    cid: &Cid,
    input: &mut I,
    out: &mut O,
) -> Result<(), CommandFault>
    ensures { CheckEnds cid.now (through I.source input.old input.new) (into O.sink out.old out.new) (end_of result) }
{
    let text = cid.to_text(alloc)?;
    let mut buffer = block_buffer(alloc)?;
    check_in(buffer.as_mut_slice(), cid, text, input, out)
}

/// `check` with a buffer of one byte more than a block may have, and the CID's text. It takes no memory.
fn check_in<I: Source, O: Sink>(
    buffer: &mut [u8],
    cid: &Cid,
    text: Bytes,
    input: &mut I,
    out: &mut O,
) -> Result<(), CommandFault>
    requires room { length buffer.old ≡ max_block_len + 1 }
    requires text { IsTextOf cid.now text }
    ensures { CheckEnds cid.now (through I.source input.old input.new) (into O.sink out.old out.new) (end_of result) }
{
    let filled = match read_block(buffer, cid, input) {
        Ok(filled) => filled,
        Err(why) => return Err(refusal_for(why, text)),
    };
    put_text(out, &buffer[..filled])
}

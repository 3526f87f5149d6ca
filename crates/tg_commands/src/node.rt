//! `node`.
ghost use Rattle.tg_cid.specs.Limits.{max_block_len};
ghost use Rattle.std.specs.Prelude.{◌≡◌, ◌+◌, length};
ghost use Rattle.tg_streams.specs.Streams.{into, through};
ghost use Rattle.tg_commands.specs.Lines.{end_of};
ghost use Rattle.tg_commands.specs.Blocks.{IsTextOf};
ghost use Rattle.tg_commands.specs.Node.{NodeEnds};

use crate::blocks::{block_buffer, read_block, refusal_for};
use crate::fault::{CommandFault, put_text};
use std::alloc::Global;
use tg_bytes::Bytes;
use tg_cid::Cid;
use tg_node::{TextFault, node_text};
use tg_streams::{Sink, Source};

/// `node`: the fields of the block on input go to out where the CID names it.
pub fn node<I: Source, O: Sink>(
    alloc: Global,
    cid: &Cid,
    input: &mut I,
    out: &mut O,
) -> Result<(), CommandFault>
    ensures { NodeEnds cid.now (through I.source input.old input.new) (into O.sink out.old out.new) (end_of result) }
{
    let text = cid.to_text(alloc)?;
    let mut buffer = block_buffer(alloc)?;
    node_in(alloc, buffer.as_mut_slice(), cid, text, input, out)
}

/// `node` with a buffer of one byte more than a block may have, and the CID's text.
fn node_in<I: Source, O: Sink>(
    alloc: Global,
    buffer: &mut [u8],
    cid: &Cid,
    text: Bytes,
    input: &mut I,
    out: &mut O,
) -> Result<(), CommandFault>
    requires room { length buffer.old ≡ max_block_len + 1 }
    requires text { IsTextOf cid.now text }
    ensures { NodeEnds cid.now (through I.source input.old input.new) (into O.sink out.old out.new) (end_of result) }
{
    let filled = match read_block(buffer, cid, input) {
        Ok(filled) => filled,
        Err(why) => return Err(refusal_for(why, text)),
    };
    match node_text(alloc, cid, &buffer[..filled]) {
        Ok(lines) => put_text(out, lines.as_slice()),
        Err(TextFault::Block(fault)) => Err(CommandFault::BadBlock { cid: text, fault }),
        Err(TextFault::OutOfMemory) => Err(CommandFault::OutOfMemory),
    }
}

//! `cid`.
ghost use Rattle.std.specs.Prelude.{[], ◌∷◌, ◌++◌};
ghost use Rattle.tg_streams.specs.Streams.{into};
ghost use Rattle.tg_bytes.specs.Ascii.{line_feed};
ghost use Rattle.tg_commands.specs.Lines.{PutEnds, end_of};
ghost use Rattle.tg_commands.specs.CidLines.{HexLine, PrintEnds, TextLine};

use crate::fault::CommandFault;
use std::alloc::Global;
use tg_cid::Cid;
use tg_streams::{Sink, put_pieces};

/// `cid CID`: the CID's bytes in lower-case hexadecimal and a line feed.
pub fn cid_to_hex<O: Sink>(alloc: Global, cid: &Cid, out: &mut O) -> Result<(), CommandFault>
    ensures { PrintEnds (HexLine cid.now) (into O.sink out.old out.new) (end_of result) }
{
    let bytes = cid.to_bytes(alloc)?;
    let digits = hex::encode(alloc, bytes.as_slice())?;
    put_line(out, digits.as_bytes())
}

/// `cid --hex HEX`: the CID's text and a line feed.
pub fn cid_to_text<O: Sink>(alloc: Global, cid: &Cid, out: &mut O) -> Result<(), CommandFault>
    ensures { PrintEnds (TextLine cid.now) (into O.sink out.old out.new) (end_of result) }
{
    let text = cid.to_text(alloc)?;
    put_line(out, text.as_slice())
}

/// Puts the text and a line feed.
fn put_line<O: Sink>(out: &mut O, text: &[u8]) -> Result<(), CommandFault>
    ensures { PutEnds (text.now ++ line_feed ∷ []) (into O.sink out.old out.new) (end_of result) }
{
    match put_pieces(out, &[text, b"\n"]) {
        Ok(()) => Ok(()),
        Err(_) => Err(CommandFault::SinkFault),
    }
}

//! `help` and `version`.
ghost use Rattle.std.specs.Prelude.{◌≡◌};
ghost use Rattle.tg_commands.specs.CidLines.{PrintEnds};
ghost use Rattle.tg_commands.specs.Lines.{PutEnds, end_of};
ghost use Rattle.tg_streams.specs.Streams.{into};
ghost use Rattle.tg_words.specs.Help.{help_text, version_text};

use crate::fault::CommandFault;
use std::alloc::Global;
use tg_streams::{Sink, put_all};
use tg_words::{CommandName, VERSION, help_text};

/// `help`, and `help COMMAND`: what the program, or that command, does.
pub fn help<O: Sink>(
    alloc: Global,
    topic: Option<CommandName>,
    out: &mut O,
) -> Result<(), CommandFault>
    ensures { PrintEnds (λ text. text ≡ help_text topic) (into O.sink out.old out.new) (end_of result) }
{
    let text = help_text(alloc, topic)?;
    put_text(out, text.as_slice())
}

/// `version`: the program's version, and the kit by which it is proved.
pub fn version<O: Sink>(out: &mut O) -> Result<(), CommandFault>
    ensures { PrintEnds (λ text. text ≡ version_text) (into O.sink out.old out.new) (end_of result) }
{
    put_text(out, VERSION.as_bytes())
}

/// Puts a text.
fn put_text<O: Sink>(out: &mut O, text: &[u8]) -> Result<(), CommandFault>
    ensures { PutEnds text.now (into O.sink out.old out.new) (end_of result) }
{
    match put_all(out, text) {
        Ok(()) => Ok(()),
        Err(_) => Err(CommandFault::SinkFault),
    }
}

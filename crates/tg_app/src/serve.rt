//! `serve`.
ghost use Rattle.std.specs.Prelude.{◌≡◌, ◌≤◌, IsSome, Some};
ghost use Rattle.tg_commands.specs.Lines.{end_of};
ghost use Rattle.tg_commands.specs.Files.{given_back};
ghost use Rattle.tg_app.specs.Objects.{entrance_between};
ghost use Rattle.tg_app.specs.Serves.{ServeAnswers, happened_end, serve_end};
ghost use Rattle.tg_files.specs.Packs.{pack_step};
ghost use Rattle.tg_streams.specs.Streams.{into};

use std::alloc::Global;
use tg_commands::CommandFault;
use tg_commands::export::refusal_of_pack;
use tg_doors::Door;
use tg_files::Pack;
use tg_model::{LimitKind, Limits};
use tg_serve::{Happened, ServeFault, serve_pack};
use tg_streams::Sink;
use tg_words::Serve;

/// `serve`: the pack at a path is served through the door, in 1 to 64 lanes side by side. The pack is there, and is given
/// back.
pub fn serve<P: Pack, L: Door, O: Sink>(
    alloc: Global,
    asked: &Serve,
    pack: &mut Option<P>,
    door: &mut L,
    out: &mut O,
) -> Result<(), CommandFault>
    requires pack { IsSome pack.old }
    requires lanes { (1 ≤ asked.now.lanes) × (asked.now.lanes ≤ 64) }
    ensures back { IsSome pack.new }
    ensures ends { ServeAnswers asked.now (given_back P.pack pack.old pack.new) (pack.new ≡ pack.old)
        (into O.sink out.old out.new) (entrance_between L.door L.Link.link door.old door.new) (end_of result) }
{
    let Some(attached) = pack.take() else {
        unreachable!()
    };
    let (back, end) = serve_from(alloc, asked, attached, door, out);
    match pack.replace(back) {
        None => end,
        Some(_other) => unreachable!(),
    }
}

/// `serve` of a pack that is handed in and given back.
fn serve_from<P: Pack, L: Door, O: Sink>(
    alloc: Global,
    asked: &Serve,
    pack: P,
    door: &mut L,
    out: &mut O,
) -> (P, Result<(), CommandFault>)
    requires { (1 ≤ asked.now.lanes) × (asked.now.lanes ≤ 64) }
    ensures { ServeAnswers asked.now (pack_step P.pack pack result.0) (Some result.0 ≡ Some pack)
        (into O.sink out.old out.new) (entrance_between L.door L.Link.link door.old door.new) (end_of result.1) }
{
    let mut pack = pack;
    let Ok(()) = pack.attach(asked.pack.as_str(), false) else {
        return (pack, Err(CommandFault::PackFault));
    };
    let (pack, served) = serve_pack(
        alloc,
        pack,
        door,
        asked.port,
        asked.count,
        asked.lanes,
        Limits::standard(),
        out,
    );
    (pack, answer(served))
}

/// How the command ends by how the pack was served.
fn answer(served: Result<Happened, ServeFault>) -> Result<(), CommandFault>
    ensures { end_of result ≡ serve_end served }
{
    match served {
        Ok(happened) => answer_for(happened),
        Err(ServeFault::Pack(fault)) => Err(refusal_of_pack(fault)),
        Err(ServeFault::DoorFault) => Err(CommandFault::DoorFault),
        Err(ServeFault::SinkFault) => Err(CommandFault::SinkFault),
        Err(ServeFault::OutOfMemory) => Err(CommandFault::OutOfMemory),
    }
}

/// How the command ends by what happened behind its line: the first of want of memory, a reply that the store broke
/// off, a fault of the door or of a link, and a link that gave more than may be received.
fn answer_for(happened: Happened) -> Result<(), CommandFault>
    ensures { end_of result ≡ happened_end happened }
{
    if happened.memory {
        Err(CommandFault::OutOfMemory)
    } else if happened.store {
        Err(CommandFault::StoreFault)
    } else if happened.fault {
        Err(CommandFault::DoorFault)
    } else if happened.limit {
        let number = Limits::standard().number(LimitKind::Received);
        Err(CommandFault::Limit {
            kind: LimitKind::Received,
            number,
        })
    } else {
        Ok(())
    }
}

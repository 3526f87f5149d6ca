//! `mirror`.
ghost use Rattle.std.specs.Prelude.{IfOk, IsSome};
ghost use Rattle.tg_app.specs.Mirrors.{IsMirrorRefusal, MirrorHandled, MirrorLines, MirrorLinesEnd};
ghost use Rattle.tg_app.specs.Objects.{dial_between};
ghost use Rattle.tg_commands.specs.Files.{given_back};
ghost use Rattle.tg_commands.specs.Lines.{end_of};
ghost use Rattle.tg_files.specs.Packs.{pack_step};
ghost use Rattle.tg_query.specs.Requests.{IsAddr};
ghost use Rattle.tg_streams.specs.Streams.{into};
ghost use Rattle.tg_words.specs.MirrorLines.{MayRootPack};

use crate::fetching::refusal_of_fetch;
use std::alloc::{AllocError, Global};
use tg_bytes::Bytes;
use tg_cid::Cid;
use tg_commands::CommandFault;
use tg_commands::import::push_number;
use tg_dials::Dial;
use tg_fetch::Watch;
use tg_files::Pack;
use tg_mirror::{MirrorFault, Mirrored, mirror};
use tg_model::Limits;
use tg_streams::{Sink, put_all};
use tg_words::Mirror;

/// `mirror`: all of a root's DAG goes from a gateway into the pack, which is made anew, and out tells the root and what the
/// pack holds. The pack is there, and is given back. `watch` is told how far it has come.
pub fn mirror_dag<D: Dial, P: Pack, O: Sink, W: Watch>(
    alloc: Global,
    asked: &Mirror,
    pack: &mut Option<P>,
    dial: &mut D,
    out: &mut O,
    watch: &mut W,
) -> Result<(), CommandFault>
    requires there { IsSome pack.old }
    requires addr { IsAddr asked.now.addr }
    requires root { MayRootPack asked.now.root }
    ensures back { IsSome pack.new }
    ensures ends { MirrorHandled asked.now (given_back P.pack pack.old pack.new) (dial_between D.dial dial.old dial.new)
        (into O.sink out.old out.new) (end_of result) }
{
    let Some(attached) = pack.take() else {
        unreachable!()
    };
    let (back, end) = mirror_into(alloc, asked, attached, dial, out, watch);
    match pack.replace(back) {
        None => end,
        Some(_other) => unreachable!(),
    }
}

/// `mirror` into a pack that is handed in and given back.
fn mirror_into<D: Dial, P: Pack, O: Sink, W: Watch>(
    alloc: Global,
    asked: &Mirror,
    pack: P,
    dial: &mut D,
    out: &mut O,
    watch: &mut W,
) -> (P, Result<(), CommandFault>)
    requires addr { IsAddr asked.now.addr }
    requires root { MayRootPack asked.now.root }
    ensures { MirrorHandled asked.now (pack_step P.pack pack result.0) (dial_between D.dial dial.old dial.new)
        (into O.sink out.old out.new) (end_of result.1) }
{
    let mut pack = pack;
    let Ok(()) = pack.attach(asked.pack.as_str(), true) else {
        return (pack, Err(CommandFault::PackFault));
    };
    let limits = Limits::standard();
    let (pack, end) = mirror(
        alloc,
        asked.root,
        limits,
        asked.addr.as_str(),
        dial,
        pack,
        watch,
    );
    match end {
        Ok(mirrored) => (pack, put_lines(alloc, &asked.root, &mirrored, out)),
        Err(fault) => (pack, Err(refusal_of_mirror(alloc, fault))),
    }
}

/// Puts the root's text and what was mirrored, each on a line.
fn put_lines<O: Sink>(
    alloc: Global,
    root: &Cid,
    mirrored: &Mirrored,
    out: &mut O,
) -> Result<(), CommandFault>
    ensures { MirrorLinesEnd root.now mirrored.now (into O.sink out.old out.new) (end_of result) }
{
    let text = lines(alloc, root, mirrored)?;
    match put_all(out, text.as_slice()) {
        Ok(()) => Ok(()),
        Err(_) => Err(CommandFault::SinkFault),
    }
}

/// The root's text and what was mirrored, each on a line. The error is want of memory.
fn lines(alloc: Global, root: &Cid, mirrored: &Mirrored) -> Result<Bytes, AllocError>
    ensures { IfOk result (λ text. MirrorLines root.now mirrored.now text) }
{
    let mut text = root.to_text(alloc)?;
    push_number(&mut text, b"\nblocks ", mirrored.blocks)?;
    push_number(&mut text, b" bytes ", mirrored.bytes)?;
    text.push_all(b"\n")?;
    Ok(text)
}

/// The refusal for a DAG that isn't mirrored.
fn refusal_of_mirror(alloc: Global, fault: MirrorFault) -> CommandFault
    ensures { IsMirrorRefusal fault result }
{
    match fault {
        MirrorFault::Client(fault) => refusal_of_fetch(alloc, fault),
        MirrorFault::Pack(_) => CommandFault::PackFault,
    }
}

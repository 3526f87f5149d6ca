//! A pack that is served through a door.
ghost use Rattle.std.specs.Prelude.{◌≡◌, ◌≢◌, ◌≤◌, [], IfErr, IfOk, OnErr, OnOk, length};
ghost use Rattle.tg_doors.specs.Doors.{at_door};
ghost use Rattle.tg_files.specs.Packs.{Did, pack_step};
ghost use Rattle.tg_model.specs.Stores.{looked_in};
ghost use Rattle.tg_serve.specs.Packed.{AskedBy, GivesBack, OutUntouched, PackServed, StoreServed, serving_line};
ghost use Rattle.tg_serve.specs.Serving.{LinksTell};
ghost use Rattle.tg_serve.specs.Turns.{AreNew};
ghost use Rattle.tg_store.specs.Packs.{stored_in};
ghost use Rattle.tg_streams.specs.Streams.{OutputQuiet, Put, PutFront, into};
ghost use Rattle.tg_walk.specs.Walks.{HaveLookedUp};

use crate::Happened;
use crate::lanes::{Turns, serve_lanes};
use itoa::Buffer;
use std::alloc::Global;
use tg_doors::Door;
use tg_faults::Failed;
use tg_files::Pack;
use tg_lanes::Lanes;
use tg_model::{Blocks, Limits};
use tg_store::{PackFault, PackRefused, PackStore};
use tg_streams::{Sink, put_pieces};
use thiserror::Error;

/// Why a pack isn't served. No inner fault is want of memory.
#[derive(Clone, Copy, Debug, PartialEq, Eq, Error)]
pub enum ServeFault {
    /// The pack can't be attached. Nothing was written, and the door wasn't bound.
    #[error("Pack")]
    Pack(PackFault),
    /// The door couldn't be bound. Nothing was written.
    #[error("DoorFault")]
    DoorFault,
    /// A fault of out was counted. A front of the line was written, and no link was served.
    #[error("SinkFault")]
    SinkFault,
    /// No memory was found for the pack's index. Nothing was written, and the door wasn't bound.
    #[error("OutOfMemory")]
    OutOfMemory,
}

impl From<PackFault> for ServeFault {
    ghost use Rattle.std.specs.Prelude.{◌≡◌};
    ghost use Rattle.tg_serve.specs.Packed.{fault_of_pack};

    ghost from_gives = { λ fault given. given ≡ fault_of_pack fault };

    fn from(fault: PackFault) -> ServeFault {
        match fault {
            PackFault::OutOfMemory => ServeFault::OutOfMemory,
            PackFault::NotCar { .. }
            | PackFault::BadDigest { .. }
            | PackFault::Unfinished
            | PackFault::Truncated { .. }
            | PackFault::Failed
            | PackFault::BlockLimit { .. } => ServeFault::Pack(fault),
        }
    }
}

/// How many blocks are kept at most, of those that were looked up last: copies of at most 2 MiB each.
const KEPT: u32 = 256;

/// Serves a pack through a door, which is bound to a port, and gives the pack back, to which nothing was done. The pack is
/// read through and checked first; behind `bind` a line that says the port goes to out, before the first link is
/// admitted; and then so many links are served, in so many lanes side by side, 1 to 64, or fewer links where the door gives
/// no more or fails. Of the blocks that were looked up last copies are kept, 256 at most.
///
/// RFC 9112, section 9.3. Errors: `Pack` where the pack can't be attached as a store; `DoorFault` where the door can't be
/// bound; `SinkFault` where the line can't be written; and `OutOfMemory`. What happened behind the line is told, and no
/// error.
pub fn serve_pack<P: Pack, L: Door, S: Sink>(
    alloc: Global,
    pack: P,
    door: &mut L,
    port: u16,
    count: u32,
    lanes: u32,
    limits: Limits,
    out: &mut S,
) -> (P, Result<Happened, ServeFault>)
    requires { (1 ≤ lanes) × (lanes ≤ 64) }
    ensures pack { Did [] (pack_step P.pack pack result.0) }
    ensures served { PackServed limits.received port count lanes (LinksTell L.Link.link) (pack_step P.pack pack result.0)
        (into S.sink out.old out.new) (at_door L.door door.old door.new) (door.new ≡ door.old) result.1 }
    ensures asked { AskedBy (L.door.asked door.old door.new port) result.1 }
{
    tg_store::laws::finished_packs::<P>();
    let attached = PackStore::attach_pack(alloc, pack);
    serve_attached(alloc, attached, door, port, count, lanes, limits, out)
}

/// Serves the store of a pack through a door, which is bound to a port, or refuses it as `attach_pack` did, and gives the
/// pack back. Errors: those of `serve_pack`.
fn serve_attached<P: Pack, L: Door, S: Sink>(
    alloc: Global,
    attached: Result<PackStore<P>, PackRefused<P>>,
    door: &mut L,
    port: u16,
    count: u32,
    lanes: u32,
    limits: Limits,
    out: &mut S,
) -> (P, Result<Happened, ServeFault>)
    requires { (1 ≤ lanes) × (lanes ≤ 64) }
    ensures pack { IfOk attached (λ store. Did [] (pack_step P.pack store.pack result.0)) }
    ensures served { IfOk attached (λ store. StoreServed (stored_in (P.pack.content store.pack) store.places)
        limits.received port count lanes (LinksTell L.Link.link) (P.pack.faults store.pack) (P.pack.faults result.0)
        (into S.sink out.old out.new) (at_door L.door door.old door.new) (door.new ≡ door.old) result.1) }
    ensures asked { IfOk attached (λ _. AskedBy (L.door.asked door.old door.new port) result.1) }
    ensures refused { IfErr attached (λ refused. GivesBack result.0 result.1 refused) }
    ensures untouched { IfErr attached (λ _. OutUntouched (into S.sink out.old out.new) × (door.new ≡ door.old)) }
{
    match attached {
        Ok(store) => {
            let (store, end) = serve_store(alloc, store, door, port, count, lanes, limits, out);
            (store.into_pack(), end)
        }
        Err(refused) => (refused.pack, Err(ServeFault::from(refused.fault))),
    }
}

/// Serves a store through a door, which is bound to a port, and gives it back. Errors: `DoorFault`, `SinkFault` and
/// `OutOfMemory`.
fn serve_store<B: Blocks, L: Door, S: Sink>(
    alloc: Global,
    blocks: B,
    door: &mut L,
    port: u16,
    count: u32,
    lanes: u32,
    limits: Limits,
    out: &mut S,
) -> (B, Result<Happened, ServeFault>)
    requires { (1 ≤ lanes) × (lanes ≤ 64) }
    ensures served { StoreServed (B.blocks.stored blocks) limits.received port count lanes (LinksTell L.Link.link)
        (B.blocks.faults blocks) (B.blocks.faults result.0) (into S.sink out.old out.new)
        (at_door L.door door.old door.new) (door.new ≡ door.old) result.1 }
    ensures asked { AskedBy (L.door.asked door.old door.new port) result.1 }
    ensures looked { HaveLookedUp (looked_in B.blocks blocks result.0) }
{
    let Ok(turns) = Turns::new(alloc, lanes, count) else {
        return (blocks, Err(ServeFault::OutOfMemory));
    };
    match Lanes::new(alloc, blocks, lanes, KEPT, limits) {
        Ok(lanes) => {
            let mut lanes = lanes;
            let end = serve_bound(&mut lanes, turns, door, port, out);
            (lanes.into_blocks(), end)
        }
        Err(refused) => (refused.blocks, Err(ServeFault::OutOfMemory)),
    }
}

/// Serves links in lanes through a door, which is bound to a port. Errors: `DoorFault` and `SinkFault`.
fn serve_bound<B: Blocks, L: Door, S: Sink>(
    lanes: &mut Lanes<B>,
    turns: Turns<L::Link>,
    door: &mut L,
    port: u16,
    out: &mut S,
) -> Result<Happened, ServeFault>
    requires { AreNew lanes.old.sessions lanes.old.most turns.links.items turns.busy (length turns.ready.items)
        (length turns.room.items) turns.happened }
    ensures served { StoreServed (B.blocks.stored lanes.old.blocks) lanes.old.most port turns.left (length lanes.old.sessions)
        (LinksTell L.Link.link) (B.blocks.faults lanes.old.blocks) (B.blocks.faults lanes.new.blocks)
        (into S.sink out.old out.new) (at_door L.door door.old door.new) (door.new ≡ door.old) result }
    ensures memory { result ≢ Err ServeFault.OutOfMemory }
    ensures asked { L.door.asked door.old door.new port }
    ensures looked { HaveLookedUp (looked_in B.blocks lanes.old.blocks lanes.new.blocks) }
{
    let Ok(port) = door.bind(port) else {
        return Err(ServeFault::DoorFault);
    };
    if put_line(out, port).is_err() {
        return Err(ServeFault::SinkFault);
    }
    Ok(serve_lanes(lanes, turns, door))
}

/// Puts the line that says to which port the door is bound. The error is a fault of out, which has a front of it.
fn put_line<S: Sink>(out: &mut S, port: u16) -> Result<(), Failed>
    ensures put { OnOk result (Put (serving_line port) (into S.sink out.old out.new)) }
    ensures quiet { OnOk result (OutputQuiet (into S.sink out.old out.new)) }
    ensures err_front { OnErr result (PutFront (serving_line port) (into S.sink out.old out.new)) }
{
    let mut digits = Buffer::new();
    let number = digits.format(port).as_bytes();
    put_pieces(out, &[b"serving 127.0.0.1:", number, b"\n"])
}

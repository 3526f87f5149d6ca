//! Links that come through a door, served side by side in lanes over one store, or one after another.
#![tactic(auto)]

ghost use Rattle.std.specs.Prelude.{◌≡◌, [], false, ℕ};
ghost use Rattle.tg_doors.specs.Doors.{at_door};
ghost use Rattle.tg_model.specs.Stores.{looked_in};
ghost use Rattle.tg_serve.specs.Serving.{HasHappened, LinksTell, ServesDoor, ServesNext, happened_with};
ghost use Rattle.tg_walk.specs.Walks.{HaveLookedUp};

mod lanes;
mod packed;

pub use lanes::{Turns, serve_lanes};
pub use packed::{ServeFault, serve_pack};
use std::alloc::Global;
use tg_doors::Door;
use tg_faults::Failed;
use tg_gateway::{GatewayFault, Served, serve_link};
use tg_model::{Blocks, Limits};

/// What happened while links were served.
#[derive(Clone, Copy, Debug, PartialEq, Eq)]
pub struct Happened {
    /// No memory was found in a session.
    pub memory: bool,
    /// The store failed, or a stored block had changed, so that a reply broke off.
    pub store: bool,
    /// A call of a link failed, or the door could not be asked for a link.
    pub fault: bool,
    /// On a link more bytes came than may be received.
    pub limit: bool,
}

/// Serves so many links, one after another, or fewer where the door gives no more or fails: each by a session of its own,
/// behind which it is given back. A link's fault, or what its session refuses, ends that link alone.
///
/// RFC 9112, section 9.3.
pub fn serve_door<B: Blocks, L: Door>(
    alloc: Global,
    blocks: &mut B,
    door: &mut L,
    count: u32,
    limits: Limits,
) -> Happened
    ensures serves { ServesDoor (B.blocks.stored blocks.old) limits.received count (LinksTell L.Link.link)
        (B.blocks.faults blocks.old) (B.blocks.faults blocks.new) (at_door L.door door.old door.new) result }
    ensures asks { (before : L) (asked : ℕ) → L.door.asked before door.old asked → L.door.asked before door.new asked }
    ensures looked { HaveLookedUp (looked_in B.blocks blocks.old blocks.new) }
{
    let mut happened = Happened::nothing();
    let mut left = count;
    while left > 0 {
        match serve_next(alloc, blocks, door, limits) {
            Ok(Some((served, end))) => happened = happened.with(served, end),
            Ok(None) => return happened,
            Err(_) => {
                return Happened {
                    fault: true,
                    ..happened
                };
            }
        }
        left -= 1;
    }
    happened
}

/// Serves the next link, and gives it back: the numbers of the replies and how its session ended, or none where the door
/// gives no more. The error is a fault of the door, which gave no link.
fn serve_next<B: Blocks, L: Door>(
    alloc: Global,
    blocks: &mut B,
    door: &mut L,
    limits: Limits,
) -> Result<Option<(Served, Result<(), GatewayFault>)>, Failed>
    ensures serves { ServesNext (B.blocks.stored blocks.old) limits.received (LinksTell L.Link.link)
        (looked_in B.blocks blocks.old blocks.new) (at_door L.door door.old door.new) result }
    ensures asks { (before : L) (asked : ℕ) → L.door.asked before door.old asked → L.door.asked before door.new asked }
    ensures looked { HaveLookedUp (looked_in B.blocks blocks.old blocks.new) }
{
    let Some(link) = door.admit()? else {
        return Ok(None);
    };
    let mut link = link;
    let ran = serve_link(alloc, blocks, &mut link, limits);
    door.done(link);
    Ok(Some(ran))
}

impl Happened {
    /// Nothing happened yet.
    fn nothing() -> Happened
        ensures { HasHappened [] false result }
    {
        Happened {
            memory: false,
            store: false,
            fault: false,
            limit: false,
        }
    }

    /// What happened with a link more, of these numbers, whose session ended so.
    fn with(self, served: Served, end: Result<(), GatewayFault>) -> Happened
        ensures { result ≡ happened_with self served end }
    {
        Happened {
            memory: self.memory || matches!(end, Err(GatewayFault::OutOfMemory)),
            store: self.store || served.store > 0,
            fault: self.fault || matches!(end, Err(GatewayFault::LinkFault)),
            limit: self.limit || matches!(end, Err(GatewayFault::Limit { .. })),
        }
    }
}

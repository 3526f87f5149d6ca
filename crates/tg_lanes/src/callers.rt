//! What a caller of lanes knows who knows their contract alone.
ghost use Rattle.std.specs.Prelude.{◌≡◌, replicate};
ghost use Rattle.tg_gateway.specs.Sessions.{new_session};
ghost use Rattle.tg_lanes.specs.Callers.{AreFedAlone};
ghost use Rattle.tg_streams.specs.Streams.{into};

use crate::lanes::{LaneEvent, Lanes};
use tg_gateway::{GatewayFault, Next};
use tg_model::Blocks;
use tg_streams::Sink;

/// Feeds two lanes that are new a piece each, one behind the other: what each writes is what is sent for its own piece,
/// whatever happened to the store in the other's event.
///
/// RFC 9112, section 9.3. Errors: those of `Lanes::event`, of each.
fn two_events<B: Blocks, S: Sink, T: Sink>(
    lanes: &mut Lanes<B>,
    first: &[u8],
    second: &[u8],
    out: &mut S,
    other: &mut T,
) -> (Result<Next, GatewayFault>, Result<Next, GatewayFault>)
    requires { lanes.old.sessions ≡ replicate 2 (new_session lanes.old.most) }
    ensures { AreFedAlone (B.blocks.stored lanes.old.blocks) lanes.old.most (B.blocks.faults lanes.old.blocks)
        (B.blocks.faults lanes.new.blocks) lanes.new.sessions first.now second.now (into S.sink out.old out.new)
        (into T.sink other.old other.new) }
{
    crate::laws::lanes_begin();
    crate::laws::lanes_are_apart();
    let one = lanes.event(0, LaneEvent::Piece(first), out);
    let two = lanes.event(1, LaneEvent::Piece(second), other);
    (one, two)
}

//! A lane over a link.
ghost use Rattle.std.specs.Prelude.{◌≡◌, ◌<◌, ◌≤◌, length};
ghost use Rattle.tg_lanes.specs.Hearing.{HeardOn};
ghost use Rattle.tg_links.specs.Steps.{link_step};
ghost use Rattle.tg_model.specs.Stores.{looked_in};
ghost use Rattle.tg_walk.specs.Walks.{HaveLookedUp};

use crate::lanes::{LaneEvent, Lanes};
use tg_gateway::{GatewayFault, Next};
use tg_links::Link;
use tg_model::Blocks;

/// Takes a piece from a link into the room, which has place for a byte at least, and hands it to its lane, or that the
/// peer says no more. What is written goes to the link.
///
/// RFC 9112, section 9.3. Errors: those of `Lanes::event`, and `LinkFault` where no piece could be taken, with which
/// the lane is as it was.
pub fn hear<B: Blocks, K: Link>(
    lanes: &mut Lanes<B>,
    lane: u32,
    link: &mut K,
    room: &mut [u8],
) -> Result<Next, GatewayFault>
    requires lane { lane < length lanes.old.sessions }
    requires room { 0 < length room.old }
    ensures heard { HeardOn (B.blocks.stored lanes.old.blocks) lanes.old lanes.new lane
        (B.blocks.faults lanes.old.blocks) (B.blocks.faults lanes.new.blocks)
        (link_step K.link K.Source.source link.old link.new) result }
    ensures lanes { length lanes.new.sessions ≡ length lanes.old.sessions }
    ensures kept { lanes.new.room ≡ lanes.old.room }
    ensures room { length room.new ≡ length room.old }
    ensures looked { HaveLookedUp (looked_in B.blocks lanes.old.blocks lanes.new.blocks) }
    ensures counted { B.blocks.faults lanes.old.blocks ≤ B.blocks.faults lanes.new.blocks }
{
    let size = link.take(room)?;
    if size == 0 {
        return lanes.event(lane, LaneEvent::Ended, link);
    }
    lanes.event(lane, LaneEvent::Piece(&room[..size]), link)
}

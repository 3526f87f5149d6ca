//! Links that are served in lanes through a door that marks them by a script.
ghost use Rattle.std.specs.Prelude.{◌≡◌, ◌≤◌};

use crate::feeding::sink_of;
use crate::fields::parted;
use crate::lanes::breaks_of;
use crate::marking::MarkingDoor;
use crate::packs::pack_of;
use crate::stores::TestStore;
use std::alloc::Global;
use std::mem::replace;
use tg_bytes::{Bytes, number_of};
use tg_lanes::Lanes;
use tg_model::{LimitKind, Limits};
use tg_rows::Answer;
use tg_serve::{Happened, Turns, serve_lanes, serve_pack};
use tg_test_packs::ChangingPack;

/// `serves NAME LANES COUNT RECEIVED PACK FROM PLACE PIECE TEXT FAIL .. waits TIMES MARKS ADMITS ..`: so many links, each of
/// which may receive so many bytes, are served in so many lanes over a pack, of which a byte changes from a read on or
/// `none`, through a door to these peers with this script. Says what happened; what was heard and said over each link, as
/// they were given back; and how often the door was waited for and the pack read.
pub fn answer(alloc: Global, given: &[Bytes], answer: &mut Answer) {
    let [lanes, count, received, pack, from, place, given @ ..] = given else {
        return answer.text(
            "numbers of lanes, links and bytes, a pack, where it changes, links and waits",
        );
    };
    let (links, waits) = parted(given, b"waits");
    let door = MarkingDoor::of(alloc, links, waits);
    let pack = pack_of(alloc, pack, from, place);
    let numbers = (
        number_of(lanes.as_slice()),
        number_of(count.as_slice()),
        number_of(received.as_slice()),
    );
    match (numbers, pack) {
        ((Some(lanes), Some(count), Some(received)), Some(pack))
            if 0 < lanes
                && lanes <= 64
                && count <= 1_000_000
                && received <= 1_000_000
                && !door.is_bad() => {
            let limits = Limits::standard().with(LimitKind::Received, received);
            answer_served(
                alloc,
                (lanes as u32, count as u32),
                limits,
                pack,
                door,
                answer,
            );
        }
        _ => answer.text("no such lanes, pack or door"),
    }
}

/// Serves so many links, behind the number of lanes, and says what came of it.
fn answer_served(
    alloc: Global,
    counts: (u32, u32),
    limits: Limits,
    pack: ChangingPack,
    door: MarkingDoor,
    answer: &mut Answer,
)
    requires { (1 ≤ counts.0) × (counts.0 ≤ 64) }
{
    let (lanes, count) = counts;
    let mut door = door;
    let mut out = sink_of(alloc, 100);
    let (pack, end) = serve_pack(alloc, pack, &mut door, 8080, count, lanes, limits, &mut out);
    match end {
        Ok(happened) => say_happened(happened, answer),
        Err(fault) => answer.shown_as(&fault),
    }
    say_door(&door, answer);
    answer.number(pack.reads());
}

/// Says each kind of fault that happened.
fn say_happened(happened: Happened, answer: &mut Answer) {
    let kinds: [(bool, &str); 4] = [
        (happened.memory, "memory"),
        (happened.store, "store"),
        (happened.fault, "fault"),
        (happened.limit, "limit"),
    ];
    for (is_so, kind) in &kinds {
        if *is_so {
            answer.text(kind);
        }
    }
}

/// Says what was heard and said over each link, and how often the door was waited for.
fn say_door(door: &MarkingDoor, answer: &mut Answer) {
    if door.is_bad() {
        answer.lack();
    }
    door.tell(answer);
}

/// `turns NAME LANES COUNT KEPT LOOKUP PIECE TEXT FAIL .. waits TIMES MARKS ADMITS ..`: so many links are served in so many lanes
/// over a store, with copies of at most so many blocks, of which the look-up with this number fails or `none`, through a door to
/// these peers with this script. Says the same, and at last how many look-ups the store made.
pub fn answer_turns(alloc: Global, store: &mut TestStore, given: &[Bytes], answer: &mut Answer) {
    let [lanes, count, room, fails, given @ ..] = given else {
        return answer.text(
            "numbers of lanes, links and blocks, a look-up that fails, links and waits",
        );
    };
    let (links, waits) = parted(given, b"waits");
    let door = MarkingDoor::of(alloc, links, waits);
    let numbers = (
        number_of(lanes.as_slice()),
        number_of(count.as_slice()),
        number_of(room.as_slice()),
    );
    match numbers {
        (Some(lanes), Some(count), Some(room))
            if 0 < lanes
                && lanes <= 64
                && count <= 1_000_000
                && 0 < room
                && room <= 4096
                && !door.is_bad() => {
            store.begin(breaks_of(fails));
            let counts = (lanes as u32, count as u32, room as u32);
            answer_taken(alloc, store, counts, door, answer);
            answer.number(store.made());
        }
        _ => answer.text("no such lanes or door"),
    }
}

/// Serves so many links, behind the number of lanes and before that of the blocks that are kept, over a store, which comes back.
fn answer_taken(
    alloc: Global,
    store: &mut TestStore,
    counts: (u32, u32, u32),
    door: MarkingDoor,
    answer: &mut Answer,
)
    requires lanes { (1 ≤ counts.0) × (counts.0 ≤ 64) }
    requires kept { (1 ≤ counts.2) × (counts.2 ≤ 4096) }
{
    let (lanes, count, room) = counts;
    let Ok(turns) = Turns::new(alloc, lanes, count) else {
        return answer.lack();
    };
    let held = replace(store, TestStore::empty(alloc));
    let mut door = door;
    match Lanes::new(alloc, held, lanes, room, Limits::standard()) {
        Ok(lanes) => {
            let mut lanes = lanes;
            say_happened(serve_lanes(&mut lanes, turns, &mut door), answer);
            *store = lanes.into_blocks();
        }
        Err(refused) => {
            *store = refused.blocks;
            answer.lack();
        }
    }
    say_door(&door, answer);
}

//! Lanes that are fed in turns: each puts what is said to its own bytes, whatever the others are fed between.
ghost use Rattle.std.specs.Prelude.{◌≡◌, ◌≤◌, length};

use crate::feeding::sink_of;
use crate::stores::{Breaks, TestStore};
use std::alloc::{AllocError, Global};
use std::mem::replace;
use tg_bytes::{Bytes, List, number_of};
use tg_lanes::{LaneEvent, Lanes};
use tg_model::Limits;
use tg_rows::Answer;
use tg_streams::MemSink;

/// What three lanes are fed, and what each is to put.
#[derive(Clone, Copy)]
struct Streams<'a> {
    asked: [&'a [u8]; 3],
    said: [&'a [u8]; 3],
}

/// A lane is fed its bytes from one place to another.
#[derive(Clone, Copy)]
struct Part {
    lane: usize,
    from: usize,
    to: usize,
}

/// The orders in which three lanes are fed.
const ORDERS: [[usize; 3]; 6] = [
    [0, 1, 2],
    [0, 2, 1],
    [1, 0, 2],
    [1, 2, 0],
    [2, 0, 1],
    [2, 1, 0],
];

/// `parted NAME KEPT ASKED SAID OTHER SAID`: one lane is fed its bytes in two parts, for each place where they can be cut,
/// and another one its own between, with copies of at most so many blocks. Says in how many of the ways each put just
/// what is said to its bytes.
pub fn answer_parted(alloc: Global, store: &mut TestStore, given: &[Bytes], answer: &mut Answer) {
    let [room, asked, said, other, other_said] = given else {
        return answer.text("a number of blocks, and the bytes of two lanes");
    };
    let streams = Streams {
        asked: [asked.as_slice(), other.as_slice(), b""],
        said: [said.as_slice(), other_said.as_slice(), b""],
    };
    let length = asked.as_slice().len();
    let mut same: u64 = 0;
    for place in 1..length {
        let parts = [
            Part {
                lane: 0,
                from: 0,
                to: place,
            },
            Part {
                lane: 1,
                from: 0,
                to: other.as_slice().len(),
            },
            Part {
                lane: 0,
                from: place,
                to: length,
            },
        ];
        if are_said(alloc, store, room, &streams, &parts) {
            same = same.saturating_add(1);
        }
    }
    answer.number(same);
}

/// `rounds NAME KEPT ASKED SAID ASKED SAID ASKED SAID`: three lanes are fed byte by byte in turns, in each of the six
/// orders, with copies of at most so many blocks. Says in how many of the orders each put just what is said to its bytes.
pub fn answer_rounds(alloc: Global, store: &mut TestStore, given: &[Bytes], answer: &mut Answer) {
    let [room, one, one_said, two, two_said, three, three_said] = given else {
        return answer.text("a number of blocks, and the bytes of three lanes");
    };
    let streams = Streams {
        asked: [one.as_slice(), two.as_slice(), three.as_slice()],
        said: [
            one_said.as_slice(),
            two_said.as_slice(),
            three_said.as_slice(),
        ],
    };
    let mut same: u64 = 0;
    for order in &ORDERS {
        match bytes_in_turns(alloc, &streams, order) {
            Ok(parts) => {
                if are_said(alloc, store, room, &streams, parts.as_slice()) {
                    same = same.saturating_add(1);
                }
            }
            Err(_) => return answer.lack(),
        }
    }
    answer.number(same);
}

/// The first byte of each lane in this order, then the second one of each, and so on.
fn bytes_in_turns(
    alloc: Global,
    streams: &Streams<'_>,
    order: &[usize; 3],
) -> Result<List<Part>, AllocError> {
    let mut parts = List::new(alloc);
    let longest = streams
        .asked
        .iter()
        .map(|asked| asked.len())
        .max()
        .unwrap_or(0);
    for from in 0..longest {
        for lane in order {
            parts.push(Part {
                lane: *lane,
                from,
                to: from.saturating_add(1),
            })?;
        }
    }
    Ok(parts)
}

/// Whether each of three lanes that are fed these parts puts just what it is to put, with copies of at most so many blocks
/// of a store, which comes back.
fn are_said(
    alloc: Global,
    store: &mut TestStore,
    room: &Bytes,
    streams: &Streams<'_>,
    parts: &[Part],
) -> bool {
    match number_of(room.as_slice()) {
        Some(room) if 0 < room && room <= 4096 => {
            are_put(alloc, store, room as u32, streams, parts)
        }
        _ => false,
    }
}

/// The same, with copies of at least one block and at most 4,096.
fn are_put(
    alloc: Global,
    store: &mut TestStore,
    room: u32,
    streams: &Streams<'_>,
    parts: &[Part],
) -> bool
    requires { (1 ≤ room) × (room ≤ 4096) }
{
    store.begin(Breaks::Never);
    let held = replace(store, TestStore::empty(alloc));
    match Lanes::new(alloc, held, 3, room, Limits::standard()) {
        Ok(lanes) => {
            let mut lanes = lanes;
            let mut outs = [sink_of(alloc, 7), sink_of(alloc, 7), sink_of(alloc, 7)];
            feed_parts(&mut lanes, &mut outs, streams, parts);
            *store = lanes.into_blocks();
            outs.iter()
                .zip(&streams.said)
                .all(|(out, said)| out.held() == *said)
        }
        Err(refused) => {
            *store = refused.blocks;
            false
        }
    }
}

fn feed_parts(
    lanes: &mut Lanes<TestStore>,
    outs: &mut [MemSink; 3],
    streams: &Streams<'_>,
    parts: &[Part],
)
    requires { length lanes.old.sessions ≡ 3 }
{
    for part in parts {
        feed_part(lanes, outs, streams, part);
    }
}

/// Feeds a lane a part of its bytes, unless they end before.
fn feed_part(
    lanes: &mut Lanes<TestStore>,
    outs: &mut [MemSink; 3],
    streams: &Streams<'_>,
    part: &Part,
)
    requires { length lanes.old.sessions ≡ 3 }
    ensures { length lanes.new.sessions ≡ 3 }
{
    let bytes = streams
        .asked
        .get(part.lane)
        .and_then(|asked| asked.get(part.from..part.to));
    if let (Some(bytes), Some(out)) = (bytes, outs.get_mut(part.lane)) {
        if part.lane < 3 {
            let _ = lanes.event(part.lane as u32, LaneEvent::Piece(bytes), out);
        }
    }
}

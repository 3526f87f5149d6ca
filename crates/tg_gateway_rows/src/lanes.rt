//! Lanes over one store, step by step.
ghost use Rattle.std.specs.Prelude.{◌≡◌, ◌<◌, ◌≤◌, length};

use crate::feeding::{say_last, sink_of};
use crate::fields::number_up_to;
use crate::stores::{Breaks, TestStore};
use std::alloc::Global;
use std::mem::replace;
use std::str::from_utf8;
use tg_bytes::{Bytes, List, number_of};
use tg_lanes::{LaneEvent, Lanes};
use tg_model::{LimitKind, Limits};
use tg_rows::Answer;
use tg_streams::MemSink;

/// Given how many lanes there are, how many blocks are kept, how many bytes a lane may receive, the number of the
/// look-up that fails or `none`, and steps, each a word, a lane and bytes: says what each answers, and at last how many
/// look-ups the store made.
pub fn answer(alloc: Global, store: &mut TestStore, given: &[Bytes], answer: &mut Answer) {
    let [count, room, received, fails, steps @ ..] = given else {
        return answer.text("numbers of lanes, blocks and bytes, and a look-up that fails");
    };
    let numbers = (
        number_of(count.as_slice()),
        number_of(room.as_slice()),
        number_of(received.as_slice()),
    );
    match numbers {
        (Some(count), Some(room), Some(received))
            if 0 < count
                && count <= 64
                && 0 < room
                && room <= 4096
                && received <= 1_099_511_627_776 => {
            store.begin(breaks_of(fails));
            let limits = Limits::standard().with(LimitKind::Received, received);
            answer_lanes(
                alloc,
                store,
                (count as u32, room as u32),
                limits,
                steps,
                answer,
            );
            answer.number(store.made());
        }
        _ => answer.text("no such lanes"),
    }
}

/// The look-up with the number that the field spells fails, or none where it spells none.
pub fn breaks_of(fails: &Bytes) -> Breaks {
    match number_up_to(fails, 1_000_000) {
        Some(number) => Breaks::Fails(number),
        None => Breaks::Never,
    }
}

/// Makes so many lanes, with copies of at most so many blocks, over a store, which comes back at the end, and says what
/// each step answers.
fn answer_lanes(
    alloc: Global,
    store: &mut TestStore,
    counts: (u32, u32),
    limits: Limits,
    steps: &[Bytes],
    answer: &mut Answer,
)
    requires lanes { (1 ≤ counts.0) × (counts.0 ≤ 64) }
    requires kept { (1 ≤ counts.1) × (counts.1 ≤ 4096) }
{
    let held = replace(store, TestStore::empty(alloc));
    match Lanes::new(alloc, held, counts.0, counts.1, limits) {
        Ok(lanes) => {
            let mut lanes = lanes;
            answer_steps(alloc, &mut lanes, counts.0, steps, answer);
            *store = lanes.into_blocks();
        }
        Err(refused) => {
            *store = refused.blocks;
            answer.text("refused");
        }
    }
}

fn answer_steps(
    alloc: Global,
    lanes: &mut Lanes<TestStore>,
    count: u32,
    steps: &[Bytes],
    answer: &mut Answer,
)
    requires { length lanes.old.sessions ≡ count }
{
    for step in steps.chunks(3) {
        answer_step(alloc, lanes, count, step, answer);
    }
}

/// Says what a step answers whose lane there is.
fn answer_step(
    alloc: Global,
    lanes: &mut Lanes<TestStore>,
    count: u32,
    step: &[Bytes],
    answer: &mut Answer,
)
    requires { length lanes.old.sessions ≡ count }
    ensures { length lanes.new.sessions ≡ count }
{
    let [word, lane, bytes] = step else {
        return answer.text("no word, lane and bytes");
    };
    match (from_utf8(word.as_slice()), number_up_to(lane, 63)) {
        (Ok(word), Some(lane)) if lane < u64::from(count) => {
            answer_word(alloc, lanes, word, lane as u32, bytes.as_slice(), answer);
        }
        _ => answer.text("no such lane"),
    }
}

/// `feed`: the session's answer, and what was put; `lost`: the same where the first put fails; `end`: the same where
/// the peer says no more; `renew`: nothing; `served`: the numbers of the replies.
fn answer_word(
    alloc: Global,
    lanes: &mut Lanes<TestStore>,
    word: &str,
    lane: u32,
    bytes: &[u8],
    answer: &mut Answer,
)
    requires { lane < length lanes.old.sessions }
    ensures { length lanes.new.sessions ≡ length lanes.old.sessions }
{
    match word {
        "feed" => answer_event(
            lanes,
            lane,
            LaneEvent::Piece(bytes),
            sink_of(alloc, 7),
            answer,
        ),
        "lost" => match lost_sink(alloc) {
            Some(out) => answer_event(lanes, lane, LaneEvent::Piece(bytes), out, answer),
            None => answer.lack(),
        },
        "end" => answer_event(lanes, lane, LaneEvent::Ended, sink_of(alloc, 7), answer),
        "renew" => {
            if lanes.renew(lane).is_err() {
                answer.lack();
            }
        }
        "served" => {
            let served = lanes.served(lane);
            answer.number(served.requests);
            answer.number(served.broken);
            answer.number(served.store);
        }
        _ => answer.text("an unknown word"),
    }
}

fn answer_event(
    lanes: &mut Lanes<TestStore>,
    lane: u32,
    event: LaneEvent<'_>,
    out: MemSink,
    answer: &mut Answer,
)
    requires { lane < length lanes.old.sessions }
    ensures { length lanes.new.sessions ≡ length lanes.old.sessions }
{
    let mut out = out;
    say_last(lanes.event(lane, event, &mut out), answer);
    answer.bytes(out.held());
}

/// A sink of which the first put fails, or none where memory is wanted.
fn lost_sink(alloc: Global) -> Option<MemSink> {
    let mut fails = List::new(alloc);
    match fails.push(0) {
        Ok(()) => Some(MemSink::new(alloc, 7, fails)),
        Err(_) => None,
    }
}

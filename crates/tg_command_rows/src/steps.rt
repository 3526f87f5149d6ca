//! Commands that are run, and further ones over what they left.
use crate::runs::{Ran, run_setup};
use crate::said::{say_ran, say_streams};
use crate::setup::Setup;
use std::alloc::Global;
use tg_bytes::Bytes;
use tg_rows::Answer;

/// Says what a command left, which is the same by pieces of each length that the fields give; and behind each `:then` what
/// a further command leaves, whose pack is the one that was left, and whose input is what was put on out.
pub fn answer(alloc: Global, fields: &[Bytes], answer: &mut Answer) {
    let setup = Setup::of(alloc, fields);
    let mut pieces = setup.pieces().iter();
    let Some(piece) = pieces.next() else {
        return answer.lack();
    };
    say_steps(alloc, fields, *piece, answer);
    for piece in pieces {
        let mut other = Answer::new(alloc);
        say_steps(alloc, fields, *piece, &mut other);
        if other.shown().as_slice() != answer.shown().as_slice() {
            answer.text("otherwise in pieces of");
            answer.number(*piece as u64);
        }
    }
}

/// The fields before `:then`, and those behind it, of which there are none where it doesn't stand.
fn split_at_then(fields: &[Bytes]) -> (&[Bytes], &[Bytes]) {
    let at = fields
        .iter()
        .position(|field| field.as_slice() == b":then".as_slice());
    match at {
        Some(at) => {
            let (first, behind) = fields.split_at(at.min(fields.len()));
            (first, behind.get(1..).unwrap_or(&[]))
        }
        None => (fields, &[]),
    }
}

/// Says what each command left, by pieces of this length.
fn say_steps(alloc: Global, fields: &[Bytes], piece: usize, answer: &mut Answer) {
    let (first, mut rest) = split_at_then(fields);
    let mut setup = Setup::of(alloc, first);
    let mut left = run_setup(alloc, &mut setup, piece);
    say_left(&setup, &left, answer);
    for _ in 0..fields.len() {
        if rest.is_empty() {
            return;
        }
        let (next, behind) = split_at_then(rest);
        left = run_behind(alloc, &left, next, piece, answer);
        rest = behind;
    }
}

/// Runs a command over what another left, and says what is left then.
fn run_behind(
    alloc: Global,
    left: &Option<Ran>,
    fields: &[Bytes],
    piece: usize,
    answer: &mut Answer,
) -> Option<Ran> {
    let mut setup = Setup::new(alloc);
    if let Some(ran) = left {
        setup.give_pack(ran.pack().unwrap_or(&[]));
        setup.give_input(ran.out());
    }
    setup.read(fields);
    let left = run_setup(alloc, &mut setup, piece);
    say_left(&setup, &left, answer);
    left
}

/// Says what a run left, or why there was none.
fn say_left(setup: &Setup, left: &Option<Ran>, answer: &mut Answer) {
    match left {
        Some(ran) => say_ran(ran, answer),
        None => answer.text(setup.fault().unwrap_or("no folder")),
    }
}

/// Says a run's status, what stands on out and on err, and how many bytes the pack has.
pub fn answer_size(alloc: Global, fields: &[Bytes], answer: &mut Answer) {
    let mut setup = Setup::of(alloc, fields);
    let piece = setup.piece();
    match run_setup(alloc, &mut setup, piece) {
        Some(ran) => {
            say_streams(&ran, answer);
            answer.number(ran.pack().unwrap_or(&[]).len() as u64);
        }
        None => answer.text(setup.fault().unwrap_or("no folder")),
    }
}

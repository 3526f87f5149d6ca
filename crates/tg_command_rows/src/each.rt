//! Each call of an object fails in turn.
use crate::groups::Groups;
use crate::runs::{Ran, run_setup};
use crate::said::{say_made, say_ran};
use crate::setup::{Object, Setup, object_named};
use std::alloc::Global;
use tg_bytes::{Bytes, List};
use tg_links::Call;
use tg_new_tree::Made;
use tg_rows::Answer;

/// How many runs a row takes at most.
const MOST: u64 = 200;

/// Given an object, a name and a run, says what is left where no call fails; and then what is left where the object's first
/// call fails, its second, and so on, until a run meets none that fails, which leaves the same as the first. What is the same
/// one behind another is said once, and how often it came.
pub fn answer(alloc: Global, given: &[Bytes], answer: &mut Answer) {
    let [object, _, fields @ ..] = given else {
        return answer.text("no object, name and run");
    };
    match object_named(object.as_slice()) {
        Some(object) => answer_object(alloc, object, fields, answer),
        None => answer.text("no object"),
    }
}

fn answer_object(alloc: Global, object: Object, fields: &[Bytes], answer: &mut Answer) {
    match ran_of(alloc, fields, None) {
        Some(whole) => {
            say_ran(&whole, answer);
            say_each(alloc, object, fields, &whole, answer);
        }
        None => answer.text("no run"),
    }
}

/// The run of these fields, in which this call fails beside those that they give.
fn ran_of(alloc: Global, fields: &[Bytes], failing: Option<(Object, u64)>) -> Option<Ran> {
    let mut setup = Setup::of(alloc, fields);
    let piece = setup.piece();
    if let Some((object, number)) = failing {
        setup.fail(object, number);
    }
    run_setup(alloc, &mut setup, piece)
}

/// The runs that were said so far: all but how much stands on the stream that is counted, and that.
#[derive(Drop)]
struct Told {
    groups: Groups,
    size: usize,
}

/// Says the runs in which each call of the object fails in turn.
fn say_each(alloc: Global, object: Object, fields: &[Bytes], whole: &Ran, answer: &mut Answer) {
    let mut told = Told {
        groups: Groups::new(alloc),
        size: 0,
    };
    for number in 0..MOST {
        let Some(ran) = ran_of(alloc, fields, Some((object, number))) else {
            return answer.text("no run");
        };
        if ran.faults(object) == 0 {
            return say_end(alloc, &ran, whole, &mut told, answer);
        }
        say_next(alloc, object, &ran, whole, &mut told, answer);
    }
    answer.text("there is no end");
}

/// Says a run in which a call failed, if it is another than the last.
fn say_next(
    alloc: Global,
    object: Object,
    ran: &Ran,
    whole: &Ran,
    told: &mut Told,
    answer: &mut Answer,
) {
    let mut shape = Answer::new(alloc);
    say_shape(object, ran, whole, &mut shape);
    let size = counted(object, ran).len();
    if told.groups.turns(&shape, answer) {
        say_shape(object, ran, whole, answer);
        answer.number(size as u64);
    } else if size != told.size {
        answer.number(size as u64);
    }
    told.size = size;
}

/// Says that no call failed at last, and whether the run left anything else than the first one then.
fn say_end(alloc: Global, ran: &Ran, whole: &Ran, told: &mut Told, answer: &mut Answer) {
    told.groups.end(answer);
    let mut first = Answer::new(alloc);
    say_ran(whole, &mut first);
    let mut last = Answer::new(alloc);
    say_ran(ran, &mut last);
    if first.shown().as_slice() != last.shown().as_slice() {
        answer.text("at last otherwise");
    }
}

/// The stream whose bytes are counted: err where that fails, and else out.
fn counted(object: Object, ran: &Ran) -> &[u8] {
    match object {
        Object::Err => ran.err(),
        _ => ran.out(),
    }
}

/// The other one.
fn other(object: Object, ran: &Ran) -> &[u8] {
    match object {
        Object::Err => ran.out(),
        _ => ran.err(),
    }
}

/// Says of a run its status, what stands on the stream that isn't counted, the pack, the tree and the links; and that the stream
/// that is counted has a front of what it has where no call fails.
fn say_shape(object: Object, ran: &Ran, whole: &Ran, answer: &mut Answer) {
    answer.number(u64::from(ran.status));
    answer.bytes(other(object, ran));
    say_pack(ran, whole, answer);
    say_tree(ran, whole, answer);
    say_links("served", ran.served(), whole.served(), answer);
    say_links("dialled", ran.dialled(), whole.dialled(), answer);
    let front = counted(object, ran);
    if !counted(object, whole).starts_with(front) {
        answer.bytes(front);
    }
    answer.text(match object {
        Object::Err => "err",
        _ => "out",
    });
}

/// What the header of a pack that isn't finished begins with, up to the first 32 bytes of the digest.
const UNFINISHED: &[u8] =
    b"\x3a\xa2\x65roots\x81\xd8\x2a\x58\x25\x00\x01\x55\x12\x20\x00\x00\x00\x00\x00\x00\x00\x00\x00\
        \x00\x00\x00\x00\x00\x00\x00\x00\x00\x00\x00\x00\x00\x00\x00\x00\x00\x00\x00\x00\x00\x00\x00\
        \x67version\x01";

/// Says whether the pack is whole, or isn't finished, where it isn't as it was.
fn say_pack(ran: &Ran, whole: &Ran, answer: &mut Answer) {
    match ran.pack() {
        Some(content) => {
            if content == ran.before.as_slice() {
                return;
            }
            answer.text("pack");
            say_content(content, whole.pack() == Some(content), answer);
        }
        None => {
            answer.text("pack");
            answer.text("untold");
        }
    }
}

fn say_content(content: &[u8], is_whole: bool, answer: &mut Answer) {
    if is_whole {
        answer.text("whole");
    } else if content.is_empty() || content.starts_with(UNFINISHED) {
        answer.text("unfinished");
    } else {
        answer.bytes(content);
    }
}

/// Says whether all was made in the tree that is made where no call fails, or how many folders and files were, as a front of
/// these, and how many bytes the last one has; or else what was made. Nothing is said where nothing was.
fn say_tree(ran: &Ran, whole: &Ran, answer: &mut Answer) {
    let made = ran.made();
    let wanted = whole.made();
    let Some((last, before)) = made.split_last() else {
        return;
    };
    answer.text("tree");
    match wanted.get(before.len()) {
        Some(other) if are_same(before, wanted) && begins(last, other) => {
            if made.len() == wanted.len() && size_of(last) == size_of(other) {
                answer.text("whole");
            } else {
                answer.number(made.len() as u64);
                answer.number(size_of(last));
            }
        }
        _ => say_made(ran.alloc, made, answer),
    }
}

/// Whether these are the first of the others.
fn are_same(made: &[Made], others: &[Made]) -> bool {
    made.iter().zip(others).all(|(one, other)| begins(one, other) && size_of(one) == size_of(other))
}

/// Whether the one is the other, or a file with a front of its bytes.
fn begins(one: &Made, other: &Made) -> bool {
    match (one, other) {
        (Made::Folder(path), Made::Folder(there)) => path.as_slice() == there.as_slice(),
        (Made::File(path, bytes), Made::File(there, all)) => {
            path.as_slice() == there.as_slice() && all.as_slice().starts_with(bytes.as_slice())
        }
        _ => false,
    }
}

/// How many bytes were added to it.
fn size_of(one: &Made) -> u64 {
    match one {
        Made::Folder(_) => 0,
        Made::File(_, bytes) => bytes.as_slice().len() as u64,
    }
}

/// Says of each link whether it was said what it is where no call fails, or it failed and was said a front of that; or else
/// what it was said.
fn say_links(
    label: &str,
    calls: Option<&List<Call>>,
    wanted: Option<&List<Call>>,
    answer: &mut Answer,
) {
    let (Some(calls), Some(wanted)) = (calls, wanted) else {
        return answer.text("untold");
    };
    for (number, call) in calls.as_slice().iter().enumerate() {
        answer.text(label);
        match wanted.as_slice().get(number) {
            Some(wanted) => say_link(call, wanted.said.as_slice(), answer),
            None => say_link(call, &[], answer),
        }
    }
}

fn say_link(call: &Call, wanted: &[u8], answer: &mut Answer) {
    let said = call.said.as_slice();
    if call.failed {
        answer.text("failed");
        if !wanted.starts_with(said) {
            answer.bytes(said);
        }
    } else if said == wanted {
        answer.text("whole");
    } else {
        answer.bytes(said);
    }
}

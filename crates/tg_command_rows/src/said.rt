//! What is said of a run.
use crate::runs::Ran;
use std::alloc::{AllocError, Global};
use tg_bytes::{Bytes, List};
use tg_links::Call;
use tg_new_tree::Made;
use tg_rows::Answer;

/// Says what a run left: its status, out and err; the pack where it isn't as it was; what was said on each link; and what was
/// made in the tree.
pub fn say_ran(ran: &Ran, answer: &mut Answer) {
    say_streams(ran, answer);
    say_pack(ran, answer);
    say_served(ran.served(), answer);
    say_dialled(ran.dialled(), answer);
    say_made(ran.alloc, ran.made(), answer);
}

/// Says a run's status, what stands on out, and what stands on err.
pub fn say_streams(ran: &Ran, answer: &mut Answer) {
    answer.number(u64::from(ran.status));
    answer.bytes(ran.out());
    answer.bytes(ran.err());
}

/// Says what the pack holds where that is something else than before.
fn say_pack(ran: &Ran, answer: &mut Answer) {
    match ran.pack() {
        Some(content) => {
            if content != ran.before.as_slice() {
                answer.text("pack");
                answer.bytes(content);
            }
        }
        None => answer.text("untold"),
    }
}

/// Says of each link of the door what was said on it, and whether the peer had said all then, the link failed, or else it
/// was closed before.
fn say_served(calls: Option<&List<Call>>, answer: &mut Answer) {
    match calls {
        Some(calls) => {
            for call in calls.as_slice() {
                answer.text("served");
                answer.bytes(call.said.as_slice());
                answer.text(ending(call));
            }
        }
        None => answer.text("untold"),
    }
}

fn ending(call: &Call) -> &'static str {
    if call.failed {
        "failed"
    } else if call.over {
        "over"
    } else {
        "closed"
    }
}

/// Says of each link of the dial what was said on it, and whether it failed.
fn say_dialled(calls: Option<&List<Call>>, answer: &mut Answer) {
    match calls {
        Some(calls) => {
            for call in calls.as_slice() {
                answer.text("dialled");
                answer.bytes(call.said.as_slice());
                if call.failed {
                    answer.text("failed");
                }
            }
        }
        None => answer.text("untold"),
    }
}

/// Says of each folder and file that was made its path, and a file's bytes.
pub fn say_made(alloc: Global, made: &[Made], answer: &mut Answer) {
    for one in made {
        match one {
            Made::Folder(path) => {
                answer.text("folder");
                say_path(alloc, path.as_slice(), answer);
            }
            Made::File(path, bytes) => {
                answer.text("file");
                say_path(alloc, path.as_slice(), answer);
                answer.bytes(bytes.as_slice());
            }
        }
    }
}

/// Says the names of a path, with a slash between them.
fn say_path(alloc: Global, path: &[Bytes], answer: &mut Answer) {
    match joined(alloc, path) {
        Ok(text) => answer.bytes(text.as_slice()),
        Err(_) => answer.lack(),
    }
}

/// The names of a path, with a slash between them. The error is want of memory.
fn joined(alloc: Global, path: &[Bytes]) -> Result<Bytes, AllocError> {
    let mut text = Bytes::new(alloc);
    for (number, name) in path.iter().enumerate() {
        if number > 0 {
            text.push_all(b"/")?;
        }
        text.push_all(name.as_slice())?;
    }
    Ok(text)
}

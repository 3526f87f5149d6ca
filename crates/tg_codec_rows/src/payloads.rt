//! The data of UnixFS.
use crate::faults::say_unix;
use std::alloc::Global;
use tg_bytes::Bytes;
use tg_rows::Answer;
use tg_unixfs::{Unix, decode, encode};

/// `payload TEXT`: the kind of the data and those parts that it has, or why the text is none. Where it is written
/// otherwise, that is told.
pub fn answer(alloc: Global, given: &[Bytes], answer: &mut Answer) {
    let [text] = given else {
        return answer.text("a text");
    };
    match decode(alloc, text.as_slice()) {
        Ok(unix) => {
            say_parts(&unix, answer);
            match encode(alloc, &unix) {
                Ok(written) => say_written(written.as_slice(), text.as_slice(), answer),
                Err(_) => answer.lack(),
            }
        }
        Err(fault) => say_unix(alloc, fault, answer),
    }
}

/// Says the parts of data.
fn say_parts(unix: &Unix, answer: &mut Answer) {
    answer.number(unix.kind);
    if let Some(inline) = &unix.inline {
        answer.text("inline");
        answer.bytes(inline.as_slice());
    }
    say_number("filesize", unix.filesize, answer);
    for size in unix.sizes.as_slice() {
        say_number("size", Some(*size), answer);
    }
    say_number("hash", unix.hash, answer);
    say_number("fanout", unix.fanout, answer);
}

/// Says a number that data may have.
fn say_number(name: &str, number: Option<u64>, answer: &mut Answer) {
    if let Some(number) = number {
        answer.text(name);
        answer.number(number);
    }
}

/// Says as what data is written, where that isn't its text.
fn say_written(written: &[u8], text: &[u8], answer: &mut Answer) {
    if written != text {
        answer.text("written");
        answer.bytes(written);
    }
}

//! Headers of CARs, fed byte by byte.
use crate::faults::say_car;
use std::alloc::Global;
use tg_bytes::Bytes;
use tg_car::{CarFault, CarReader, Event};
use tg_rows::Answer;

/// What becomes of bytes as a header.
#[derive(Clone, Copy)]
enum Outcome {
    /// A header begins so.
    Inside,
    /// They are a header.
    Whole,
    /// The byte at this place is refused.
    Refused(usize, CarFault),
}

/// `header BYTES`: whether a header begins so or is whole, or which byte is refused, and why.
pub fn answer(alloc: Global, given: &[Bytes], answer: &mut Answer) {
    let [bytes] = given else {
        return answer.text("some bytes");
    };
    match outcome_of(alloc, bytes.as_slice()) {
        Outcome::Inside => answer.text("inside"),
        Outcome::Whole => answer.text("whole"),
        Outcome::Refused(at, fault) => {
            answer.number(at as u64);
            say_car(alloc, fault, answer);
        }
    }
}

/// What becomes of bytes that are fed one by one.
fn outcome_of(alloc: Global, bytes: &[u8]) -> Outcome {
    let mut reader = CarReader::new(alloc, 0);
    let mut outcome = Outcome::Inside;
    for (at, piece) in bytes.chunks(1).enumerate() {
        match reader.feed(piece) {
            Ok((_, Event::Header(_))) => outcome = Outcome::Whole,
            Ok(_) => {}
            Err(fault) => return Outcome::Refused(at, fault),
        }
    }
    outcome
}

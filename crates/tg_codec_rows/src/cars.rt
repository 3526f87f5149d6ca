//! CARs: headers and heads of sections that are written, and texts that are read.
use crate::faults::say_car;
use crate::readings::{Found, found_in, found_longer};
use std::alloc::Global;
use tg_bytes::{Bytes, number_of};
use tg_car::{CarFault, header, section_head};
use tg_cid::{Cid, MAX_BLOCK_LEN};
use tg_rows::Answer;

/// `header-of CID`: the header of a CAR with this root.
pub fn answer_header_of(alloc: Global, given: &[Bytes], answer: &mut Answer) {
    let [root] = given else {
        return answer.text("the bytes of a CID");
    };
    match Cid::from_bytes(root.as_slice()) {
        Ok(root) => say_header(alloc, &root, answer),
        Err(fault) => answer.shown_as(&fault),
    }
}

/// Says the header of a CAR with this root.
fn say_header(alloc: Global, root: &Cid, answer: &mut Answer) {
    match header(alloc, root) {
        Ok(text) => answer.bytes(text.as_slice()),
        Err(_) => answer.lack(),
    }
}

/// `head-of CID SIZE`: the head of a section with a block of so many bytes.
pub fn answer_head_of(given: &[Bytes], answer: &mut Answer) {
    let [cid, size] = given else {
        return answer.text("the bytes of a CID, and a size");
    };
    match (Cid::from_bytes(cid.as_slice()), number_of(size.as_slice())) {
        (Ok(cid), Some(size)) => say_head(&cid, size, answer),
        _ => answer.text("no CID or no size"),
    }
}

/// Says the head of a section with a block of so many bytes.
fn say_head(cid: &Cid, size: u64, answer: &mut Answer) {
    if size > MAX_BLOCK_LEN as u64 {
        return answer.text("too great");
    }
    let (head, length) = section_head(cid, size);
    answer.bytes(&head[..length]);
}

/// In pieces of how many bytes a text is fed.
const SIZES: &[usize] = &[1, 7, 100, 1000, 65_536];

/// The text of a row, and the limit of a block for it.
fn text_in(given: &[Bytes]) -> Option<(u64, &[u8])> {
    match given {
        [limit, text] => match number_of(limit.as_slice()) {
            Some(limit) => Some((limit, text.as_slice())),
            None => None,
        },
        _ => None,
    }
}

/// `car LIMIT TEXT`: how many headers and sections a reader with this limit of a block gives, in pieces of any lengths,
/// and its end or refusal; of a text that is refused the same where more follows it.
pub fn answer_car(alloc: Global, given: &[Bytes], answer: &mut Answer) {
    let Some((limit, text)) = text_in(given) else {
        return answer.text("a limit and a text");
    };
    match found_each(alloc, limit, text) {
        Ok(found) => {
            say_found(alloc, found, answer);
            if !is_kept(alloc, limit, text, found) {
                answer.text("otherwise where more follows");
            }
        }
        Err(size) => {
            answer.text("otherwise in pieces of");
            answer.number(size as u64);
        }
    }
}

/// What a reader gives of a text in pieces of each length, or the first length at which it is something else.
fn found_each(alloc: Global, limit: u64, text: &[u8]) -> Result<Found, usize> {
    let mut first = None;
    for size in SIZES {
        let found = found_in(alloc, limit, text, *size);
        if found.is_none() || (first.is_some() && first != found) {
            return Err(*size);
        }
        first = found;
    }
    first.ok_or(0)
}

/// Whether a refusal stays the same where more follows.
fn is_kept(alloc: Global, limit: u64, text: &[u8], found: Found) -> bool {
    match found.end {
        Ok(()) | Err(CarFault::Torn { .. }) => true,
        Err(_) => found_longer(alloc, limit, text) == Some(found),
    }
}

/// Says what a reader gave.
fn say_found(alloc: Global, found: Found, answer: &mut Answer) {
    answer.number(found.headers);
    answer.number(found.sections);
    match found.end {
        Ok(()) => answer.text("end"),
        Err(fault) => say_car(alloc, fault, answer),
    }
}

/// `fronts LIMIT TEXT`: what a reader gives of each front of a text, from no bytes on: how many bytes the first of those
/// fronts has of which it gives the same, and what it gives.
pub fn answer_fronts(alloc: Global, given: &[Bytes], answer: &mut Answer) {
    let Some((limit, text)) = text_in(given) else {
        return answer.text("a limit and a text");
    };
    let mut last = None;
    for length in 0..=text.len() {
        let Ok(found) = found_each(alloc, limit, text.get(..length).unwrap_or(text)) else {
            return answer.text("otherwise in pieces");
        };
        if last != Some(found) {
            answer.number(length as u64);
            say_found(alloc, found, answer);
        }
        last = Some(found);
    }
}

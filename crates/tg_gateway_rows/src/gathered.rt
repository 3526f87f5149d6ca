//! Pieces that are gathered before they are put, over a sink in memory.
use crate::fields::{numbers_of, parted, piece_of};
use std::alloc::{AllocError, Global};
use tg_bytes::{Bytes, List};
use tg_faults::Failed;
use tg_rows::Answer;
use tg_streams::{Gathering, MemSink};

/// Says of `gather PIECE SIZE .. at FAIL ..`: how many bytes a sink, of which one put moves so many, holds behind each of the
/// pieces that are given one after another; and for each of the puts that fail whether what is given is broken off there, or
/// goes whole, as what is gathered is put out at last.
pub fn answer(alloc: Global, given: &[Bytes], answer: &mut Answer) {
    let [piece, given @ ..] = given else {
        return answer.text("a piece, sizes, and puts that fail");
    };
    let (sizes, fails) = parted(given, b"at");
    match (
        text_of(alloc),
        piece_of(piece),
        numbers_of(alloc, sizes),
        numbers_of(alloc, fails),
    ) {
        (Ok(text), Some(piece), Some(sizes), Some(fails)) => {
            let pieces = Pieces {
                text: text.as_slice(),
                sizes: sizes.as_slice(),
                piece,
            };
            answer_pieces(alloc, pieces, fails.as_slice(), answer);
        }
        _ => answer.text("not made"),
    }
}

/// Bytes that are given in pieces of these sizes, and how many of them one put moves.
#[derive(Clone, Copy)]
struct Pieces<'a> {
    text: &'a [u8],
    sizes: &'a [u64],
    piece: usize,
}

/// How many bytes the sink held behind each piece that went, whether a put failed, and whether the sink then holds what it
/// is to.
#[derive(Drop)]
struct Given {
    held: List<u64>,
    is_broken: bool,
    is_well: bool,
}

/// Bytes that repeat after 251, so that pieces in another order differ.
fn text_of(alloc: Global) -> Result<Bytes, AllocError> {
    let mut text = Bytes::new(alloc);
    for i in 0..65_536_u32 {
        text.push_all(&[(i % 251) as u8])?;
    }
    Ok(text)
}

fn answer_pieces(alloc: Global, pieces: Pieces, fails: &[u64], answer: &mut Answer) {
    let Some(whole) = given_all(alloc, pieces, u64::MAX) else {
        return answer.lack();
    };
    for held in whole.held.as_slice() {
        answer.number(*held);
    }
    if whole.is_broken || !whole.is_well {
        answer.text("otherwise");
    }
    for fail in fails {
        match given_all(alloc, pieces, *fail) {
            Some(given) => answer.text(end_of(&given, &whole)),
            None => answer.lack(),
        }
    }
}

/// How pieces went beside those of which no put failed.
fn end_of(given: &Given, whole: &Given) -> &'static str {
    let held = given.held.as_slice();
    if !given.is_well || !whole.held.as_slice().starts_with(held) {
        "otherwise"
    } else if given.is_broken {
        "broken"
    } else {
        "whole"
    }
}

/// A sink of which the put with this number fails.
fn sink_of(alloc: Global, piece: usize, fail: u64) -> Result<MemSink, AllocError> {
    let fails = List::from(Vec::from_slice(alloc, &[fail])?);
    Ok(MemSink::new(alloc, piece.max(1), fails))
}

/// How pieces go where the put with this number fails; none where memory is wanted.
fn given_all(alloc: Global, pieces: Pieces, fail: u64) -> Option<Given> {
    match (Gathering::new(alloc), sink_of(alloc, pieces.piece, fail)) {
        (Ok(mut gathering), Ok(mut sink)) => {
            given_into(alloc, &mut gathering, &mut sink, pieces)
        }
        _ => None,
    }
}

fn given_into(
    alloc: Global,
    gathering: &mut Gathering,
    sink: &mut MemSink,
    pieces: Pieces,
) -> Option<Given> {
    let mut held = List::new(alloc);
    let mut rest = pieces.text;
    let mut is_broken = false;
    for size in pieces.sizes {
        if is_broken {
            break;
        }
        let (bytes, behind) = rest.split_at(rest.len().min((*size).min(65_536) as usize));
        rest = behind;
        is_broken = gathering.give(sink, bytes) == Err(Failed);
        if !is_broken && held.push(sink.held().len() as u64).is_err() {
            return None;
        }
    }
    if !is_broken {
        is_broken = gathering.put_out(sink) == Err(Failed);
    }
    let is_well = is_end(gathering, sink, pieces.text, rest, is_broken);
    Some(Given {
        held,
        is_broken,
        is_well,
    })
}

/// Whether a sink holds all but the rest of a text where no put failed; and else a front of it behind the one put that failed,
/// where putting out then puts nothing.
fn is_end(
    gathering: &mut Gathering,
    sink: &mut MemSink,
    text: &[u8],
    rest: &[u8],
    is_broken: bool,
) -> bool {
    if !is_broken {
        return text.strip_prefix(sink.held()) == Some(rest) && sink.count() == 0;
    }
    let held = sink.held().len();
    sink.count() == 1
        && text.starts_with(sink.held())
        && gathering.put_out(sink) == Ok(())
        && sink.held().len() == held
}

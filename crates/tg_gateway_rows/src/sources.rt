//! A source and a sink in memory: each row is a step, and goes on with what the steps before it left.
use crate::fields::{number_up_to, numbers_of, piece_of};
use std::alloc::Global;
use tg_bytes::{Bytes, List};
use tg_faults::{Calls, Failed};
use tg_rows::Answer;
use tg_streams::{MemSink, MemSource, Source, put_all};

/// The source and the sink that the steps before left.
#[derive(Drop)]
pub struct Streams {
    alloc: Global,
    source: MemSource,
    sink: MemSink,
}

impl Streams {
    /// A source and a sink that nothing went through.
    pub fn new(alloc: Global) -> Streams {
        Streams {
            alloc,
            source: MemSource::new(Bytes::new(alloc), 1, List::new(alloc)),
            sink: MemSink::new(alloc, 1, List::new(alloc)),
        }
    }

    /// Answers a step of this kind.
    pub fn answer(&mut self, kind: &str, given: &[Bytes], answer: &mut Answer) {
        match kind {
            "source" => self.make_source(given, answer),
            "take" => self.take(given, answer),
            "sink" => self.make_sink(given, answer),
            _ => self.put(given, answer),
        }
    }

    /// `source TEXT PIECE FAIL ..`: a source of this text in pieces of so many bytes, of which the calls with these numbers
    /// fail.
    fn make_source(&mut self, given: &[Bytes], answer: &mut Answer) {
        let [text, piece, fails @ ..] = given else {
            return answer.text("a text, a piece, and calls that fail");
        };
        let text = Bytes::of(self.alloc, text.as_slice());
        match (text, piece_of(piece), numbers_of(self.alloc, fails)) {
            (Ok(text), Some(piece), Some(fails)) => {
                self.source = MemSource::new(text, piece.max(1), fails);
                answer.text("made");
            }
            _ => answer.text("not made"),
        }
    }

    /// `take SIZE`: what a take of at most so many bytes gives, how many calls failed, and what is left.
    fn take(&mut self, given: &[Bytes], answer: &mut Answer) {
        let mut room = [0; 64];
        let [size] = given else {
            return answer.text("a size");
        };
        let Some(size) = number_up_to(size, 64) else {
            return answer.text("a size of at most 64");
        };
        let size = size.min(64) as usize;
        match self.source.take(&mut room[..size]) {
            Ok(taken) => answer.bytes(room.get(..taken).unwrap_or(&room)),
            Err(Failed) => answer.text("failed"),
        }
        answer.number(self.source.count());
        answer.bytes(self.source.left());
    }

    /// `sink PIECE FIRST FAIL ..`: a sink that takes so many bytes in a call, whose first call has this number.
    fn make_sink(&mut self, given: &[Bytes], answer: &mut Answer) {
        let [piece, first, fails @ ..] = given else {
            return answer.text("a piece, a first call, and calls that fail");
        };
        let first = number_up_to(first, 1_000_000);
        match (piece_of(piece), first, numbers_of(self.alloc, fails)) {
            (Some(piece), Some(first), Some(fails)) => {
                let calls = Calls::after(first, fails);
                self.sink = MemSink::with_calls(self.alloc, piece.max(1), calls);
                answer.text("made");
            }
            _ => answer.text("not made"),
        }
    }

    /// `put BYTES`: whether all go, what the sink holds, and how many calls failed.
    fn put(&mut self, given: &[Bytes], answer: &mut Answer) {
        let [bytes] = given else {
            return answer.text("bytes");
        };
        match put_all(&mut self.sink, bytes.as_slice()) {
            Ok(()) => answer.text("put"),
            Err(Failed) => answer.text("failed"),
        }
        answer.bytes(self.sink.held());
        answer.number(self.sink.count());
    }
}

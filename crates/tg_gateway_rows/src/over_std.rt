//! Sources, sinks and links over a stream of std whose calls answer what a row says.
ghost use Rattle.std.specs.Prelude.{◌≤◌, IfOk};

use crate::fields::number_up_to;
use std::alloc::Global;
use std::io;
use std::io::{ErrorKind, Read, Write};
use std::str::from_utf8;
use tg_bytes::{Bytes, List};
use tg_faults::Failed;
use tg_links::{Silence, TcpLink};
use tg_rows::Answer;
use tg_streams::{Sink, Source, StdSink, StdSource, put_all, take_piece};

/// What a call answers: that it moves nothing, or an error.
#[derive(Clone, Copy)]
enum Call {
    Nothing,
    Error(ErrorKind),
}

/// A stream whose first calls answer these, and of which each further call moves one byte, if it is given room for it. It
/// reads the byte 7.
#[derive(Drop)]
struct Script {
    calls: List<Call>,
    made: usize,
}

impl Script {
    /// How many bytes the next call moves, with room for so many.
    fn call(&mut self, room: usize) -> io::Result<usize>
        ensures { IfOk result (λ n. n ≤ room) }
    {
        let call = self.calls.as_slice().get(self.made).copied();
        self.made = self.made.saturating_add(1);
        match call {
            None => Ok(room.min(1)),
            Some(Call::Nothing) => Ok(0),
            Some(Call::Error(kind)) => Err(io::Error::from(kind)),
        }
    }
}

impl Read for Script {
    fn read(&mut self, buf: &mut [u8]) -> io::Result<usize> {
        let size = self.call(buf.len())?;
        if size > 0 {
            buf[0] = 7;
        }
        Ok(size)
    }
}

impl Write for Script {
    fn write(&mut self, buf: &[u8]) -> io::Result<usize> {
        self.call(buf.len())
    }

    fn flush(&mut self) -> io::Result<()> {
        Ok(())
    }
}

/// How often a call comes at most.
const MOST_TIMES: u64 = 1_000;

/// The call that a field names.
fn call_of(field: &Bytes) -> Option<Call> {
    match from_utf8(field.as_slice()) {
        Ok("nothing") => Some(Call::Nothing),
        Ok("interrupted") => Some(Call::Error(ErrorKind::Interrupted)),
        Ok("broken") => Some(Call::Error(ErrorKind::BrokenPipe)),
        Ok("reset") => Some(Call::Error(ErrorKind::ConnectionReset)),
        Ok("timed-out") => Some(Call::Error(ErrorKind::TimedOut)),
        Ok("would-block") => Some(Call::Error(ErrorKind::WouldBlock)),
        _ => None,
    }
}

/// A stream whose first calls answer what these fields name: a number says how often the next one comes.
fn script_of(alloc: Global, given: &[Bytes]) -> Option<Script> {
    let mut calls = List::new(alloc);
    let mut times = 1;
    for field in given {
        if let Some(number) = number_up_to(field, MOST_TIMES) {
            times = number;
            continue;
        }
        let call = call_of(field)?;
        for _ in 0..times {
            if calls.push(call).is_err() {
                return None;
            }
        }
        times = 1;
    }
    Some(Script { calls, made: 0 })
}

/// Two streams whose first calls answer what these fields name.
fn scripts_of(alloc: Global, given: &[Bytes]) -> Option<(Script, Script)> {
    match (script_of(alloc, given), script_of(alloc, given)) {
        (Some(one), Some(other)) => Some((one, other)),
        _ => None,
    }
}

/// Answers a row of this kind.
pub fn answer(alloc: Global, kind: &str, given: &[Bytes], answer: &mut Answer) {
    match kind {
        "reader" => match scripts_of(alloc, given) {
            Some((one, other)) => say_read(one, other, answer),
            None => answer.text("an unknown call"),
        },
        "writer" => match scripts_of(alloc, given) {
            Some((one, other)) => say_written(one, other, answer),
            None => answer.text("an unknown call"),
        },
        _ => answer_silent(alloc, given, answer),
    }
}

/// Says how many bytes were moved.
fn say_moved(moved: Result<usize, Failed>, answer: &mut Answer) {
    match moved {
        Ok(size) => answer.number(size as u64),
        Err(Failed) => answer.text("failed"),
    }
}

/// `reader CALL ..`: how many bytes one take of a source over such a stream gives, what stands in its room of three bytes then,
/// and how many faults are counted; and the same of the piece that a source gives over another such stream.
fn say_read(one: Script, other: Script, answer: &mut Answer) {
    let mut source = StdSource::new(one);
    let mut room = [0; 3];
    say_moved(source.take(&mut room), answer);
    answer.bytes(&room);
    answer.number(source.count());
    let mut source = StdSource::new(other);
    let mut room = [0; 3];
    say_moved(take_piece(&mut source, &mut room), answer);
    answer.bytes(&room);
    answer.number(source.count());
}

/// `writer CALL ..`: how many of three bytes one put into a sink over such a stream takes, and how many faults are counted;
/// whether a byte goes into another such sink, and how many faults are counted; and then whether none goes.
fn say_written(one: Script, other: Script, answer: &mut Answer) {
    let mut sink = StdSink::new(one);
    say_moved(sink.put(b"abc"), answer);
    answer.number(sink.count());
    let mut sink = StdSink::new(other);
    say_put(put_all(&mut sink, b"x"), answer);
    answer.number(sink.count());
    say_put(put_all(&mut sink, b""), answer);
}

fn say_put(put: Result<(), Failed>, answer: &mut Answer) {
    answer.text(if put.is_ok() { "put" } else { "failed" });
}

/// `silent SILENCE CALL ..`: how many bytes a take without room gives, and two takes behind it, of a link over such a stream whose
/// silence means this, and how many calls failed; and how many of three bytes one put takes, and how many calls failed.
fn answer_silent(alloc: Global, given: &[Bytes], answer: &mut Answer) {
    let [silence, calls @ ..] = given else {
        return answer.text("what silence means, and calls");
    };
    let silence = match silence.as_slice() {
        b"ends" => Silence::Ends,
        b"fails" => Silence::Fails,
        _ => return answer.text("an unknown silence"),
    };
    match scripts_of(alloc, calls) {
        Some((one, other)) => say_linked(one, other, silence, answer),
        None => answer.text("an unknown call"),
    }
}

fn say_linked(one: Script, other: Script, silence: Silence, answer: &mut Answer) {
    let mut link = TcpLink::new(one, silence);
    let mut room = [0; 2];
    say_moved(link.take(&mut room[..0]), answer);
    say_moved(link.take(&mut room), answer);
    say_moved(link.take(&mut room), answer);
    answer.number(link.count());
    let mut link = TcpLink::new(other, silence);
    say_moved(link.put(b"abc"), answer);
    answer.number(link.count());
}

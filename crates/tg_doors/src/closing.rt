//! Streams of links that were given back, which are heard out before they are closed.
use libc::types::pollfd;
use std::alloc::Global;
use std::io::{ErrorKind, Read};
use std::net::OpenStream;
use std::os::fd::AsRawFd;
use tg_links::{Asked, monotonic_millis};
use tg_streams::read_on;

/// How many streams are heard out at once at most.
const STREAMS: usize = 64;

/// How many milliseconds a peer of one may be silent.
const PATIENCE: u64 = 1_000;

/// How many reads there are of one at most, of 16 KiB each, whatever each one gives.
const READS: u32 = 64;

/// How many milliseconds those are heard out at most that are left behind a door.
const LAST_PATIENCE: u64 = 3_000;

/// How often one call waits for them at most.
const ROUNDS: u32 = 4_096;

/// A stream that is heard out.
#[derive(Drop)]
struct Closing<T> {
    stream: T,
    reads: u32,
    /// When the peer said something last, or the stream was given, in milliseconds.
    heard_at: u64,
    over: bool,
}

impl<T: Read> Closing<T> {
    /// How many milliseconds are left until its peer was silent for too long.
    fn patience(&self, now: u64) -> u64 {
        PATIENCE.saturating_sub(now.saturating_sub(self.heard_at))
    }

    /// Reads what the peer says, once, and drops it. It is over at the end, at an error and behind the last read.
    fn hear(&mut self, now: u64) {
        let mut buf = [0; 16_384];
        match read_on(&mut self.stream, &mut buf) {
            Ok(size) if size > 0 && self.reads < READS => {
                self.reads += 1;
                self.heard_at = now;
            }
            Err(e) if e.kind() == ErrorKind::WouldBlock => {}
            _ => self.over = true,
        }
    }

    /// Hears it where it is ready; where it isn't it is over once its peer was silent for too long.
    fn go_on(&mut self, is_ready: bool, now: u64) {
        if is_ready {
            self.hear(now);
        } else if self.patience(now) == 0 {
            self.over = true;
        }
    }
}

/// Streams whose peers were told that no more comes. A connection that is closed over bytes that weren't read is reset (RFC
/// 9293, 3.6.1), and its peer may lose what it was sent last (RFC 9112, 9.6). So what the peers still send is read and
/// dropped, without waiting for any, until each ends, fails or is silent for a second, or 64 reads of at most 16 KiB are
/// done; and only then a stream is closed. Where there are 64 and one more is given, those that are over are closed, and if
/// none is, the one that was given first. Where all are dropped they are heard out for 3 seconds at most.
pub(crate) struct ClosingStreams<T: Read + OpenStream + AsRawFd + Drop> {
    streams: Vec<Closing<T>>,
}

impl<T: Read + OpenStream + AsRawFd + Drop> ClosingStreams<T> {
    /// None.
    pub(crate) fn new(alloc: Global) -> ClosingStreams<T> {
        ClosingStreams {
            streams: Vec::new(alloc),
        }
    }

    /// How many there are.
    pub(crate) fn count(&self) -> usize {
        self.streams.len()
    }

    /// Hears this one out too. It is closed at once where no memory is found for it, or where reading it might wait.
    pub(crate) fn add(&mut self, stream: T) {
        if stream.set_nonblocking(true).is_err() {
            return;
        }
        if self.streams.len() >= STREAMS {
            self.wait_once(0);
        }
        if self.streams.len() >= STREAMS {
            self.streams.remove(0);
        }
        let _ = self.streams.push(Closing {
            stream,
            reads: 0,
            heard_at: monotonic_millis(),
            over: false,
        });
    }

    /// Asks for each of them, in order.
    pub(crate) fn ask(&self, asked: &mut Asked) {
        for closing in &self.streams {
            asked.ask(closing.stream.as_raw_fd());
        }
    }

    /// How many milliseconds to wait for them at most, of so many.
    pub(crate) fn patience(&self, millis: u64) -> u64 {
        let now = monotonic_millis();
        let mut patience = millis;
        for closing in &self.streams {
            patience = patience.min(closing.patience(now));
        }
        patience
    }

    /// Hears those that are ready, and closes those that are over: this was told of them, in order.
    pub(crate) fn hear(&mut self, told: &[pollfd]) {
        let now = monotonic_millis();
        for (closing, place) in self.streams.iter_mut().zip(told) {
            closing.go_on(place.revents != 0, now);
        }
        self.streams.retain(|closing| !closing.over);
    }

    /// Waits for them once, for so many milliseconds at most.
    fn wait_once(&mut self, millis: u64) {
        let mut asked = Asked::new();
        self.ask(&mut asked);
        if asked.wait(self.patience(millis)) {
            self.hear(asked.told(0));
        }
    }

    /// Hears them for so many milliseconds, whatever they say.
    pub(crate) fn pause(&mut self, millis: u64) {
        let began = monotonic_millis();
        for _ in 0..ROUNDS {
            let passed = monotonic_millis().saturating_sub(began);
            if passed >= millis {
                return;
            }
            self.wait_once(millis.saturating_sub(passed));
        }
    }

    /// Hears them out, for 3 seconds at most.
    fn hear_out(&mut self) {
        let began = monotonic_millis();
        for _ in 0..ROUNDS {
            let passed = monotonic_millis().saturating_sub(began);
            if self.streams.is_empty() || passed >= LAST_PATIENCE {
                return;
            }
            self.wait_once(LAST_PATIENCE.saturating_sub(passed));
        }
    }
}

impl<T: Read + OpenStream + AsRawFd + Drop> Drop for ClosingStreams<T> {
    fn drop(mut self) {
        self.hear_out();
        let ClosingStreams { streams } = self;
        drop(streams);
    }
}

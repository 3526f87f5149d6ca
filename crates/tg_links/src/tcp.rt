//! Links over TCP connections.
ghost use Rattle.std.specs.Prelude.{◌≡◌, ◌==◌, ◌<◌, ◌≤◌, ◌↔◌, IfOk, IsTrue, OnErr, OnOk, Ok, false, length, refl};
ghost use Rattle.std.specs.Prelude.{take, true};
ghost use Rattle.std.specs.IoError.{error_kind};
ghost use Rattle.std.specs.Io.{WritesAtMost};
ghost use Rattle.std.specs.Io.KnownBytes.{IsAtEnd, WriteAppends};
ghost use Rattle.tg_faults.specs.Faults.{Rose, counted};
ghost use Rattle.tg_links.specs.Tcp.{IsSilence, IsToldAs, hears_joins, hears_rests, says_joins, says_rests};
ghost use Rattle.tg_links.specs.Tcp.{tcp_hearing, tcp_link, tcp_saying};
ghost use Rattle.tg_streams.specs.Streams.{Ended, InputQuiet, InputRose, OutputQuiet, OutputRose, Put, Took, Unput};
ghost use Rattle.tg_streams.specs.Streams.{Untaken, into, through};

use crate::clock::monotonic_millis;
use crate::link::Link;
use crate::rate::Rate;
use std::io;
use std::io::{ErrorKind, Read, Write};
use std::marker::Model;
use std::net::{OpenStream, Shutdown};
use std::os::fd::{AsRawFd, RawFd};
use std::time::Duration;
use tg_faults::Failed;
use tg_streams::{Sink, Source, read_on, write_on};

/// How many milliseconds the peer of a link may be silent, which is how long a read of it waits.
const PATIENCE: u64 = 60_000;

/// How many milliseconds a write of a link waits until the peer's system takes a byte, or a further one.
const WRITE_PATIENCE: u64 = 250;

/// How many writes of a put there are at most of which the peer's system takes no byte: more than there are in 60 seconds.
const WRITES: u32 = 256;

/// How many seconds a read waits for the peer of a link that is finished.
const LAST_PATIENCE: u64 = 1;

/// How many reads there are at most, of 16 KiB each, of what the peer of a finished link still sends, whatever each one
/// gives: 1 MiB, and a peer that sends a byte at a time is left after about a minute.
const LAST_READS: u32 = 64;

/// What it means that the peer of a link says nothing for 60 seconds.
#[derive(Clone, Copy, Debug, PartialEq, Eq)]
pub enum Silence {
    /// The peer says no more, so that the link is over: for a link that a door gave, which its peer may leave open.
    Ends,
    /// The peer owes an answer, so that it is a fault of the link: for a link that was dialled.
    Fails,
}

/// What is under way on a link.
#[derive(Drop)]
enum Exchange {
    /// Nothing: no byte was moved yet.
    Begins,
    /// A request, of which a byte was taken, and nothing was put since, by the time that passes.
    Asks(Rate),
    /// A reply, of which a byte was put, and nothing was taken since, by the time in which puts waited for the peer.
    Replies(Rate),
}

/// A link over a connection of TCP (RFC 9293). Its bytes aren't told; what the stream itself knows of them is in what
/// was taken and what was put.
///
/// A peer that resets the connection (RFC 9293, 3.5.3) is a fault, and so is one whose system takes no byte of a put for 60
/// seconds since it took one last.
///
/// Of a link that a door gave (`Silence::Ends`) a peer that is slow is a fault too: one of whose request fewer than 65,536
/// bytes came in the last 60 seconds, though it isn't answered yet; and one that took fewer than 65,536 bytes of a reply in
/// the last 60 seconds in which puts waited for it. Each request, and each reply, has 60 seconds at first. The bytes are
/// counted by seconds, so that a fault comes up to a second late. The peer of a link that was dialled is waited for, however
/// slow it is, but for one that is hurried: there a reply of which fewer than 65,536 bytes came in the last 60 seconds is a
/// fault.
#[derive(Drop)]
pub struct TcpLink<T> {
    stream: T,
    silence: Silence,
    /// Whether a peer that is slow is a fault.
    hurried: bool,
    over: bool,
    faults: u64,
    exchange: Exchange,
    /// When a byte was moved last, or the link was made, in milliseconds.
    moved_at: u64,
    /// How many milliseconds puts waited for the peer, in all.
    waited: u64,
    /// Since when the peer's system takes nothing of a put, in milliseconds, where the last one wasn't taken whole.
    stalled_at: Option<u64>,
}

impl<T> Model for TcpLink<T> {
    ghost use Rattle.tg_links.specs.Tcp.{TcpState};

    ghost Value = { TcpState T };

    ghost view = { λ l. record { stream = l.stream; silence = l.silence; over = l.over; faults = l.faults } };
}

impl<T> TcpLink<T> {
    /// A link over this stream as it is set, with no fault counted.
    pub fn new(stream: T, silence: Silence) -> TcpLink<T>
        ensures { result ≡ record { stream = stream; silence = silence; over = false; faults = 0 } }
    {
        TcpLink {
            stream,
            silence,
            hurried: silence == Silence::Ends,
            over: false,
            faults: 0,
            exchange: Exchange::Begins,
            moved_at: monotonic_millis(),
            waited: 0,
            stalled_at: None,
        }
    }

    /// The same link, on which a peer that is slow is a fault, for one of several peers of which none may hold the others: a
    /// dialled one that was silent for 60 seconds, or gave fewer than 65,536 bytes of its reply in the last 60.
    pub fn hurried(self) -> TcpLink<T>
        ensures { result ≡ self }
    {
        let mut link = self;
        link.hurried = true;
        link
    }

    /// How many calls failed.
    pub fn count(&self) -> u64
        ensures { result ≡ self.now.faults }
    {
        self.faults
    }

    /// How many milliseconds are left until a take of the link needn't wait, whatever comes: until its peer was silent for 60
    /// seconds, or what it says has been coming too slowly.
    pub fn patience(&self) -> u64 {
        let now = monotonic_millis();
        let silent = PATIENCE.saturating_sub(now.saturating_sub(self.moved_at));
        match &self.exchange {
            Exchange::Asks(rate) if self.hurried => silent.min(rate.left(now)),
            _ => silent,
        }
    }

    /// Whether the peer gave too little of what it says, where that is a fault; of a dialled one that is hurried also where it
    /// was silent for 60 seconds.
    fn is_late(&self) -> bool {
        if !self.hurried {
            return false;
        }
        match (self.silence, &self.exchange) {
            (Silence::Fails, _) => self.patience() == 0,
            (Silence::Ends, Exchange::Asks(rate)) => rate.left(monotonic_millis()) == 0,
            _ => false,
        }
    }

    /// How many milliseconds a put that begins at this time waits for the peer: until its system took nothing for 60 seconds, or
    /// it has been taking the reply too slowly, where that is a fault.
    fn put_patience(&self, now: u64) -> u64 {
        let stalled = now.saturating_sub(self.stalled_at.unwrap_or(now));
        let silent = PATIENCE.saturating_sub(stalled);
        match &self.exchange {
            Exchange::Replies(rate) if self.hurried => silent.min(rate.left(self.waited)),
            _ => silent,
        }
    }

    /// Counts so many bytes, of those that the peer gave, as those of a request.
    fn count_asked(&mut self, bytes: usize)
        ensures { self.new ≡ self.old }
    {
        if bytes == 0 {
            return;
        }
        let now = monotonic_millis();
        self.moved_at = now;
        match &mut self.exchange {
            Exchange::Asks(rate) => rate.count(bytes, now),
            _ => {
                let mut rate = Rate::new(now);
                rate.count(bytes, now);
                self.exchange = Exchange::Asks(rate);
            }
        }
    }

    /// Counts so many bytes, which the peer took of a put that began at this time, as those of a reply. Where it took a part of
    /// the put, the last write of it waited for more.
    fn count_replied(&mut self, bytes: usize, is_whole: bool, began: u64)
        ensures { self.new ≡ self.old }
    {
        if bytes == 0 {
            return;
        }
        let now = monotonic_millis();
        let before = self.waited;
        self.moved_at = now;
        self.waited = before.saturating_add(now.saturating_sub(began));
        self.stalled_at = if is_whole {
            None
        } else {
            Some(now.saturating_sub(WRITE_PATIENCE))
        };
        match &mut self.exchange {
            Exchange::Replies(rate) => rate.count(bytes, self.waited),
            _ => {
                let mut rate = Rate::new(before);
                rate.count(bytes, self.waited);
                self.exchange = Exchange::Replies(rate);
            }
        }
    }

    /// Counts a fault of the call that is under way.
    fn fault(&mut self) -> Failed
        ensures count { self.new ≡ record self.old { faults = counted self.old.faults } }
        ensures counted { self.old.faults ≤ self.new.faults }
        ensures rose { Rose self.old.faults self.new.faults }
    {
        self.faults = self.faults.saturating_add(1);
        Failed
    }

    /// Tells what came of a read of the stream that had room. The link is over where nothing was read, and where the peer
    /// was silent and silence ends it; any other error is a fault, such as that of a connection that was reset.
    fn judge(&mut self, read: io::Result<usize>) -> Result<usize, Failed>
        ensures told { IsToldAs self.old.silence read result }
        ensures ok { IfOk result (λ n. self.new ≡ record self.old { over = n == 0 }) }
        ensures err { OnErr result (self.new ≡ record self.old { faults = counted self.old.faults }) }
        ensures counted { self.old.faults ≤ self.new.faults }
    {
        match read {
            Ok(n) => {
                self.over = n == 0;
                self.count_asked(n);
                Ok(n)
            }
            Err(e) if self.silence == Silence::Ends && is_silence(&e) => {
                self.over = true;
                Ok(0)
            }
            Err(_) => Err(self.fault()),
        }
    }
}

impl<T: OpenStream + Drop> TcpLink<T> {
    /// A link over a connection, with no fault counted. What is put is sent at once (`TCP_NODELAY`), where that can be set; a
    /// read waits for the peer 60 seconds at most, and a write a quarter of a second. Errors: those of setting how long these wait.
    pub fn open(stream: T, silence: Silence) -> io::Result<TcpLink<T>>
        ensures { IfOk result (λ link. link ≡ record { stream = stream; silence = silence; over = false; faults = 0 }) }
    {
        let _ = stream.set_nodelay(true);
        stream.set_read_timeout(Some(Duration::from_millis(PATIENCE)))?;
        stream.set_write_timeout(Some(Duration::from_millis(WRITE_PATIENCE)))?;
        Ok(TcpLink::new(stream, silence))
    }

    /// Says to the peer that no more comes (`shutdown` with `SHUT_WR`, POSIX.1-2017), and gives the stream, so that what the
    /// peer still sends can be read before it is closed; or closes it, where that fails.
    pub fn shut(self) -> Option<T> {
        let stream = self.stream;
        match stream.shutdown(Shutdown::Write) {
            Ok(()) => Some(stream),
            Err(_) => None,
        }
    }
}

impl<T: AsRawFd> TcpLink<T> {
    /// The number of the connection's socket, by which a door or a dial waits for it.
    pub fn socket(&self) -> RawFd {
        self.stream.as_raw_fd()
    }
}

impl<T: OpenStream> TcpLink<T> {
    /// Hears no more of the peer (`shutdown` with `SHUT_RD`, POSIX.1-2017): the takes behind it give what had come and
    /// then the end, and none waits. An error of this is no fault.
    pub fn hush(&self) {
        let _ = self.stream.shutdown(Shutdown::Read);
    }
}

impl<T: Read + OpenStream + Drop> TcpLink<T> {
    /// Says to the peer that no more comes, and closes the link. Before it is closed what the peer still sends is read
    /// and dropped, until the peer ends, fails or is silent for a second, or 64 reads of at most 16 KiB are done: a
    /// connection that is closed over bytes that weren't read is reset (RFC 9293, 3.6.1), and the peer may lose what it
    /// was sent last (RFC 9112, 9.6). Errors of this are no faults.
    pub fn finish(self) {
        let Some(mut stream) = self.shut() else {
            return;
        };
        let patience = Duration::from_secs(LAST_PATIENCE);
        if stream.set_read_timeout(Some(patience)).is_err() {
            return;
        }
        let mut buf = [0; 16_384];
        for _ in 0..LAST_READS {
            match read_on(&mut stream, &mut buf) {
                Ok(size) if size > 0 => {}
                _ => return,
            }
        }
    }
}

impl<T: Read> Source for TcpLink<T> {
    ghost source = { tcp_hearing T.remaining };

    ghost rests = { λ s. hears_rests T.remaining s };

    ghost joins = { λ a b c u v. hears_joins T.remaining a b c u v };

    /// One read, begun anew where it is interrupted. A link that is over gives nothing at once, and so does a buffer
    /// without room. Where the peer is silent for 60 seconds the link is over, or it is a fault, as the link was made;
    /// any other error of the stream is a fault, and so is a peer that is late, of which nothing more is read.
    fn take(&mut self, buf: &mut [u8]) -> Result<usize, Failed>
        ensures within { IfOk result (λ n. n ≤ length buf.new) }
        ensures took { IfOk result (λ n. Took (take n buf.new) (through (tcp_hearing T.remaining) self.old self.new)) }
        ensures end { IfOk result (λ n. n ≡ 0 → 0 < length buf.new
            → Ended (through (tcp_hearing T.remaining) self.old self.new)) }
        ensures quiet { OnOk result (InputQuiet (through (tcp_hearing T.remaining) self.old self.new)) }
        ensures err_untaken { OnErr result (Untaken (through (tcp_hearing T.remaining) self.old self.new)) }
        ensures err_rose { OnErr result (InputRose (through (tcp_hearing T.remaining) self.old self.new)) }
        ensures err_counted { OnErr result (self.old.faults ≤ self.new.faults) }

        // Nothing is read where the link is over, or into a buffer without room.
        ensures over { self.old.over ≡ true → (result ≡ Ok 0) × (self.new ≡ self.old) }
        ensures no_room { length buf.new ≡ 0 → (result ≡ Ok 0) × (self.new ≡ self.old) }

        // A link becomes over where a buffer that has room is given nothing alone; where silence is a fault, the stream
        // is at its end then.
        ensures ends { IfOk result (λ n. self.new.over ≡ true → self.old.over ≡ false
            → (n ≡ 0) × (0 < length buf.new)) }
        ensures at_end { IfOk result (λ n. n ≡ 0 → 0 < length buf.new → self.old.over ≡ false
            → self.old.silence ≡ Silence.Fails → IsAtEnd (T.remaining self.new.stream)) }
        ensures err_over { OnErr result (self.new.over ≡ self.old.over) }
        ensures err_count { OnErr result (self.new.faults ≡ counted self.old.faults) }
    {
        if self.over || buf.is_empty() {
            return Ok(0);
        }
        if self.is_late() {
            return Err(self.fault());
        }
        let read = read_on(&mut self.stream, buf);
        self.judge(read)
    }
}

impl<T: Write> Sink for TcpLink<T> {
    ghost sink = { tcp_saying T.contents };

    ghost rests = { λ s. says_rests T.contents s };

    ghost joins = { λ a b c u v. says_joins T.contents a b c u v };

    /// One write, begun anew where it is interrupted, and where the peer's system took no byte of it for a quarter of a second,
    /// until it took none for 60 seconds. Any other error of the stream is a fault, and so is a write that takes nothing of a
    /// piece that isn't empty, and a peer that has been taking the reply too slowly, to which nothing more is written.
    fn put(&mut self, bytes: &[u8]) -> Result<usize, Failed>
        ensures within { IfOk result (λ n. n ≤ length bytes.now) }
        ensures moves { IfOk result (λ n. 0 < length bytes.now → 0 < n) }
        ensures put { IfOk result (λ n. Put (take n bytes.now) (into (tcp_saying T.contents) self.old self.new)) }
        ensures quiet { OnOk result (OutputQuiet (into (tcp_saying T.contents) self.old self.new)) }
        ensures err_unput { OnErr result (Unput (into (tcp_saying T.contents) self.old self.new)) }
        ensures err_rose { OnErr result (OutputRose (into (tcp_saying T.contents) self.old self.new)) }
        ensures err_counted { OnErr result (self.old.faults ≤ self.new.faults) }

        ensures err_count { OnErr result (self.new.faults ≡ counted self.old.faults) }
    {
        let began = monotonic_millis();
        let patience = self.put_patience(began);
        if patience == 0 {
            return Err(self.fault());
        }
        match write_patiently(&mut self.stream, bytes, patience) {
            Ok(n) if n > 0 || bytes.is_empty() => {
                self.count_replied(n, n == bytes.len(), began);
                Ok(n)
            }
            _ => Err(self.fault()),
        }
    }
}

impl<T: Read + Write> Link for TcpLink<T> {
    ghost link = { tcp_link };

    ghost hears = { λ a b bytes t. record { left = refl; heard = refl; said = refl; over = t.over; ended = λ was is. tt } };

    ghost says = { λ a b bytes t. record { said = refl; left = refl; heard = refl; over = t.over } };

    ghost ends = { λ s over. over };

    ghost one_count = { λ s. refl };
}

/// One write, begun anew where it is interrupted, and where nothing was taken of it for as long as a write waits, until so many
/// milliseconds have passed. Errors: those of the writer, those of a write that waited among them, and `TimedOut` where nothing
/// was taken of 256 writes.
fn write_patiently<W: Write>(writer: &mut W, bytes: &[u8], millis: u64) -> io::Result<usize>
    ensures within { WritesAtMost result bytes.now }
    ensures bytes { WriteAppends (W.contents writer.old) (W.contents writer.new) result bytes.now }
{
    let began = monotonic_millis();
    for _ in 0..WRITES {
        match write_on(writer, bytes) {
            Err(e) if is_silence(&e) && monotonic_millis().saturating_sub(began) < millis => {}
            written => return written,
        }
    }
    Err(io::Error::from(ErrorKind::TimedOut))
}

/// Whether the error says that the peer gave, or took, nothing for as long as a read, or a write, waits (`SO_RCVTIMEO`,
/// `SO_SNDTIMEO`, POSIX.1-2017, 2.10.16): `EAGAIN`, or `ETIMEDOUT`.
fn is_silence(e: &io::Error) -> bool
    ensures { IsTrue result ↔ IsSilence (error_kind e.now) }
{
    matches!(e.kind(), ErrorKind::WouldBlock | ErrorKind::TimedOut)
}

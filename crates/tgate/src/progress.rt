//! What a terminal shows beside out and the line of a refusal: the line of progress of a command, where help is, why no
//! connection came or why it failed, what the head of a refused reply shows, which peer of a swarm was refused, and which entry of a
//! folder couldn't be read, or made.
use crate::exchange::Broken;
use std::cell::Cell;
use std::env::Args;
use std::io;
use std::io::{IsTerminal, Write};
use std::marker::Model;
use std::rt::HostRuntime;
use std::time::{Duration, Instant};
use tg_app::{FetchFault, SwarmTold, SwarmWatch, Told, Watch, fetch_word};
use tg_bytes::Bytes;
use tg_faults::Failed;
use tg_files::Pack;
use tg_streams::{Sink, Source};

/// How many milliseconds the line stands at least before it is rewritten.
const PAUSE: u64 = 100;

/// Where help is, behind the line that says that words are no command.
const HINT: &[u8] = b"tgate help says which words there are\n";

/// What takes the line away: the cursor goes to its front, and what is behind that is erased (ECMA-48, 8.3.41).
const CLEARED: &[u8] = b"\r\x1b[K";

/// The bytes that the line of a command counts, where it isn't told how far the command has come.
#[derive(Clone, Copy, Debug, PartialEq, Eq)]
pub enum Counted {
    /// Those of the input, for `verify`.
    Taken,
    /// Those of out, for `export`.
    Put,
    /// Those of the pack, for `import`.
    Packed,
}

/// One line that says on the host's err how far a command has come, where err is a terminal and out isn't, since on one
/// screen the line would take away what was written before it: it comes 100 milliseconds after the program's start at the
/// earliest, is rewritten at most ten times a second, and is taken away before the line of a refusal, and when the command has
/// ended.
///
/// It is no part of what the program answers: where the clock can't be read, memory is wanted or a write fails, there is no
/// line, and nothing else changes.
#[derive(Drop)]
pub struct Progress {
    rt: HostRuntime,
    counts: Option<Counted>,
    bytes: Cell<u64>,
    /// When the line was written last, or else when it may be counted from; none where there is to be none.
    since: Cell<Option<Instant>>,
    is_written: Cell<bool>,
}

impl Progress {
    /// The progress of the command that these arguments name, the first of which is the program's name.
    pub fn new(rt: HostRuntime, args: io::Result<Args>) -> Progress {
        let since = if rt.stderr().is_terminal() && !rt.stdout().is_terminal() {
            Instant::now(&rt).ok()
        } else {
            None
        };
        Progress {
            rt,
            counts: counted_of(args),
            bytes: Cell::new(0),
            since: Cell::new(since),
            is_written: Cell::new(false),
        }
    }

    /// Says where help is, where err is a terminal.
    pub fn hint(&self) {
        if self.rt.stderr().is_terminal() {
            let _ = self.rt.stderr().write_all(HINT);
        }
    }

    /// Says this line, where err is a terminal and there is one.
    pub fn tell(&self, line: Option<Bytes>) {
        if let Some(line) = line {
            if self.rt.stderr().is_terminal() {
                self.say(line.as_slice());
            }
        }
    }

    /// Says why no connection came to the peer that was dialled, or else why the one that came failed, where err is a terminal and
    /// there is a reason.
    pub fn tell_why(&self, why: Option<io::Error>, broken: Option<Broken>) {
        if !self.rt.stderr().is_terminal() {
            return;
        }
        let alloc = self.rt.alloc();
        let line = match (why, broken) {
            (Some(why), _) => format!(in alloc; "no connection: {why}\n"),
            (None, Some(Broken::Told(why))) => format!(in alloc; "connection failed: {why}\n"),
            (None, Some(Broken::Silent)) => format!(in alloc;
                "connection failed: nothing came for 60 seconds\n"
            ),
            (None, None) => return,
        };
        if let Ok(line) = line {
            self.say(line.as_bytes());
        }
    }

    /// Says which peer of a swarm was refused, and for what, where err is a terminal and out isn't.
    fn tell_refused(&self, addr: &str, fault: FetchFault) {
        if !self.rt.stderr().is_terminal() || self.rt.stdout().is_terminal() {
            return;
        }
        self.clear();
        self.say(b"peer ");
        self.say(addr.as_bytes());
        self.say(b" refused: ");
        self.say(fetch_word(fault));
        self.say(b"\n");
    }

    /// Writes to the host's err.
    fn say(&self, text: &[u8]) {
        let _ = self.rt.stderr().write_all(text);
    }

    /// Says of which entry of the folder something can't be done, where err is a terminal and there is one.
    pub fn tell_entry(&self, path: Option<Bytes>, done: &[u8]) {
        let Some(path) = path else {
            return;
        };
        if !self.rt.stderr().is_terminal() {
            return;
        }
        for part in [b"FOLDER", path.as_slice(), b" can't be ", done, b"\n"] {
            let _ = self.rt.stderr().write_all(part);
        }
    }

    /// Takes the line away, where there is one.
    pub fn clear(&self) {
        if self.is_written.replace(false) {
            let _ = self.rt.stderr().write_all(CLEARED);
        }
    }

    /// So many more bytes were moved, of these.
    fn count(&self, counted: Counted, size: usize) {
        if self.counts != Some(counted) {
            return;
        }
        let bytes = self.bytes.get().saturating_add(size as u64);
        self.bytes.set(bytes);
        if !self.is_due() {
            return;
        }
        if let Ok(line) = format!(in self.rt.alloc(); "\r{bytes} bytes\x1b[K") {
            self.write(line.as_bytes());
        }
    }

    /// Whether the line is to be written now, from when on it stands.
    fn is_due(&self) -> bool {
        let Some(since) = self.since.get() else {
            return false;
        };
        let Ok(now) = Instant::now(&self.rt) else {
            return false;
        };
        if now.duration_since(since) < Duration::from_millis(PAUSE) {
            return false;
        }
        self.since.set(Some(now));
        true
    }

    /// Writes the line.
    fn write(&self, line: &[u8]) {
        self.is_written.set(true);
        let _ = self.rt.stderr().write_all(line);
    }
}

/// Which bytes are counted of the command that these arguments name.
fn counted_of(args: io::Result<Args>) -> Option<Counted> {
    let mut words = args.ok()?.skip(1);
    let command = words.next()?;
    match command.as_str() {
        "verify" => Some(Counted::Taken),
        "export" => Some(Counted::Put),
        "import" => Some(Counted::Packed),
        _ => None,
    }
}

/// Who is told how far a `fetch`, a `mirror` or a `swarm` has come, and which peers a `swarm` refused.
#[derive(Drop)]
pub struct Watching<'a> {
    pub progress: &'a Progress,
}

impl Watch for Watching<'_> {
    fn told(&mut self, told: Told) {
        if !self.progress.is_due() {
            return;
        }
        let Told { bytes, blocks } = told;
        if let Ok(line) = format!(in self.progress.rt.alloc();
            "\r{bytes} bytes, {blocks} blocks\x1b[K"
        ) {
            self.progress.write(line.as_bytes());
        }
    }

    fn ended(&mut self) {
        self.progress.clear();
    }
}

impl SwarmWatch for Watching<'_> {
    fn went(&mut self, told: SwarmTold) {
        let SwarmTold {
            bytes,
            total: Some(total),
            busy,
        } = told
        else {
            return;
        };
        if !self.progress.is_due() {
            return;
        }
        if let Ok(line) = format!(in self.progress.rt.alloc();
            "\r{bytes} of {total} bytes, {busy} peers\x1b[K"
        ) {
            self.progress.write(line.as_bytes());
        }
    }

    fn refused(&mut self, addr: &str, fault: FetchFault) {
        self.progress.tell_refused(addr, fault);
    }
}

/// A source, a sink or a pack of which it is shown how many bytes are moved: one that does and means what the inner one does.
#[derive(Drop)]
pub struct Shown<'a, T> {
    inner: T,
    progress: &'a Progress,
    counted: Counted,
}

impl<'a, T> Model for Shown<'a, T> {
    ghost Value = { T };

    ghost view = { λ s. s.inner };
}

impl<'a, T> Shown<'a, T> {
    /// This one, whose bytes are counted where the command's line counts such.
    pub fn new(inner: T, progress: &'a Progress, counted: Counted) -> Shown<'a, T> {
        Shown {
            inner,
            progress,
            counted,
        }
    }
}

impl<S: Source> Source for Shown<'_, S> {
    ghost source = { S.source };

    ghost rests = { λ s. S.rests s };

    ghost joins = { λ a b c u v. S.joins a b c u v };

    fn take(&mut self, buf: &mut [u8]) -> Result<usize, Failed> {
        let size = self.inner.take(buf)?;
        self.progress.count(self.counted, size);
        Ok(size)
    }
}

impl<S: Sink> Sink for Shown<'_, S> {
    ghost sink = { S.sink };

    ghost rests = { λ s. S.rests s };

    ghost joins = { λ a b c u v. S.joins a b c u v };

    fn put(&mut self, bytes: &[u8]) -> Result<usize, Failed> {
        let size = self.inner.put(bytes)?;
        self.progress.count(self.counted, size);
        Ok(size)
    }
}

impl<P: Pack> Pack for Shown<'_, P> {
    ghost pack = { P.pack };

    ghost rests = { λ s. P.rests s };

    ghost joins = { λ a b c u v. P.joins a b c u v };

    fn attach(&mut self, path: &str, fresh: bool) -> Result<(), Failed> {
        self.inner.attach(path, fresh)
    }

    fn size(&mut self) -> Result<u64, Failed> {
        self.inner.size()
    }

    fn read_at(&mut self, offset: u64, buf: &mut [u8]) -> Result<usize, Failed> {
        self.inner.read_at(offset, buf)
    }

    fn write_at(&mut self, offset: u64, bytes: &[u8]) -> Result<(), Failed> {
        self.inner.write_at(offset, bytes)
    }

    fn append(&mut self, bytes: &[u8]) -> Result<(), Failed> {
        self.inner.append(bytes)?;
        self.progress.count(self.counted, bytes.len());
        Ok(())
    }
}

/// A sink before whose bytes the line is taken away: the program's err.
#[derive(Drop)]
pub struct Clearing<'a, S> {
    pub inner: S,
    pub progress: &'a Progress,
}

impl<'a, S> Model for Clearing<'a, S> {
    ghost Value = { S };

    ghost view = { λ s. s.inner };
}

impl<S: Sink> Sink for Clearing<'_, S> {
    ghost sink = { S.sink };

    ghost rests = { λ s. S.rests s };

    ghost joins = { λ a b c u v. S.joins a b c u v };

    fn put(&mut self, bytes: &[u8]) -> Result<usize, Failed> {
        self.progress.clear();
        self.inner.put(bytes)
    }
}

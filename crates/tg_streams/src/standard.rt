//! Sources and sinks over std's readers and writers, such as the standard streams.
ghost use Rattle.std.specs.Prelude.{◌≡◌, ◌≢◌, IfErr, None};
ghost use Rattle.std.specs.IoError.{error_kind};
ghost use Rattle.std.specs.Io.{ReadsAtMost, WritesAtMost};
ghost use Rattle.std.specs.Io.KnownBytes.{Appends, Consumes, IsAtEnd, ReadConsumes, WriteAppends};
ghost use Rattle.tg_streams.specs.Known.{consumes_nothing, consumes_joins, appends_nothing, appends_joins};

use crate::sinks::Sink;
use crate::sources::Source;
use std::io;
use std::io::{ErrorKind, Read, Write};
use std::marker::Model;
use tg_faults::Failed;

/// A source over a reader. Its bytes aren't told; what the reader itself knows of them is in `took` and `at_end`.
#[derive(Drop)]
pub struct StdSource<R> {
    reader: R,
    faults: u64,
}

impl<R> Model for StdSource<R> {
    ghost use Rattle.tg_streams.specs.Known.{StdSourceState};

    ghost Value = { StdSourceState R };

    ghost view = { λ s. record { reader = s.reader; faults = s.faults } };
}

impl<R> StdSource<R> {
    /// A source over this reader, with no fault counted.
    pub fn new(reader: R) -> StdSource<R>
        ensures { result ≡ record { reader = reader; faults = 0 } }
    {
        StdSource { reader, faults: 0 }
    }

    /// How many calls failed.
    pub fn count(&self) -> u64
        ensures { result ≡ self.now.faults }
    {
        self.faults
    }
}

impl<R: Read> Source for StdSource<R> {
    ghost source = { record {
      left = λ _. None;
      at_end = λ s. IsAtEnd (R.remaining s.reader);
      faults = λ s. s.faults;
      calls = λ _. None;
      took = λ a b bytes. Consumes (R.remaining a.reader) (R.remaining b.reader) bytes;
    } };

    ghost rests = { λ s. consumes_nothing (R.remaining s.reader) };

    ghost joins = { λ a b c u v. consumes_joins
        (R.remaining a.reader) (R.remaining b.reader) (R.remaining c.reader) u v };

    /// One read, begun anew where it is interrupted. Any other error of the reader is counted.
    fn take(&mut self, buf: &mut [u8]) -> Result<usize, Failed> {
        match read_on(&mut self.reader, buf) {
            Ok(n) => Ok(n),
            Err(_) => {
                self.faults = self.faults.saturating_add(1);
                Err(Failed)
            }
        }
    }
}

/// A sink over a writer. Its bytes aren't told; what the writer itself knows of them is in `wrote`.
#[derive(Drop)]
pub struct StdSink<W> {
    writer: W,
    faults: u64,
}

impl<W> Model for StdSink<W> {
    ghost use Rattle.tg_streams.specs.Known.{StdSinkState};

    ghost Value = { StdSinkState W };

    ghost view = { λ s. record { writer = s.writer; faults = s.faults } };
}

impl<W> StdSink<W> {
    /// A sink over this writer, with no fault counted.
    pub fn new(writer: W) -> StdSink<W>
        ensures { result ≡ record { writer = writer; faults = 0 } }
    {
        StdSink { writer, faults: 0 }
    }

    /// How many calls failed.
    pub fn count(&self) -> u64
        ensures { result ≡ self.now.faults }
    {
        self.faults
    }
}

impl<W: Write> Sink for StdSink<W> {
    ghost sink = { record {
      held = λ _. None;
      faults = λ s. s.faults;
      calls = λ _. None;
      wrote = λ a b bytes. Appends (W.contents a.writer) (W.contents b.writer) bytes;
    } };

    ghost rests = { λ s. appends_nothing (W.contents s.writer) };

    ghost joins = { λ a b c u v. appends_joins (W.contents a.writer) (W.contents b.writer) (W.contents c.writer) u v };

    /// One write, begun anew where it is interrupted. Any other error of the writer is counted, and so is a write that
    /// takes nothing of a piece that isn't empty.
    fn put(&mut self, bytes: &[u8]) -> Result<usize, Failed> {
        match write_on(&mut self.writer, bytes) {
            Ok(n) if n > 0 || bytes.is_empty() => Ok(n),
            _ => {
                self.faults = self.faults.saturating_add(1);
                Err(Failed)
            }
        }
    }
}

/// One read, begun anew where it is interrupted (POSIX.1-2017, `read`). Errors: those of the reader but an
/// interruption, and `TimedOut` where each of 2 ^ 64 - 1 reads was interrupted.
pub fn read_on<R: Read>(reader: &mut R, buf: &mut [u8]) -> io::Result<usize>
    ensures within { ReadsAtMost result buf.new }
    ensures bytes { ReadConsumes (R.remaining reader.old) (R.remaining reader.new) result buf.new }
    ensures anew { IfErr result (λ e. error_kind e ≢ ErrorKind.Interrupted) }
{
    for _ in 0..u64::MAX {
        match reader.read(buf) {
            Err(e) if e.kind() == ErrorKind::Interrupted => {}
            read => return read,
        }
    }
    Err(io::Error::from(ErrorKind::TimedOut))
}

/// One write, begun anew where it is interrupted (POSIX.1-2017, `write`). Errors: those of the writer but an
/// interruption, and `TimedOut` where each of 2 ^ 64 - 1 writes was interrupted.
pub fn write_on<W: Write>(writer: &mut W, bytes: &[u8]) -> io::Result<usize>
    ensures within { WritesAtMost result bytes.now }
    ensures bytes { WriteAppends (W.contents writer.old) (W.contents writer.new) result bytes.now }
    ensures anew { IfErr result (λ e. error_kind e ≢ ErrorKind.Interrupted) }
{
    for _ in 0..u64::MAX {
        match writer.write(bytes) {
            Err(e) if e.kind() == ErrorKind::Interrupted => {}
            written => return written,
        }
    }
    Err(io::Error::from(ErrorKind::TimedOut))
}

//! Sources and sinks over std's readers and writers that always tell their bytes, as those in memory do.
ghost use Rattle.std.specs.Prelude.{None, Some};
ghost use Rattle.std.specs.Io.KnownBytes.{Appends, Consumes, IsAtEnd};
ghost use Rattle.tg_streams.specs.Known.{IsTold, appends_joins, appends_nothing, consumes_joins, consumes_nothing};

use crate::sinks::Sink;
use crate::sources::Source;
use crate::standard::{StdSink, StdSource};
use std::io::{Read, Write};
use tg_faults::Failed;

/// A reader each of whose values tells the bytes that its reads will give.
///
/// std lets a reader tell nothing before a read and its bytes behind it, so that a source over any reader can't say
/// what is left.
pub trait Tells: Read {
    ghost tells: { (s : Self) → IsTold (Self.Read.remaining s) };
}

impl Tells for &[u8] {
    ghost tells = { λ _. tt };
}

/// A writer each of whose values tells the bytes that it holds.
pub trait Holds: Write {
    ghost holds: { (s : Self) → IsTold (Self.Write.contents s) };
}

impl Holds for Vec<u8> {
    ghost holds = { λ _. tt };
}

/// A source over a reader that tells its bytes: what is left is what the reader tells.
#[derive(Drop)]
pub struct ToldSource<R> {
    /// The source over the reader.
    pub source: StdSource<R>,
}

impl<R: Tells> Source for ToldSource<R> {
    ghost source = { record {
      left = λ s. R.Read.remaining s.source.reader;
      at_end = λ s. IsAtEnd (R.Read.remaining s.source.reader);
      faults = λ s. s.source.faults;
      calls = λ _. None;
      took = λ a b bytes. Consumes (R.Read.remaining a.source.reader) (R.Read.remaining b.source.reader) bytes;
    } };

    ghost rests = { λ s. consumes_nothing (R.Read.remaining s.source.reader) };

    ghost joins = { λ a b c u v.
        consumes_joins (R.Read.remaining a.source.reader) (R.Read.remaining b.source.reader)
        (R.Read.remaining c.source.reader) u v };

    /// One read, as the source over the reader makes it.
    #[tactic(auto, using(crate::proofs::ToldBytes::took, crate::proofs::ToldBytes::ended, crate::proofs::ToldBytes::untaken))]
    fn take(&mut self, buf: &mut [u8]) -> Result<usize, Failed> {
        self.source.take(buf)
    }
}

/// A sink over a writer that tells its bytes: what is held is what the writer tells.
#[derive(Drop)]
pub struct ToldSink<W> {
    /// The sink over the writer.
    pub sink: StdSink<W>,
}

impl<W: Holds> Sink for ToldSink<W> {
    ghost sink = { record {
      held = λ s. W.Write.contents s.sink.writer;
      faults = λ s. s.sink.faults;
      calls = λ _. None;
      wrote = λ a b bytes. Appends (W.Write.contents a.sink.writer) (W.Write.contents b.sink.writer) bytes;
    } };

    ghost rests = { λ s. appends_nothing (W.Write.contents s.sink.writer) };

    ghost joins = { λ a b c u v.
        appends_joins (W.Write.contents a.sink.writer) (W.Write.contents b.sink.writer)
        (W.Write.contents c.sink.writer) u v };

    /// One write, as the sink over the writer makes it.
    #[tactic(auto, using(crate::proofs::ToldBytes::put, crate::proofs::ToldBytes::unput))]
    fn put(&mut self, bytes: &[u8]) -> Result<usize, Failed> {
        self.sink.put(bytes)
    }
}

//! Sources and sinks in memory, which fail at the calls that they are given.
ghost use Rattle.std.specs.Prelude.{◌≡◌, ◌<◌, ◌≤◌, ◌↔◌, min, List, [], length, take, drop, option_map, IsErr, Contains};
ghost use Rattle.std.specs.Prelude.{OnErr, OnOk, IfOk};
ghost use Rattle.tg_faults.specs.Faults.{counted};
ghost use Rattle.tg_streams.specs.Streams.{Ended, InputQuiet, InputRose, OutputQuiet, OutputRose, Put, Took, Unput};
ghost use Rattle.tg_streams.specs.Streams.{Untaken, into, through};
ghost use Rattle.tg_streams.specs.Memory.{mem_source, mem_sink, source_rests, source_joins, sink_rests, sink_joins};

use crate::sinks::Sink;
use crate::sources::Source;
use std::alloc::Global;
use std::marker::Model;
use tg_bytes::{Bytes, List};
use tg_faults::{Calls, Failed};

/// A source over bytes in memory. It fails at the calls whose numbers it was given.
#[derive(Drop)]
pub struct MemSource {
    bytes: Bytes,
    at: usize,
    piece: usize,
    calls: Calls,
}

impl Model for MemSource {
    ghost use Rattle.std.specs.Prelude.{◌<◌, ◌≤◌, drop, length};
    ghost use Rattle.tg_streams.specs.Memory.{SourceState};

    ghost Value = { SourceState };

    ghost view = { λ s. record {
      rest = drop s.at s.bytes;
      piece = s.piece;
      fails = s.calls.fails;
      calls = s.calls.made;
      faults = s.calls.faults;
    } };

    ghost invariant = { λ s. (s.at ≤ length s.bytes) × (0 < s.piece) };
}

impl MemSource {
    /// A source of these bytes, of which one take moves at most `piece`, which is at least 1. The calls whose numbers
    /// stand in `fails`, counted from 0, fail.
    pub fn new(bytes: Bytes, piece: usize, fails: List<u64>) -> MemSource
        requires { 0 < piece }
        ensures { result ≡ record { rest = bytes; piece = piece; fails = fails; calls = 0; faults = 0 } }
    {
        MemSource::with_calls(bytes, piece, Calls::new(fails))
    }

    /// The same, whose takes are the calls that follow those already made.
    pub fn with_calls(bytes: Bytes, piece: usize, calls: Calls) -> MemSource
        requires { 0 < piece }
        ensures { result ≡ record
            { rest = bytes; piece = piece; fails = calls.fails; calls = calls.made; faults = calls.faults } }
    {
        MemSource {
            bytes,
            at: 0,
            piece,
            calls,
        }
    }

    /// What is left.
    pub fn left(&self) -> &[u8]
        ensures { result.now ≡ self.now.rest }
    {
        &self.bytes.as_slice()[self.at..]
    }

    /// How many calls failed.
    pub fn count(&self) -> u64
        ensures { result ≡ self.now.faults }
    {
        self.calls.faults
    }
}

impl Source for MemSource {
    ghost source = { mem_source };

    ghost rests = { λ s. source_rests s };

    ghost joins = { λ a b c u v. source_joins a b c u v };

    /// Takes as many bytes as the piece, the buffer and the rest allow. It fails exactly where the call's number stands
    /// in the list that it was given.
    fn take(&mut self, buf: &mut [u8]) -> Result<usize, Failed>
        ensures within { IfOk result (λ n. n ≤ length buf.new) }
        ensures took { IfOk result (λ n. Took (take n buf.new) (through mem_source self.old self.new)) }
        ensures end { IfOk result (λ n. n ≡ 0 → 0 < length buf.new → Ended (through mem_source self.old self.new)) }
        ensures quiet { OnOk result (InputQuiet (through mem_source self.old self.new)) }
        ensures call { mem_source.calls self.new ≡ option_map counted (mem_source.calls self.old) }
        ensures err_untaken { OnErr result (Untaken (through mem_source self.old self.new)) }
        ensures err_rose { OnErr result (InputRose (through mem_source self.old self.new)) }
        ensures err_counted { OnErr result (self.old.faults ≤ self.new.faults) }

        ensures fails { IsErr result ↔ Contains self.old.fails self.old.calls }
        ensures amount { IfOk result (λ n. n ≡ min (min self.old.piece (length buf.new)) (length self.old.rest)) }
        ensures others { IfOk result (λ n. drop n buf.new ≡ drop n buf.old) }
        ensures err_buffer { OnErr result (buf.new ≡ buf.old) }
        ensures err_count { OnErr result (self.new.faults ≡ counted self.old.faults) }
    {
        self.calls.next()?;
        let rest = &self.bytes.as_slice()[self.at..];
        let n = self.piece.min(buf.len()).min(rest.len());
        buf[..n].copy_from_slice(&rest[..n]);
        self.at += n;
        Ok(n)
    }
}

/// A sink that holds in memory what is put into it. It fails at the calls whose numbers it was given.
#[derive(Drop)]
pub struct MemSink {
    content: Bytes,
    piece: usize,
    calls: Calls,
}

impl Model for MemSink {
    ghost use Rattle.std.specs.Prelude.{◌<◌};
    ghost use Rattle.tg_streams.specs.Memory.{SinkState};

    ghost Value = { SinkState };

    ghost view = { λ s. record {
      content = s.content;
      piece = s.piece;
      fails = s.calls.fails;
      calls = s.calls.made;
      faults = s.calls.faults;
    } };

    ghost invariant = { λ s. 0 < s.piece };
}

impl MemSink {
    /// An empty sink, into which one put moves at most `piece` bytes, which is at least 1. The calls whose numbers
    /// stand in `fails`, counted from 0, fail.
    pub fn new(alloc: Global, piece: usize, fails: List<u64>) -> MemSink
        requires { 0 < piece }
        ensures { result ≡ record { content = []; piece = piece; fails = fails; calls = 0; faults = 0 } }
    {
        MemSink::with_calls(alloc, piece, Calls::new(fails))
    }

    /// The same, whose puts are the calls that follow those already made.
    pub fn with_calls(alloc: Global, piece: usize, calls: Calls) -> MemSink
        requires { 0 < piece }
        ensures { result ≡ record
            { content = []; piece = piece; fails = calls.fails; calls = calls.made; faults = calls.faults } }
    {
        MemSink::onto(Bytes::new(alloc), piece, calls)
    }

    /// A sink that holds these bytes, behind which the same is put; room that they have is used for it.
    pub fn onto(content: Bytes, piece: usize, calls: Calls) -> MemSink
        requires { 0 < piece }
        ensures { result ≡ record
            { content = content; piece = piece; fails = calls.fails; calls = calls.made; faults = calls.faults } }
    {
        MemSink {
            content,
            piece,
            calls,
        }
    }

    /// What was put so far.
    pub fn held(&self) -> &[u8]
        ensures { result.now ≡ self.now.content }
    {
        self.content.as_slice()
    }

    /// What was put, all of it.
    pub fn into_bytes(self) -> Bytes
        ensures { result ≡ self.content }
    {
        self.content
    }

    /// How many calls failed.
    pub fn count(&self) -> u64
        ensures { result ≡ self.now.faults }
    {
        self.calls.faults
    }
}

impl Sink for MemSink {
    ghost sink = { mem_sink };

    ghost rests = { λ s. sink_rests s };

    ghost joins = { λ a b c u v. sink_joins a b c u v };

    /// Puts as many bytes as the piece allows. It fails where the call's number stands in the list that it was given,
    /// and for want of memory alone besides.
    fn put(&mut self, bytes: &[u8]) -> Result<usize, Failed>
        ensures within { IfOk result (λ n. n ≤ length bytes.now) }
        ensures moves { IfOk result (λ n. 0 < length bytes.now → 0 < n) }
        ensures put { IfOk result (λ n. Put (take n bytes.now) (into mem_sink self.old self.new)) }
        ensures quiet { OnOk result (OutputQuiet (into mem_sink self.old self.new)) }
        ensures call { mem_sink.calls self.new ≡ option_map counted (mem_sink.calls self.old) }
        ensures err_unput { OnErr result (Unput (into mem_sink self.old self.new)) }
        ensures err_rose { OnErr result (OutputRose (into mem_sink self.old self.new)) }
        ensures err_counted { OnErr result (self.old.faults ≤ self.new.faults) }

        ensures fails { Contains self.old.fails self.old.calls → IsErr result }
        ensures amount { IfOk result (λ n. n ≡ min self.old.piece (length bytes.now)) }
        ensures err_count { OnErr result (self.new.faults ≡ counted self.old.faults) }
    {
        self.calls.next()?;
        let n = self.piece.min(bytes.len());
        if self.content.push_all(&bytes[..n]).is_err() {
            return Err(self.calls.fault());
        }
        Ok(n)
    }
}

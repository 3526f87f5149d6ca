//! What is known of the bytes of a reader over a slice and of a writer into a vector, by the clauses of sources and
//! sinks alone.
ghost use Rattle.std.specs.Prelude.{◌≡◌, ℕ, List, ◌++◌, take, IfOk};

use std::alloc::Global;
use tg_faults::Failed;
use tg_streams::{StdSink, StdSource, ToldSink, ToldSource, put_all, read_front};

/// Reads a front of the bytes.
#[tactic(auto, using(crate::proofs::ToldBytes::told_front))]
fn front_of(bytes: &[u8], buffer: &mut [u8]) -> Result<usize, Failed>
    ensures { IfOk result (λ n. (rest : List ℕ) × (bytes.now ≡ take n buffer.new ++ rest)) }
{
    let mut source = ToldSource {
        source: StdSource::new(bytes),
    };
    read_front(&mut source, buffer)
}

/// Puts bytes behind those that are held.
#[tactic(auto, using(crate::proofs::ToldBytes::told_grown))]
fn put_behind(held: Vec<u8>, bytes: &[u8]) -> Result<ToldSink<Vec<u8>>, Failed>
    ensures { IfOk result (λ sink. sink.sink.writer.items ≡ held.items ++ bytes.now) }
{
    let mut sink = ToldSink {
        sink: StdSink::new(held),
    };
    put_all(&mut sink, bytes)?;
    Ok(sink)
}

/// Whether a front of `hello world` that fills the buffer is read.
fn is_read() -> bool {
    let mut buffer = [0; 5];
    front_of(b"hello world", &mut buffer) == Ok(5) && buffer == *b"hello"
}

/// Whether `hello` is put into a vector.
fn is_put(alloc: Global) -> bool {
    put_behind(Vec::new(alloc), b"hello").is_ok()
}

#[test]
fn bytes_in_memory_are_told(rt: HostRuntime) {
    assert!(rt; is_read() && is_put(rt.alloc()));
}

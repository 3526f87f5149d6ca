//! A sink that drops what is put.
ghost use Rattle.std.specs.Prelude.{◌≡◌, ◌<◌, ◌≤◌, IfOk, Ok, OnErr, OnOk, length, take};
ghost use Rattle.tg_streams.specs.Streams.{OutputQuiet, OutputRose, Put, Unput, dropping, into};

use crate::sinks::Sink;
use tg_faults::Failed;

/// A sink that takes every byte, keeps none and never fails: for a verifier of which the answers alone are asked, or
/// whose sections are kept elsewhere. Its count of faults is 0 always, it doesn't tell what was put, and it takes no memory.
#[derive(Drop)]
pub struct DropSink {}

impl DropSink {
    /// A sink that drops what is put.
    pub fn new() -> DropSink {
        DropSink {}
    }
}

impl Sink for DropSink {
    ghost sink = { dropping };

    ghost rests = { λ _. tt };

    ghost joins = { λ _ _ _ _ _ _ _. tt };

    fn put(&mut self, bytes: &[u8]) -> Result<usize, Failed>
        ensures within { IfOk result (λ n. n ≤ length bytes.now) }
        ensures moves { IfOk result (λ n. 0 < length bytes.now → 0 < n) }
        ensures put { IfOk result (λ n. Put (take n bytes.now) (into dropping self.old self.new)) }
        ensures quiet { OnOk result (OutputQuiet (into dropping self.old self.new)) }
        ensures err_unput { OnErr result (Unput (into dropping self.old self.new)) }
        ensures err_rose { OnErr result (OutputRose (into dropping self.old self.new)) }

        // Every byte is taken.
        ensures all { result ≡ Ok (length bytes.now) }
    {
        Ok(bytes.len())
    }
}

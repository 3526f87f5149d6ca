//! Where bytes go.
ghost use Rattle.std.specs.Prelude.{◌≡◌, ℕ, ◌<◌, ◌≤◌, List, [], ◌++◌, length, take, option_map, IfOk, OnOk, OnErr};
ghost use Rattle.std.specs.List.{flat_map};
ghost use Rattle.tg_faults.specs.Faults.{counted};
ghost use Rattle.tg_streams.specs.Streams.{OutputQuiet, OutputRose, Put, PutFront, SinkMeaning, Unput, into};

use tg_faults::Failed;

/// A stream of bytes that are put at the end.
///
/// Its meaning is one record: `held` is what was put so far, or `None` where that isn't told; `faults` counts the calls
/// that failed and stands still at 2 ^ 64 - 1; `calls` counts the calls that were made, or is `None` where that isn't
/// told; `wrote` relates a value, what it became, and the bytes that went into it meanwhile: it holds the facts that
/// the kind of sink knows of its own bytes.
pub trait Sink {
    ghost sink: { SinkMeaning Self };

    /// Puts a front of the bytes, at least one where there is one, and says how many. The error is a fault of the sink,
    /// which puts nothing.
    fn put(&mut self, bytes: &[u8]) -> Result<usize, Failed>
        ensures within { IfOk result (λ n. n ≤ length bytes.now) }
        ensures moves { IfOk result (λ n. 0 < length bytes.now → 0 < n) }
        ensures put { IfOk result (λ n. Put (take n bytes.now) (into sink self.old self.new)) }
        ensures quiet { OnOk result (OutputQuiet (into sink self.old self.new)) }
        ensures call { sink.calls self.new ≡ option_map counted (sink.calls self.old) }

        // A failed call puts nothing, and its count rose.
        ensures err_unput { OnErr result (Unput (into sink self.old self.new)) }
        ensures err_rose { OnErr result (OutputRose (into sink self.old self.new)) }
        ensures err_counted { OnErr result (sink.faults self.old ≤ sink.faults self.new) };

    // Nothing put relates a value to itself, and one step after another is a step.
    ghost rests: { (s : Self) → sink.wrote s s [] };

    ghost joins: { (a b c : Self) (u v : List ℕ) → sink.wrote a b u → sink.wrote b c v → sink.wrote a c (u ++ v) };
}

/// Puts all of the bytes. The error is a fault of the sink, which then holds a front of them more than before.
pub fn put_all<S: Sink>(sink: &mut S, bytes: &[u8]) -> Result<(), Failed>
    ensures put { OnOk result (Put bytes.now (into S.sink sink.old sink.new)) }
    ensures quiet { OnOk result (OutputQuiet (into S.sink sink.old sink.new)) }

    // A front went in before the call that failed.
    ensures err_front { OnErr result (PutFront bytes.now (into S.sink sink.old sink.new)) }
    ensures err_counted { OnErr result (S.sink.faults sink.old ≤ S.sink.faults sink.new) }
{
    let mut at = 0;
    while at < bytes.len() {
        at += sink.put(&bytes[at..])?;
    }
    Ok(())
}

/// Puts the pieces one after another. The error is a fault of the sink, which then holds a front of them more than
/// before.
pub fn put_pieces<S: Sink>(sink: &mut S, pieces: &[&[u8]]) -> Result<(), Failed>
    ensures put { OnOk result (Put (flat_map (λ piece. piece.now) pieces.now) (into S.sink sink.old sink.new)) }
    ensures quiet { OnOk result (OutputQuiet (into S.sink sink.old sink.new)) }

    ensures err_front { OnErr result (PutFront (flat_map (λ piece. piece.now) pieces.now)
        (into S.sink sink.old sink.new)) }
    ensures err_counted { OnErr result (S.sink.faults sink.old ≤ S.sink.faults sink.new) }
{
    for piece in pieces {
        put_all(sink, piece)?;
    }
    Ok(())
}

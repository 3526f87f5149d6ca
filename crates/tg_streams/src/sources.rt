//! Where bytes come from.
ghost use Rattle.std.specs.Prelude.{◌≡◌, ℕ, ◌<◌, ◌≤◌, List, [], ◌++◌, length, take, option_map, IfOk, OnOk, OnErr};
ghost use Rattle.tg_faults.specs.Faults.{counted};
ghost use Rattle.tg_streams.specs.Streams.{Ended, InputQuiet, InputRose, SourceMeaning, Took, Untaken, through};

use tg_faults::Failed;

/// A stream of bytes that are taken from the front.
///
/// Its meaning is one record: `left` is what is still to come, or `None` where that isn't told; `at_end` says that no
/// byte is to come; `faults` counts the calls that failed and stands still at 2 ^ 64 - 1; `calls` counts the calls that
/// were made, or is `None` where that isn't told; `took` relates a value, what it became, and the bytes that were taken
/// from it meanwhile: it holds the facts that the kind of source knows of its own bytes.
pub trait Source {
    ghost source: { SourceMeaning Self };

    /// Takes bytes into the front of the buffer and says how many: none on a buffer that has room says that the stream
    /// has ended. The error is a fault of the source, which takes nothing.
    fn take(&mut self, buf: &mut [u8]) -> Result<usize, Failed>
        ensures within { IfOk result (λ n. n ≤ length buf.new) }
        ensures took { IfOk result (λ n. Took (take n buf.new) (through source self.old self.new)) }
        ensures end { IfOk result (λ n. n ≡ 0 → 0 < length buf.new → Ended (through source self.old self.new)) }
        ensures quiet { OnOk result (InputQuiet (through source self.old self.new)) }
        ensures call { source.calls self.new ≡ option_map counted (source.calls self.old) }

        // A failed call takes nothing, and its count rose.
        ensures err_untaken { OnErr result (Untaken (through source self.old self.new)) }
        ensures err_rose { OnErr result (InputRose (through source self.old self.new)) }
        ensures err_counted { OnErr result (source.faults self.old ≤ source.faults self.new) };

    // Nothing taken relates a value to itself, and one step after another is a step.
    ghost rests: { (s : Self) → source.took s s [] };

    ghost joins: { (a b c : Self) (u v : List ℕ) → source.took a b u → source.took b c v → source.took a c (u ++ v) };
}

/// One `take` of a source, with the same answers.
pub fn take_piece<I: Source>(source: &mut I, buf: &mut [u8]) -> Result<usize, Failed>
    ensures within { IfOk result (λ n. n ≤ length buf.new) }
    ensures took { IfOk result (λ n. Took (take n buf.new) (through I.source source.old source.new)) }
    ensures end { IfOk result (λ n. n ≡ 0 → 0 < length buf.new → Ended (through I.source source.old source.new)) }
    ensures quiet { OnOk result (InputQuiet (through I.source source.old source.new)) }
    ensures call { I.source.calls source.new ≡ option_map counted (I.source.calls source.old) }

    ensures err_untaken { OnErr result (Untaken (through I.source source.old source.new)) }
    ensures err_rose { OnErr result (InputRose (through I.source source.old source.new)) }
    ensures err_counted { OnErr result (I.source.faults source.old ≤ I.source.faults source.new) }
{
    source.take(buf)
}

/// Reads a source into the front of the buffer until the buffer is full or the source has ended, and says how much was
/// read. The error is a fault of the source.
pub fn read_front<I: Source>(source: &mut I, buffer: &mut [u8]) -> Result<usize, Failed>
    ensures within { IfOk result (λ n. n ≤ length buffer.new) }
    ensures took { IfOk result (λ n. Took (take n buffer.new) (through I.source source.old source.new)) }
    ensures end { IfOk result (λ n. n < length buffer.new → Ended (through I.source source.old source.new)) }
    ensures quiet { OnOk result (InputQuiet (through I.source source.old source.new)) }

    // Some bytes were taken before the call that failed.
    ensures err_took { OnErr result ((bytes : List ℕ) × Took bytes (through I.source source.old source.new)) }
    ensures err_rose { OnErr result (InputRose (through I.source source.old source.new)) }
    ensures err_counted { OnErr result (I.source.faults source.old ≤ I.source.faults source.new) }
{
    let mut filled = 0;
    while filled < buffer.len() {
        let taken = take_piece(source, &mut buffer[filled..])?;
        if taken == 0 {
            break;
        }
        filled += taken;
    }
    Ok(filled)
}

//! Sinks that are told what an answer's path leads to.
ghost use Rattle.std.specs.Prelude.{◌≡◌, ◌++◌, ℕ, List, None, Option, Some, [], IfSome, ⊤};
ghost use Rattle.tg_verify.specs.declared.terminal.Terminal.{Terminal};

use tg_streams::Sink;
use tg_verify::Terminal;

/// Tells a sink what the query's path leads to, once the terminal's block was opened.
///
/// Its meaning: `wrote` relates a sink, what it became, and the bytes that went into it meanwhile, whatever it was told
/// between them; and `knows` says what a sink was told, or that it was told nothing.
pub trait TellTerminal<S: Sink> {
    ghost wrote: { S → S → List ℕ → Type 0 };

    ghost knows: { S → Option Terminal → Type 0 };

    /// Tells it. Nothing is put, and it takes no memory.
    fn tell(&self, terminal: Terminal, out: &mut S)
        ensures wrote { wrote out.old out.new [] }
        ensures held { S.sink.held out.new ≡ S.sink.held out.old }
        ensures faults { S.sink.faults out.new ≡ S.sink.faults out.old }
        // One that was told nothing, or the same, knows it then.
        ensures knows { (told : Option Terminal) → knows out.old told → IfSome told (λ t. t ≡ terminal) → knows out.new (Some terminal) };

    // What is put is written, one step after another is a step, and what is put changes nothing of what is known.
    ghost puts: { (a b : S) (u : List ℕ) → S.sink.wrote a b u → wrote a b u };

    ghost joins: { (a b c : S) (u v : List ℕ) → wrote a b u → wrote b c v → wrote a c (u ++ v) };

    ghost stays: { (a b : S) (u : List ℕ) (told : Option Terminal) → S.sink.wrote a b u → knows a told → knows b told };
}

/// Nothing is told.
#[derive(Clone, Copy, Debug, PartialEq, Eq)]
pub struct Untold;

impl<S: Sink> TellTerminal<S> for Untold {
    ghost wrote = { S.sink.wrote };

    ghost knows = { λ _ _. ⊤ };

    ghost puts = { λ a b u h. h };

    ghost joins = { λ a b c u v. S.joins a b c u v };

    ghost stays = { λ a b u told h k. k };

    fn tell(&self, _terminal: Terminal, _out: &mut S) {}
}

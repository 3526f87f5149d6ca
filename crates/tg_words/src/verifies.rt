//! The command `verify`.

ghost use Rattle.std.specs.Prelude.{◌∷◌, map, string_bytes, codes};
ghost use Rattle.tg_words.specs.Operands.{Answers, Exact, VerifyAsks, givens};

use crate::intos::verify_into;
use crate::operands::{GivenOption, OptionNames, one_operand, value_of};
use crate::queries::query_with;
use crate::{Command, WordsFault};
use std::alloc::Global;

/// The options of `verify`.
const VERIFY_NAMES: OptionNames<'static> = OptionNames {
    valued: &["scope", "bytes", "dups", "into"],
    flags: &[],
};

/// `verify ROOT/PATH [--scope S] [--bytes R] [--dups D]`, or `verify ROOT/PATH --into FOLDER [--dups D]`.
pub fn verify_of(alloc: Global, words: &[String]) -> Result<Command, WordsFault>
    ensures { Answers (codes "verify" ∷ map string_bytes words.now) result }
{
    let (target, options) = one_operand(alloc, words, VERIFY_NAMES)?;
    verify_with(alloc, target, options.as_slice())
}

/// What is verified by a word ROOT/PATH and these options: into a folder where `--into` stands.
fn verify_with(alloc: Global, target: &str, options: &[GivenOption]) -> Result<Command, WordsFault>
    ensures { Exact (VerifyAsks target.now (givens options.now)) result }
{
    if let Some(folder) = value_of(options, "into") {
        let into = verify_into(alloc, target, folder, options)?;
        return Ok(Command::VerifyInto(into));
    }
    let query = query_with(alloc, target, options)?;
    Ok(Command::Verify(query))
}

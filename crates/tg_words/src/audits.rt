//! The command `audit`.

ghost use Rattle.std.specs.Prelude.{◌∷◌, map, string_bytes, codes};
ghost use Rattle.tg_words.specs.Operands.{Answers, AuditGiven, Exact, givens};

use crate::operands::{GivenOption, OptionNames, no_operand, number_needed, value_of};
use crate::{Command, WordsFault};
use std::alloc::Global;
use std::marker::Model;

/// What is audited: the seed from which a folder is drawn, and how many files its folder `many` has.
#[derive(Drop)]
pub struct Audit {
    /// The seed.
    pub seed: u64,
    /// How many files the folder `many` has: 1 to 20,000.
    pub files: u32,
}

impl Model for Audit {
    ghost use Rattle.tg_words.specs.AuditLines.{AuditParts};

    ghost Value = { AuditParts };

    ghost view = { λ a. record { seed = a.seed; files = a.files } };
}

/// `audit --seed N --files N`.
pub fn audit_of(alloc: Global, words: &[String]) -> Result<Command, WordsFault>
    ensures { Answers (codes "audit" ∷ map string_bytes words.now) result }
{
    let names = OptionNames {
        valued: &["seed", "files"],
        flags: &[],
    };
    let options = no_operand(alloc, words, names)?;
    let audit = audit_with(options.as_slice())?;
    Ok(Command::Audit(audit))
}

/// The audit with these options.
fn audit_with(options: &[GivenOption]) -> Result<Audit, WordsFault>
    ensures { Exact (AuditGiven (givens options.now)) result }
{
    let seed = number_needed(value_of(options, "seed"), 0, u64::MAX)?;
    let files = number_needed(value_of(options, "files"), 1, 20_000)?;
    Ok(Audit {
        seed,
        files: files as u32,
    })
}

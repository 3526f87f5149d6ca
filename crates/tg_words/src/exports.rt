//! The command `export`.

ghost use Rattle.std.specs.Prelude.{◌∷◌, map, string_bytes, codes};
ghost use Rattle.tg_words.specs.Operands.{Answers};

use crate::operands::{named, two_operands};
use crate::queries::{QUERY_NAMES, query_with};
use crate::{Command, WordsFault};
use std::alloc::Global;
use std::marker::Model;
use tg_model::Query;

/// What is asked of an export: the path of the pack, and the query.
#[derive(Drop)]
pub struct Export {
    /// The path of the pack, which isn't empty.
    pub pack: String,
    /// The query, for a CAR.
    pub query: Query,
}

impl Model for Export {
    ghost use Rattle.std.specs.Prelude.{string_bytes};
    ghost use Rattle.tg_words.specs.ExportLines.{ExportParts};

    ghost Value = { ExportParts };

    ghost view = { λ e. record { pack = string_bytes e.pack; query = e.query } };
}

/// `export PACK ROOT/PATH [--scope S] [--bytes R] [--dups D]`.
pub fn export_of(alloc: Global, words: &[String]) -> Result<Command, WordsFault>
    ensures { Answers (codes "export" ∷ map string_bytes words.now) result }
{
    let (pack, target, options) = two_operands(alloc, words, QUERY_NAMES)?;
    Ok(Command::Export(Export {
        pack: named(alloc, pack)?,
        query: query_with(alloc, target, options.as_slice())?,
    }))
}

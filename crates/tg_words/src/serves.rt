//! The command `serve`.

ghost use Rattle.std.specs.Prelude.{◌∷◌, map, string_bytes, codes};
ghost use Rattle.tg_words.specs.Operands.{Answers, Exact, NumberGiven, NumberNeeded, ServeGiven, givens, value_at};

use crate::operands::{
    GivenOption, OptionNames, Setting, named, number_given, number_needed, one_operand, value_of,
};
use crate::{Command, WordsFault};
use std::alloc::Global;
use std::marker::Model;

/// What is asked of a gateway: the path of the pack, the port, how many links are served, and how many side by side.
#[derive(Drop)]
pub struct Serve {
    /// The path of the pack, which isn't empty.
    pub pack: String,
    /// The port, where 0 asks for one that is free: 0 to 65,535.
    pub port: u16,
    /// How many links are served: 1 to 1,000,000.
    pub count: u32,
    /// How many connections are served side by side: 1 to 64.
    pub lanes: u32,
}

impl Model for Serve {
    ghost use Rattle.std.specs.Prelude.{string_bytes};
    ghost use Rattle.tg_words.specs.ServeLines.{ServeParts};

    ghost Value = { ServeParts };

    ghost view = { λ s. record { pack = string_bytes s.pack; port = s.port; count = s.count; lanes = s.lanes } };
}

const LANES: Setting = Setting {
    low: 1,
    high: 64,
    default: 1,
};

/// `serve PACK --port N --count N [--lanes N]`.
pub fn serve_of(alloc: Global, words: &[String]) -> Result<Command, WordsFault>
    ensures { Answers (codes "serve" ∷ map string_bytes words.now) result }
{
    let names = OptionNames {
        valued: &["port", "count", "lanes"],
        flags: &[],
    };
    let (pack, options) = one_operand(alloc, words, names)?;
    let serve = serve_with(alloc, pack, options.as_slice())?;
    Ok(Command::Serve(serve))
}

/// The gateway over this pack with these options.
fn serve_with(alloc: Global, pack: &str, options: &[GivenOption]) -> Result<Serve, WordsFault>
    ensures { Exact (ServeGiven pack.now (givens options.now)) result }
{
    let pack = named(alloc, pack)?;
    let port = port_given(options)?;
    let count = number_needed(value_of(options, "count"), 1, 1_000_000)?;
    let lanes = lanes_given(options)?;
    Ok(Serve {
        pack,
        port,
        count: count as u32,
        lanes,
    })
}

/// The port that these options give.
fn port_given(options: &[GivenOption]) -> Result<u16, WordsFault>
    ensures { Exact (NumberNeeded (value_at (givens options.now) (codes "port")) 0 65535) result }
{
    let port = number_needed(value_of(options, "port"), 0, 65_535)?;
    Ok(port as u16)
}

/// The number of lanes that these options give.
fn lanes_given(options: &[GivenOption]) -> Result<u32, WordsFault>
    ensures { Exact (NumberGiven (value_at (givens options.now) (codes "lanes")) 1 64 1) result }
{
    number_given(value_of(options, "lanes"), LANES)
}

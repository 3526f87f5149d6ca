//! The command `swarm`.

ghost use Rattle.std.specs.Prelude.{◌≡◌, ◌∷◌, All, IfErr, IfOk, map, string_bytes, codes};
ghost use Rattle.tg_query.specs.Requests.{IsAddr};
ghost use Rattle.tg_words.specs.Operands.{Answers, Exact, SwarmGiven, givens, texts_of};
ghost use Rattle.tg_words.specs.declared.WordsFault.{WordsFault};

use crate::fetches::is_addr;
use crate::operands::{GivenOption, OptionNames, Setting, number_given, operands_of, value_of};
use crate::{Command, WordsFault, cid_of_text};
use std::alloc::Global;
use std::marker::Model;
use tg_cid::Cid;

/// What is asked of a swarm: the root of a file, the addresses of gateways, and how many bytes a part of the file has.
#[derive(Drop)]
pub struct Swarm {
    /// The root.
    pub root: Cid,
    /// The addresses, 1 to 16, each of the form HOST:PORT.
    pub addrs: Vec<String>,
    /// How many bytes a part has at most: 1 to 16,777,216.
    pub part: u32,
}

impl Model for Swarm {
    ghost use Rattle.std.specs.Prelude.{map, string_bytes};
    ghost use Rattle.tg_words.specs.SwarmLines.{SwarmParts};

    ghost Value = { SwarmParts };

    ghost view = { λ s. record { root = s.root; addrs = map string_bytes s.addrs.items; part = s.part } };
}

/// How many addresses there are at most.
const MOST_ADDRS: usize = 16;

const PART: Setting = Setting {
    low: 1,
    high: 16_777_216,
    default: 4_194_304,
};

/// `swarm ROOT ADDR.. [--part N]`.
pub fn swarm_of(alloc: Global, words: &[String]) -> Result<Command, WordsFault>
    ensures { Answers (codes "swarm" ∷ map string_bytes words.now) result }
{
    let names = OptionNames {
        valued: &["part"],
        flags: &[],
    };
    let found = operands_of(alloc, words, names)?;
    let swarm = swarm_with(alloc, found.positional.as_slice(), found.options.as_slice())?;
    Ok(Command::Swarm(swarm))
}

/// What is asked of a swarm by these positional words and options.
fn swarm_with(alloc: Global, words: &[&str], options: &[GivenOption]) -> Result<Swarm, WordsFault>
    ensures { Exact (SwarmGiven (texts_of words.now) (givens options.now)) result }
{
    let (root, addrs) = words.split_first().ok_or(WordsFault::Usage)?;
    if addrs.is_empty() || addrs.len() > MOST_ADDRS {
        return Err(WordsFault::Usage);
    }
    let root = cid_of_text(alloc, root)?;
    let part = number_given(value_of(options, "part"), PART)?;
    let addrs = addrs_of(alloc, addrs)?;
    Ok(Swarm { root, addrs, part })
}

/// These words as addresses.
fn addrs_of(alloc: Global, words: &[&str]) -> Result<Vec<String>, WordsFault>
    ensures found { IfOk result (λ addrs. (map string_bytes addrs.items ≡ texts_of words.now) × All IsAddr (texts_of words.now)) }
    ensures only { All IsAddr (texts_of words.now) → IfErr result (λ e. e ≡ WordsFault.OutOfMemory) }
{
    let mut addrs = Vec::new(alloc);
    for word in words {
        if !is_addr(word) {
            return Err(WordsFault::Usage);
        }
        addrs.push(String::from_str(alloc, word)?)?;
    }
    Ok(addrs)
}

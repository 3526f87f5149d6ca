//! The command `fetch`.

ghost use Rattle.std.specs.Prelude.{◌∷◌, ◌↔◌, IsTrue, map, string_bytes, codes};
ghost use Rattle.tg_query.specs.Requests.{IsAddr};
ghost use Rattle.tg_words.specs.Operands.{Answers, Exact, FetchAsks, FetchBy, PortText, RawGiven, givens};

use crate::intos::fetch_into;
use crate::operands::{GivenOption, OptionNames, number_of, two_operands, value_of};
use crate::queries::query_with;
use crate::{Command, WordsFault};
use std::alloc::Global;
use std::marker::Model;
use tg_model::Query;
use tg_query::parse_word;

/// What is asked of a client: the address of a gateway, and the query.
#[derive(Drop)]
pub struct Fetch {
    /// The address, of the form HOST:PORT.
    pub addr: String,
    /// The query.
    pub query: Query,
}

impl Model for Fetch {
    ghost use Rattle.std.specs.Prelude.{string_bytes};
    ghost use Rattle.tg_words.specs.FetchLines.{FetchParts};

    ghost Value = { FetchParts };

    ghost view = { λ f. record { addr = string_bytes f.addr; query = f.query } };
}

/// The options of `fetch`.
const FETCH_NAMES: OptionNames<'static> = OptionNames {
    valued: &["scope", "bytes", "dups", "into"],
    flags: &["raw"],
};

/// `fetch ADDR ROOT/PATH [--scope S] [--bytes R] [--dups D]`, `fetch ADDR ROOT/PATH --into FOLDER [--dups D]`, or
/// `fetch ADDR ROOT --raw`.
pub fn fetch_of(alloc: Global, words: &[String]) -> Result<Command, WordsFault>
    ensures { Answers (codes "fetch" ∷ map string_bytes words.now) result }
{
    let (addr, target, options) = two_operands(alloc, words, FETCH_NAMES)?;
    fetch_with(alloc, addr, target, options.as_slice())
}

/// What is fetched from a gateway at this address by a word ROOT/PATH and these options: into a folder where `--into`
/// stands.
fn fetch_with(
    alloc: Global,
    addr: &str,
    target: &str,
    options: &[GivenOption],
) -> Result<Command, WordsFault>
    ensures { Exact (FetchAsks addr.now target.now (givens options.now)) result }
{
    if !is_addr(addr) {
        return Err(WordsFault::Usage);
    }
    if let Some(folder) = value_of(options, "into") {
        let into = fetch_into(alloc, addr, target, folder, options)?;
        return Ok(Command::FetchInto(into));
    }
    let query = asked(alloc, target, options)?;
    let addr = String::from_str(alloc, addr)?;
    Ok(Command::Fetch(Fetch { addr, query }))
}

/// The query that a word ROOT/PATH and these options ask.
fn asked(alloc: Global, target: &str, options: &[GivenOption]) -> Result<Query, WordsFault>
    ensures { Exact (FetchBy target.now (givens options.now)) result }
{
    if options.iter().any(|option| option.name == "raw") {
        return raw_query(alloc, target, options);
    }
    query_with(alloc, target, options)
}

/// The query for the block of a root, which a word names without a path; no other option stands beside `--raw`.
fn raw_query(alloc: Global, target: &str, options: &[GivenOption]) -> Result<Query, WordsFault>
    ensures { Exact (RawGiven target.now (givens options.now)) result }
{
    tg_query::path_laws::roots_read();
    if options.len() > 1 {
        return Err(WordsFault::Usage);
    }
    let (root, path) = parse_word(alloc, target.as_bytes())?;
    if !path.as_slice().is_empty() {
        return Err(WordsFault::Usage);
    }
    Ok(Query::raw(alloc, root))
}

/// Whether a word has the form HOST:PORT of an address: 3 to 255 visible bytes of ASCII, and behind the last colon one
/// to five digits that write a port from 1 to 65,535.
pub fn is_addr(word: &str) -> bool
    ensures { IsTrue result ↔ IsAddr word.now }
{
    let bytes = word.as_bytes();
    if bytes.len() < 3 || bytes.len() > 255 || !bytes.iter().all(|byte| byte.is_ascii_graphic()) {
        return false;
    }
    match word.rsplit_once(':') {
        Some((_, port)) => is_port(port),
        None => false,
    }
}

/// Whether a text is one to five digits that write a number from 1 to 65,535.
fn is_port(text: &str) -> bool
    ensures { IsTrue result ↔ PortText text.now }
{
    if text.len() > 5 {
        return false;
    }
    match number_of(text) {
        Some(port) => 0 < port && port <= 65_535,
        None => false,
    }
}

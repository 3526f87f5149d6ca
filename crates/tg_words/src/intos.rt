//! `fetch` and `verify` with `--into`.

ghost use Rattle.tg_query.specs.Requests.{IsAddr};
ghost use Rattle.tg_words.specs.Operands.{Exact, FetchIntoGiven, IntoBy, VerifyIntoGiven, givens};

use crate::WordsFault;
use crate::operands::{GivenOption, named, value_of};
use crate::queries::dups_given;
use std::alloc::Global;
use std::marker::Model;
use tg_model::{Query, Scope};
use tg_query::parse_word;

/// What is asked of a client that makes a folder: the address of a gateway, the query, and the folder.
#[derive(Drop)]
pub struct FetchInto {
    /// The address, of the form HOST:PORT.
    pub addr: String,
    /// The query, for all below the path.
    pub query: Query,
    /// The path of the folder, which isn't empty.
    pub folder: String,
}

impl Model for FetchInto {
    ghost use Rattle.std.specs.Prelude.{string_bytes};
    ghost use Rattle.tg_words.specs.IntoLines.{FetchIntoParts};

    ghost Value = { FetchIntoParts };

    ghost view = { λ f. record { addr = string_bytes f.addr; query = f.query; folder = string_bytes f.folder } };
}

/// What is asked of a verification that makes a folder: the query, and the folder.
#[derive(Drop)]
pub struct VerifyInto {
    /// The query, for all below the path.
    pub query: Query,
    /// The path of the folder, which isn't empty.
    pub folder: String,
}

impl Model for VerifyInto {
    ghost use Rattle.std.specs.Prelude.{string_bytes};
    ghost use Rattle.tg_words.specs.IntoLines.{VerifyIntoParts};

    ghost Value = { VerifyIntoParts };

    ghost view = { λ v. record { query = v.query; folder = string_bytes v.folder } };
}

/// What is fetched into this folder from a gateway at this address, by a word ROOT/PATH and these options.
pub fn fetch_into(
    alloc: Global,
    addr: &str,
    target: &str,
    folder: &str,
    options: &[GivenOption],
) -> Result<FetchInto, WordsFault>
    requires addr { IsAddr addr.now }
    ensures { Exact (FetchIntoGiven addr.now target.now folder.now (givens options.now)) result }
{
    let folder = named(alloc, folder)?;
    let query = query_into(alloc, target, options)?;
    let addr = String::from_str(alloc, addr)?;
    Ok(FetchInto {
        addr,
        query,
        folder,
    })
}

/// What is verified into this folder, by a word ROOT/PATH and these options.
pub fn verify_into(
    alloc: Global,
    target: &str,
    folder: &str,
    options: &[GivenOption],
) -> Result<VerifyInto, WordsFault>
    ensures { Exact (VerifyIntoGiven target.now folder.now (givens options.now)) result }
{
    Ok(VerifyInto {
        folder: named(alloc, folder)?,
        query: query_into(alloc, target, options)?,
    })
}

/// The query for all below what a word ROOT/PATH names; no option stands but `--into` and `--dups`.
fn query_into(alloc: Global, target: &str, options: &[GivenOption]) -> Result<Query, WordsFault>
    ensures { Exact (IntoBy target.now (givens options.now)) result }
{
    tg_query::path_laws::roots_read();
    if !options
        .iter()
        .all(|option| option.name == "into" || option.name == "dups")
    {
        return Err(WordsFault::Usage);
    }
    let dups = dups_given(value_of(options, "dups"))?;
    let (root, path) = parse_word(alloc, target.as_bytes())?;
    Ok(Query::car(root, path, Scope::All, None, dups.unwrap_or(true)))
}

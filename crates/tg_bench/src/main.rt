//! Speeds of parts that no command shows on their own: `tg_bench name-hash`, `tg_bench table`, `tg_bench node`,
//! `tg_bench dagpb`, `tg_bench unixfs` and `tg_bench body`. Without a word it does nothing, as `rt ci` runs it.
#![tactic(auto)]

mod body;
mod codec;
mod held;
mod name_hash;
mod node;
mod speeds;
mod table;

use std::{env, io};

fn main(rt: HostRuntime) -> io::Result<()> {
    let mut words = env::args(&rt)?;
    let _program = words.next();
    match words.next() {
        Some(word) => run(&rt, word.as_str()),
        None => Ok(()),
    }
}

/// Runs the bench of this word.
fn run(rt: &HostRuntime, word: &str) -> io::Result<()> {
    match word {
        "name-hash" => name_hash::run(rt),
        "table" => table::run(rt),
        "node" => node::run(rt),
        "dagpb" => codec::run_nodes(rt),
        "unixfs" => codec::run_unix(rt),
        "body" => body::run(rt),
        _ => Ok(()),
    }
}

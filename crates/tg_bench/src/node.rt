//! A DAG-PB node of 1,024 links checked and read without memory, link by link.
use crate::speeds::{LINK, filled};
use std::io;
use std::rt::Clock;
use std::time::{Duration, Instant};
use tg_dagpb::{check, link_places_at};

const LINKS: usize = 1024;

const ROUNDS: usize = 1000;

/// Prints how many nodes a second are checked and read.
pub fn run(rt: &(impl Clock + Print + AllocGlobal)) -> io::Result<()> {
    let block = filled(rt.alloc(), b"", LINKS, &LINK)?;
    report(rt, block.as_slice())
}

/// The same of this node.
fn report(rt: &(impl Clock + Print), block: &[u8]) -> io::Result<()> {
    let begin = Instant::now(rt)?;
    let found = walks(block);
    let reading = begin.elapsed(rt)?;
    println!(rt;
        "node of {LINKS} links {} a second ({found} links)",
        a_second(reading)
    )
}

/// How many links the block has in all rounds.
fn walks(block: &[u8]) -> usize {
    let mut found = 0usize;
    for _ in 0..ROUNDS {
        found = found.saturating_add(walked(block));
    }
    found
}

/// How many links the block has; none where it is no node.
fn walked(block: &[u8]) -> usize {
    let mut links = 0usize;
    if check(block).is_err() {
        return 0;
    }
    let mut at = 0;
    while let Some((_, next)) = link_places_at(block, at) {
        links = links.saturating_add(1);
        at = next;
    }
    links
}

fn a_second(time: Duration) -> u128 {
    (ROUNDS as u128) * 1_000_000_000 / time.as_nanos().max(1)
}

//! DAG-PB nodes and UnixFS data decoded and encoded, beside a copy of the same bytes.
ghost use Rattle.tg_unixfs.specs.Unix.{IsUnix};

use crate::held::print_most_held;
use crate::speeds::{LINK, filled, print_copy, speed};
use std::alloc::Global;
use std::io;
use std::rt::{Clock, Files};
use std::time::{Duration, Instant};
use tg_dagpb::Node;
use tg_unixfs::Unix;

const ROUNDS: usize = 20;

const SIZE: usize = 1_000_000;

const LINKS: usize = 25_000;

/// Prints the speeds of DAG-PB nodes in MB/s: one of many links, and one with much data.
pub fn run_nodes(rt: &(impl Clock + Print + AllocGlobal)) -> io::Result<()> {
    node_of(rt, "node of 25000 links", b"", LINKS, &LINK)?;
    node_of(
        rt,
        "node with 1000000 bytes of data",
        b"\x0a\xc0\x84\x3d",
        SIZE,
        b"a",
    )
}

/// Prints the speeds of UnixFS data in MB/s: data with many bytes in it, and data with many blocksizes. The most memory
/// that the program held comes last.
pub fn run_unix(rt: &(impl Clock + Print + Files + AllocGlobal)) -> io::Result<()> {
    unix_of(
        rt,
        "UnixFS data with 1000000 bytes in it",
        b"\x08\x02\x12\xc0\x84\x3d",
        SIZE,
        b"a",
    )?;
    unix_of(
        rt,
        "UnixFS data of 1000000 blocksizes",
        b"\x08\x02",
        SIZE,
        b"\x20\x01",
    )?;
    print_most_held(rt)
}

/// The same of one node: its front, and the part as often as `count` says.
fn node_of(
    rt: &(impl Clock + Print + AllocGlobal),
    name: &str,
    front: &[u8],
    count: usize,
    part: &[u8],
) -> io::Result<()> {
    let block = filled(rt.alloc(), front, count, part)?;
    node(rt, name, block.as_slice())
}

/// The same of UnixFS data.
fn unix_of(
    rt: &(impl Clock + Print + AllocGlobal),
    name: &str,
    front: &[u8],
    count: usize,
    part: &[u8],
) -> io::Result<()> {
    let payload = filled(rt.alloc(), front, count, part)?;
    unix(rt, name, payload.as_slice())
}

/// Prints how fast a node is decoded, encoded and copied.
fn node(rt: &(impl Clock + Print + AllocGlobal), name: &str, block: &[u8]) -> io::Result<()> {
    let begin = Instant::now(rt)?;
    let links = decoded_links(rt.alloc(), block);
    let decoding = begin.elapsed(rt)?;
    let encoded = match tg_dagpb::decode(rt.alloc(), block) {
        Ok(node) => encoded_node(rt, &node),
        Err(_) => return println!(rt; "{name}: no node"),
    };
    let (written, encoding) = encoded?;
    println!(rt; "{name}: {links} links, {written} bytes written")?;
    report(rt, name, block, decoding, encoding)
}

/// How many links are decoded in all rounds.
fn decoded_links(alloc: Global, block: &[u8]) -> usize {
    let mut links = 0usize;
    for _ in 0..ROUNDS {
        if let Ok(node) = tg_dagpb::decode(alloc, block) {
            links = links.saturating_add(node.links.as_slice().len());
        }
    }
    links
}

/// How many bytes of a node are written in all rounds, and the time of that.
fn encoded_node(rt: &(impl Clock + AllocGlobal), node: &Node) -> io::Result<(usize, Duration)> {
    let begin = Instant::now(rt)?;
    let mut written = 0usize;
    for _ in 0..ROUNDS {
        let size = tg_dagpb::encode(rt.alloc(), node)?.as_slice().len();
        written = written.saturating_add(size);
    }
    Ok((written, begin.elapsed(rt)?))
}

/// Prints how fast UnixFS data is decoded, encoded and copied.
fn unix(rt: &(impl Clock + Print + AllocGlobal), name: &str, payload: &[u8]) -> io::Result<()> {
    let begin = Instant::now(rt)?;
    let sizes = decoded_sizes(rt.alloc(), payload);
    let decoding = begin.elapsed(rt)?;
    let encoded = match tg_unixfs::decode(rt.alloc(), payload) {
        Ok(unix) => encoded_unix(rt, &unix),
        Err(_) => return println!(rt; "{name}: no data"),
    };
    let (written, encoding) = encoded?;
    println!(rt; "{name}: {sizes} blocksizes, {written} bytes written")?;
    report(rt, name, payload, decoding, encoding)
}

/// How many blocksizes are decoded in all rounds.
fn decoded_sizes(alloc: Global, payload: &[u8]) -> usize {
    let mut sizes = 0usize;
    for _ in 0..ROUNDS {
        if let Ok(unix) = tg_unixfs::decode(alloc, payload) {
            sizes = sizes.saturating_add(unix.sizes.as_slice().len());
        }
    }
    sizes
}

/// How many bytes of UnixFS data are written in all rounds, and the time of that.
fn encoded_unix(rt: &(impl Clock + AllocGlobal), unix: &Unix) -> io::Result<(usize, Duration)>
    requires { IsUnix unix.now }
{
    let begin = Instant::now(rt)?;
    let mut written = 0usize;
    for _ in 0..ROUNDS {
        let size = tg_unixfs::encode(rt.alloc(), unix)?.as_slice().len();
        written = written.saturating_add(size);
    }
    Ok((written, begin.elapsed(rt)?))
}

/// Prints the speeds, and that of a copy of the bytes into fresh memory.
fn report(
    rt: &(impl Clock + Print + AllocGlobal),
    name: &str,
    bytes: &[u8],
    decoding: Duration,
    encoding: Duration,
) -> io::Result<()> {
    let size = bytes.len().saturating_mul(ROUNDS);
    println!(rt; "{name}: decode {} MB/s", speed(size, decoding))?;
    println!(rt; "{name}: encode {} MB/s", speed(size, encoding))?;
    print!(rt; "{name}: ")?;
    print_copy(rt, bytes, ROUNDS)
}

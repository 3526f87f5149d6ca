//! What the benches share: texts of many equal parts, a copy of memory, and speeds.
use std::alloc::{AllocError, Global};
use std::io;
use std::rt::Clock;
use std::time::{Duration, Instant};

/// A link that is a CID of version 1 with sha2-256 and has an empty name and a size.
pub const LINK: [u8; 44] =
    *b"\x12\x2a\x0a\x24\x01\x55\x12\x2077777777777777777777777777777777\x12\x00\x18\x04";

/// The front and then the part as often as `count` says.
pub fn filled(
    alloc: Global,
    front: &[u8],
    count: usize,
    part: &[u8],
) -> Result<Vec<u8>, AllocError> {
    let mut text = Vec::from_slice(alloc, front)?;
    for _ in 0..count {
        text.extend_from_slice(part)?;
    }
    Ok(text)
}

/// Prints how fast the bytes are copied, so often.
pub fn print_copy(
    rt: &(impl Clock + Print + AllocGlobal),
    bytes: &[u8],
    rounds: usize,
) -> io::Result<()> {
    let begin = Instant::now(rt)?;
    let last = copied(rt.alloc(), bytes, rounds)?;
    let speed = speed(bytes.len().saturating_mul(rounds), begin.elapsed(rt)?);
    println!(rt; "copy {speed} MB/s ({last})")
}

/// Copies the bytes so often, each time into fresh memory.
fn copied(alloc: Global, bytes: &[u8], rounds: usize) -> Result<u8, AllocError> {
    let mut last = 0;
    for round in 0..rounds {
        let copy = Vec::from_slice(alloc, bytes)?;
        if let Some(byte) = copy.as_slice().get(round) {
            last ^= *byte;
        }
    }
    Ok(last)
}

/// The speed in MB/s of work on so many bytes.
pub fn speed(bytes: usize, time: Duration) -> u128 {
    (bytes as u128) * 1000 / time.as_nanos().max(1)
}

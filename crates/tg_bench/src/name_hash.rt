//! The name hash over 1 MB, 200 times, beside a copy of the same memory.
use crate::speeds::speed;
use std::io;
use std::rt::Clock;
use std::time::Instant;

const SIZE: usize = 1_000_000;

const ROUNDS: usize = 200;

/// Prints both speeds in MB/s.
pub fn run(rt: &(impl Clock + Print + AllocGlobal)) -> io::Result<()> {
    let mut bytes = vec![in rt.alloc(); 0u8; SIZE]?;
    let mut copy = vec![in rt.alloc(); 0u8; SIZE]?;
    fill(bytes.as_mut_slice());
    report(rt, bytes.as_mut_slice(), copy.as_mut_slice())
}

/// The same of these bytes and the memory to which they are copied.
fn report(rt: &(impl Clock + Print), bytes: &mut [u8], copy: &mut [u8]) -> io::Result<()> {
    let begin = Instant::now(rt)?;
    let folded = hash_rounds(bytes);
    let hashing = begin.elapsed(rt)?;

    let begin = Instant::now(rt)?;
    let last = copy_rounds(bytes, copy);
    let copying = begin.elapsed(rt)?;

    let size = SIZE * ROUNDS;
    println!(rt; "name hash {} MB/s ({folded:016x})", speed(size, hashing))?;
    println!(rt; "copy {} MB/s ({last})", speed(size, copying))
}

/// Bytes that no compiler foresees.
fn fill(bytes: &mut [u8]) {
    let mut state: u64 = 1;
    for byte in bytes.iter_mut() {
        state = state
            .wrapping_mul(0x5851_f42d_4c95_7f2d)
            .wrapping_add(0x1405_7b7e_f767_814f);
        *byte = (state >> 56) as u8;
    }
}

// One byte changes before each round, so that no round can be left out.
fn hash_rounds(bytes: &mut [u8]) -> u64 {
    let mut folded = 0;
    for round in 0..ROUNDS {
        if round < bytes.len() {
            bytes[round] = (round % 256) as u8;
        }
        folded ^= tg_murmur::hash64(bytes);
    }
    folded
}

fn copy_rounds(bytes: &mut [u8], copy: &mut [u8]) -> u8 {
    let mut last = 0;
    for round in 0..ROUNDS {
        if round < bytes.len() && bytes.len() == copy.len() {
            bytes[round] = (round % 251) as u8;
            copy.copy_from_slice(bytes);
            last ^= copy[round];
        }
    }
    last
}

//! A generator of numbers.
ghost use Rattle.std.specs.Prelude.{◌≡◌, ◌<◌, ◌^◌, IfOk};
ghost use Rattle.tg_draws.specs.Draws.{Draws, draw_of, next_state};

use std::alloc::{AllocError, Global};
use tg_bytes::Bytes;

/// By what a state is multiplied for the next one (Knuth, The Art of Computer Programming, volume 2, 3.3.4).
const FACTOR: u64 = 6_364_136_223_846_793_005;

/// What is added then.
const TERM: u64 = 1_442_695_040_888_963_407;

/// How many bytes of room drawn bytes get at least: a room of so many lies by itself, and goes back to the system with them.
const LEAST_ROOM: usize = 131_072;

/// A linear congruential generator modulo 2^64, of whose states the upper 31 bits are given.
#[derive(Clone, Copy, Debug, PartialEq, Eq)]
pub struct Generator {
    /// The state: the seed at first.
    pub state: u64,
}

impl Generator {
    /// The next number, below 2^31.
    pub fn next(&mut self) -> u32
        ensures number { result ≡ draw_of self.old.state }
        ensures small { result < 2 ^ 31 }
        ensures state { self.new.state ≡ next_state self.old.state }
    {
        self.state = self.state.wrapping_mul(FACTOR).wrapping_add(TERM);
        (self.state >> 33) as u32
    }

    /// So many bytes, each the next number modulo 256. The error is want of memory.
    pub fn bytes(&mut self, alloc: Global, count: usize) -> Result<Bytes, AllocError>
        ensures { IfOk result (λ bytes. Draws self.old.state count bytes self.new.state) }
    {
        let mut bytes = Vec::with_capacity(alloc, count.max(LEAST_ROOM))?;
        for _ in 0..count {
            bytes.push((self.next() % 256) as u8)?;
        }
        Ok(Bytes::from(bytes))
    }
}

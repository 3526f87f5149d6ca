//! A pack for tests, which changes once it was read, and counts its reads.
#![tactic(auto)]

ghost use Rattle.std.specs.Prelude.{None, ⊤};

use std::alloc::Global;
use tg_bytes::{Bytes, List};
use tg_faults::{Calls, Failed};
use tg_files::{MemPack, Pack};

/// A pack in memory of which the byte at `place` is given changed from some read on, and at most `most` bytes are given at
/// once. It counts its reads, doesn't tell its bytes, and isn't written to.
#[derive(Drop)]
pub struct ChangingPack {
    pack: MemPack,
    place: u64,
    most: usize,
    reads: u64,
    from: u64,
    is_of_end: bool,
    calls: Calls,
}

impl ChangingPack {
    /// A pack of these bytes, which changes behind the first read that finds the end.
    pub fn new(alloc: Global, bytes: Bytes, place: u64, most: usize) -> ChangingPack {
        ChangingPack {
            pack: MemPack::new(bytes, List::new(alloc)),
            place,
            most,
            reads: 0,
            from: u64::MAX,
            is_of_end: true,
            calls: Calls::new(List::new(alloc)),
        }
    }

    /// A pack of these bytes, which are given as they are asked for, and changed from the read with this number on, counted
    /// from 0.
    pub fn from_read(alloc: Global, bytes: Bytes, place: u64, from: u64) -> ChangingPack {
        ChangingPack {
            pack: MemPack::new(bytes, List::new(alloc)),
            place,
            most: usize::MAX,
            reads: 0,
            from,
            is_of_end: false,
            calls: Calls::new(List::new(alloc)),
        }
    }

    /// How many reads it made.
    pub fn reads(&self) -> u64 {
        self.reads
    }
}

impl Pack for ChangingPack {
    ghost pack = { record {
      content = λ _. None;
      place = λ p. p.pack.place;
      faults = λ p. p.calls.faults;
      calls = λ _. None;
      did = λ _ _ _. ⊤;
    } };

    ghost rests = { λ _. tt };

    ghost joins = { λ _ _ _ _ _ _ _. tt };

    fn attach(&mut self, path: &str, fresh: bool) -> Result<(), Failed> {
        match self.pack.attach(path, fresh) {
            Ok(()) => Ok(()),
            Err(_) => Err(self.calls.fault()),
        }
    }

    fn size(&mut self) -> Result<u64, Failed> {
        match self.pack.size() {
            Ok(size) => Ok(size),
            Err(_) => Err(self.calls.fault()),
        }
    }

    fn read_at(&mut self, offset: u64, buf: &mut [u8]) -> Result<usize, Failed> {
        let number = self.reads;
        self.reads = self.reads.saturating_add(1);
        let most = buf.len().min(self.most);
        let front = &mut buf[..most];
        let Ok(count) = self.pack.read_at(offset, front) else {
            return Err(self.calls.fault());
        };
        if number >= self.from
            && let Some(turned) = self.place.checked_sub(offset)
            && turned < count as u64
            && let Some(byte) = front.get_mut(turned as usize)
        {
            *byte ^= 1;
        }
        if count == 0 && self.is_of_end {
            self.from = 0;
        }
        Ok(count)
    }

    /// It isn't written to, so this is a fault.
    fn write_at(&mut self, _offset: u64, _bytes: &[u8]) -> Result<(), Failed> {
        Err(self.calls.fault())
    }

    /// It isn't written to, so this is a fault.
    fn append(&mut self, _bytes: &[u8]) -> Result<(), Failed> {
        Err(self.calls.fault())
    }
}

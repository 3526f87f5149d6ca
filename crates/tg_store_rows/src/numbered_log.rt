//! A keeper whose calls fail by their numbers.
ghost use Rattle.std.specs.Prelude.{◌≡◌, []};

use std::alloc::{AllocError, Global};
use tg_bytes::{Bytes, List};
use tg_cid::Cid;
use tg_faults::Calls;
use tg_model::{Keep, KeepFault};

/// What was kept in one call: the CID and the block.
#[derive(Drop)]
pub struct LoggedKeep {
    pub cid: Cid,
    pub block: Bytes,
}

/// A keeper that logs what is kept in it, call by call, and doesn't tell what it holds. Its calls fail by their
/// numbers.
#[derive(Drop)]
pub struct NumberedLog {
    alloc: Global,
    calls: Calls,
    kept: List<LoggedKeep>,
}

impl NumberedLog {
    /// An empty log whose calls with these numbers fail.
    pub fn new(alloc: Global, fails: List<u64>) -> NumberedLog
        ensures { result.kept ≡ [] }
    {
        NumberedLog {
            alloc,
            calls: Calls::new(fails),
            kept: List::new(alloc),
        }
    }

    /// What was kept, in order.
    pub fn kept(&self) -> &[LoggedKeep]
        ensures { result.now ≡ self.now.kept }
    {
        self.kept.as_slice()
    }

    /// How many bytes each block has that was kept, in order.
    pub fn lengths(&self) -> Result<List<u64>, AllocError> {
        let mut lengths = List::new(self.alloc);
        for kept in self.kept.as_slice() {
            lengths.push(kept.block.as_slice().len() as u64)?;
        }
        Ok(lengths)
    }

    /// How many calls failed.
    pub fn faults(&self) -> u64
        ensures { result ≡ self.now.calls.faults }
    {
        self.calls.faults
    }
}

impl Keep for NumberedLog {
    ghost use Rattle.std.specs.Prelude.{None, ⊤};

    ghost keeper = { record {
      stored = λ _. None;
      faults = λ s. s.calls.faults;
      kept = λ a b sections. ⊤;
    } };

    ghost told = { λ s. tt };

    ghost rests = { λ s. tt };

    ghost joins = { λ a b c u v p q. tt };

    fn keep(&mut self, cid: Cid, block: &[u8]) -> Result<(), KeepFault> {
        if self.calls.next().is_err() {
            return Err(KeepFault::Failed);
        }
        let Ok(block) = Bytes::of(self.alloc, block) else {
            return Err(KeepFault::OutOfMemory);
        };
        match self.kept.push(LoggedKeep { cid, block }) {
            Ok(()) => Ok(()),
            Err(_) => Err(KeepFault::OutOfMemory),
        }
    }
}

//! Names of files that are put in the place of others once they are finished.
ghost use Rattle.std.specs.Prelude.{◌≡◌, ◌↔◌, IfOk, IsTrue, string_bytes};
ghost use Rattle.tg_files.specs.TempNames.{BeginsWith, temp_front, temp_name};

use std::alloc::{AllocError, Global};
use std::random::RandomSource;

/// The names under which one program writes files before it puts them in the place of others: `.tgate-N-K.tmp`, where N is
/// the program's own number, and K counts the names that were there already.
#[derive(Clone, Copy)]
pub struct TempNames {
    number: u64,
}

impl TempNames {
    /// The names of a program with this number.
    pub fn new(number: u64) -> TempNames
        ensures { result.number ≡ number }
    {
        TempNames { number }
    }

    /// The names of a program whose number is drawn by the system, or is 0 where the system can't draw one.
    pub fn drawn<R: RandomSource>(rt: &R) -> TempNames {
        let mut bytes = [0; 8];
        match rt.fill_bytes(&mut bytes) {
            Ok(()) => TempNames::new(u64::from_le_bytes(bytes)),
            Err(_) => TempNames::new(0),
        }
    }

    /// What each of the names begins with. The error is want of memory.
    pub(crate) fn front(self, alloc: Global) -> Result<String, AllocError>
        ensures { IfOk result (λ front. string_bytes front ≡ temp_front self.number) }
    {
        let number = self.number;
        format!(in alloc; ".tgate-{number}-")
    }

    /// One of the names. The error is want of memory.
    pub(crate) fn name(self, alloc: Global, count: u64) -> Result<String, AllocError>
        ensures { IfOk result (λ name. string_bytes name ≡ temp_name self.number count) }
    {
        let number = self.number;
        format!(in alloc; ".tgate-{number}-{count}.tmp")
    }
}

/// Whether a name begins so.
pub(crate) fn begins_with(name: &str, front: &str) -> bool
    ensures { IsTrue result ↔ BeginsWith front.now name.now }
{
    name.as_bytes().starts_with(front.as_bytes())
}

//! Calls that fail by their numbers, and the fault that they answer.
ghost use Rattle.std.specs.Prelude.{◌≡◌, ◌≤◌, ◌↔◌, IsErr, Contains, OnOk, OnErr};
ghost use Rattle.tg_faults.specs.Faults.{counted};

use tg_bytes::List;
use thiserror::Error;

/// A source, a sink or another object of the outside failed, and counted it.
#[derive(Clone, Copy, Debug, PartialEq, Eq, Error)]
#[error("an object of the outside failed")]
pub struct Failed;

/// The calls of one object, which are numbered from 0.
#[derive(Drop)]
pub struct Calls {
    /// The numbers of the calls that fail.
    pub fails: List<u64>,
    /// How many calls were made.
    pub made: u64,
    /// How many calls failed.
    pub faults: u64,
}

impl Calls {
    /// No call made yet.
    pub fn new(fails: List<u64>) -> Calls
        ensures { result ≡ record { fails = fails; made = 0; faults = 0 } }
    {
        Calls::after(0, fails)
    }

    /// So many calls made already, none of which failed: the next call has this number.
    pub fn after(made: u64, fails: List<u64>) -> Calls
        ensures { result ≡ record { fails = fails; made = made; faults = 0 } }
    {
        Calls {
            fails,
            made,
            faults: 0,
        }
    }

    /// Counts a call, which fails exactly where its number stands in the list.
    pub fn next(&mut self) -> Result<(), Failed>
        ensures fails { IsErr result ↔ Contains self.old.fails self.old.made }
        ensures same { self.new.fails ≡ self.old.fails }
        ensures made { self.new.made ≡ counted self.old.made }
        ensures quiet { OnOk result (self.new.faults ≡ self.old.faults) }
        ensures err { OnErr result (self.new.faults ≡ counted self.old.faults) }
        ensures err_counted { OnErr result (self.old.faults ≤ self.new.faults) }
    {
        let fails = self.fails.as_slice().contains(&self.made);
        self.made = self.made.saturating_add(1);
        if fails { Err(self.fault()) } else { Ok(()) }
    }

    /// Counts a fault of the call that is under way.
    pub fn fault(&mut self) -> Failed
        ensures count { self.new ≡ record
            { fails = self.old.fails; made = self.old.made; faults = counted self.old.faults } }
        ensures counted { self.old.faults ≤ self.new.faults }
    {
        self.faults = self.faults.saturating_add(1);
        Failed
    }
}

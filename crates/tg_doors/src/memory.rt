//! Doors in memory, which fail at the calls that they are given.
ghost use Rattle.std.specs.Prelude.{◌≡◌, ◌⊎◌, ◌<◌, ◌≤◌, ◌↔◌, List as Items, [], Contains, IfOk, IfSome, IsErr, max, MatchOption, None, Some, false, true};
ghost use Rattle.tg_faults.specs.Faults.{Rose, counted};
ghost use Rattle.tg_doors.specs.Doors.{IsAdmitted, IsAskedPort, IsBound, IsDone, KeepsComing, KeepsPort, KeepsServed, KeepsShut, at_door};
ghost use Rattle.tg_links.specs.Views.{and_call, is_failed};
ghost use Rattle.tg_doors.specs.Doors.{given_link};
ghost use Rattle.tg_links.specs.Views.{view_of};
ghost use Rattle.tg_doors.specs.Memory.{IsLinkOf, mem_door};
ghost use Rattle.tg_links.specs.Memory.{mem_hearing, mem_link};

use crate::door::Door;
use std::alloc::{AllocError, Global};
use std::marker::Model;
use tg_bytes::{Bytes, List};
use tg_faults::{Calls, Failed};
use tg_links::{Call, MemLink};

/// A door in memory, to peers that say these bytes. It fails at the calls whose numbers it was given; its calls and
/// those of its links are numbered in one sequence, in which a link that is given back has no number.
#[derive(Drop)]
pub struct MemDoor {
    alloc: Global,
    /// The last one is the next.
    coming: Vec<Bytes>,
    served: Option<List<Call>>,
    port: Option<u16>,
    shut: bool,
    piece: usize,
    calls: Calls,
}

impl Model for MemDoor {
    ghost use Rattle.std.specs.Prelude.{◌<◌, reverse};
    ghost use Rattle.tg_doors.specs.Memory.{DoorState};

    ghost Value = { DoorState };

    ghost view = { λ d. record {
      coming = reverse d.coming.items;
      served = d.served;
      port = d.port;
      shut = d.shut;
      piece = d.piece;
      fails = d.calls.fails;
      calls = d.calls.made;
      faults = d.calls.faults;
    } };

    ghost invariant = { λ d. 0 < d.piece };
}

impl MemDoor {
    /// A door to peers that say these bytes, one after another. One take, and one put, of a link moves at most `piece`
    /// bytes, which is at least 1. The calls whose numbers stand in `fails`, counted from 0, fail.
    pub fn new(alloc: Global, links: List<Bytes>, piece: usize, fails: List<u64>) -> MemDoor
        requires { 0 < piece }
        ensures { result ≡ record { coming = links; served = Some []; port = None; shut = false; piece = piece; fails = fails; calls = 0; faults = 0 } }
    {
        let mut coming = links.into_vec();
        coming.as_mut_slice().reverse();
        MemDoor {
            alloc,
            coming,
            served: Some(List::new(alloc)),
            port: None,
            shut: false,
            piece,
            calls: Calls::new(fails),
        }
    }

    /// What went through the links that were given back, in order; none where no memory was found for one of them.
    pub fn served(&self) -> Option<&List<Call>>
        ensures told { self.now.served ≡ None → result ≡ None }
        ensures calls { (calls : Items Call) → self.now.served ≡ Some calls
            → MatchOption result ⊥ (λ list. list.now ≡ calls) }
    {
        self.served.as_ref()
    }

    /// The same, moved and not copied.
    pub fn into_served(self) -> Option<List<Call>>
        ensures { result ≡ self.served }
    {
        self.served
    }

    /// How many calls failed.
    pub fn count(&self) -> u64
        ensures { result ≡ self.now.faults }
    {
        self.calls.faults
    }

    /// The calls of the next link, which follow those that were made. The error is want of memory.
    fn link_calls(&self) -> Result<Calls, AllocError>
        ensures { IfOk result (λ calls. calls ≡ record { fails = self.now.fails; made = self.now.calls; faults = 0 }) }
    {
        let fails = Vec::from_slice(self.alloc, self.calls.fails.as_slice())?;
        Ok(Calls::after(self.calls.made, List::from(fails)))
    }

    /// Tells what went through a link behind the others, or counts a fault and tells nothing any more.
    fn tell(&mut self, call: Call)
        ensures told { ((self.new.served ≡ and_call self.old.served (Some call)) × (self.new.faults ≡ self.old.faults))
            ⊎ ((self.new.served ≡ None) × Rose self.old.faults self.new.faults) }
        ensures quiet { self.old.served ≡ None → self.new.faults ≡ self.old.faults }
        ensures counted { self.old.faults ≤ self.new.faults }
        ensures others { self.new ≡ record self.old { served = self.new.served; faults = self.new.faults } }
    {
        let Some(served) = &mut self.served else {
            return;
        };
        if served.push(call).is_err() {
            self.served = None;
            self.calls.fault();
        }
    }
}

impl Door for MemDoor {
    type Link = MemLink;

    ghost door = { mem_door };

    /// It gives the port that it is asked for, and fails exactly where the call's number stands in the list.
    fn bind(&mut self, port: u16) -> Result<u16, Failed>
        ensures bound { IsBound (at_door mem_door self.old self.new) result }
        ensures port { IsAskedPort port result }
        ensures coming { KeepsComing (at_door mem_door self.old self.new) }
        ensures served { KeepsServed (at_door mem_door self.old self.new) }
        ensures counted { self.old.faults ≤ self.new.faults }

        ensures asked { IfOk result (λ n. n ≡ port) }
        ensures fails { IsErr result ↔ Contains self.old.fails self.old.calls }
        ensures call { self.new.calls ≡ counted self.old.calls }
        ensures others { (self.new.piece ≡ self.old.piece) × (self.new.fails ≡ self.old.fails) }
    {
        self.calls.next()?;
        self.port = Some(port);
        self.shut = false;
        Ok(port)
    }

    /// It fails where the call's number stands in the list, and for want of memory alone besides.
    fn admit(&mut self) -> Result<Option<MemLink>, Failed>
        ensures admitted { IsAdmitted (at_door mem_door self.old self.new) (given_link mem_link mem_hearing result) }
        ensures served { KeepsServed (at_door mem_door self.old self.new) }
        ensures port { KeepsPort (at_door mem_door self.old self.new) }
        ensures counted { self.old.faults ≤ self.new.faults }

        ensures fails { Contains self.old.fails self.old.calls → IsErr result }
        ensures call { self.new.calls ≡ counted self.old.calls }
        ensures link { IfOk result (λ given. IfSome given (λ link. IsLinkOf self.new link)) }
        ensures others { (self.new.piece ≡ self.old.piece) × (self.new.fails ≡ self.old.fails) }
    {
        self.shut = true;
        self.calls.next()?;
        if self.coming.is_empty() {
            return Ok(None);
        }
        let Ok(calls) = self.link_calls() else {
            return Err(self.calls.fault());
        };
        let Some(bytes) = self.coming.pop() else {
            return Ok(None);
        };
        self.shut = false;
        Ok(Some(MemLink::with_calls(self.alloc, bytes, self.piece, calls)))
    }

    /// It waits for nothing: each link can be taken from, and each `admit` answers at once. It is no numbered call.
    fn wait(&mut self, _links: &[Option<MemLink>], _admits: bool, ready: &mut [bool]) -> usize {
        ready.fill(true);
        usize::MAX
    }

    /// It takes over the number of calls that the link made. Of a link whose calls failed one fault is counted, however many
    /// failed.
    fn done(&mut self, link: MemLink)
        ensures done { IsDone (view_of mem_link mem_hearing link) (at_door mem_door self.old self.new) }
        ensures coming { KeepsComing (at_door mem_door self.old self.new) }
        ensures port { KeepsPort (at_door mem_door self.old self.new) }
        ensures shut { KeepsShut (at_door mem_door self.old self.new) }

        ensures once { is_failed link.faults ≡ true → (self.new.served ≡ None → self.old.served ≡ None)
            → self.new.faults ≡ counted self.old.faults }
        ensures call { self.new.calls ≡ max self.old.calls link.calls }
        ensures others { (self.new.piece ≡ self.old.piece) × (self.new.fails ≡ self.old.fails) }
    {
        let (call, calls) = link.into_call();
        self.calls.made = self.calls.made.max(calls.made);
        if call.failed {
            self.calls.fault();
        }
        self.tell(call);
    }
}

//! Dials in memory, which fail at the calls that they are given.
ghost use Rattle.std.specs.Prelude.{◌≡◌, ◌⊎◌, ◌<◌, ◌≤◌, ◌∷◌, ℕ, List as Items, [], Contains, IfOk, IsErr, max, MatchOption, None, OnErr, OnOk, Some, false, true};
ghost use Rattle.tg_dials.specs.Dials.{IsDialled, IsHungUp, KeepsCalls, KeepsComing, KeepsMissed, at_dial, dialled_link};
ghost use Rattle.tg_dials.specs.Memory.{IsLinkTo, mem_dial};
ghost use Rattle.tg_faults.specs.Faults.{Rose, counted};
ghost use Rattle.tg_links.specs.Memory.{mem_hearing, mem_link};
ghost use Rattle.tg_links.specs.Views.{and_call, is_failed, view_of};

use crate::dial::{Dial, first_link};
use std::alloc::Global;
use std::marker::Model;
use tg_bytes::{Bytes, List};
use tg_faults::{Calls, Failed};
use tg_links::{Call, MemLink};

/// A dial in memory, to peers that say these bytes, one after another, whatever the address. It fails at the calls
/// whose numbers it was given; its calls and those of its links are numbered in one sequence, in which a link that is
/// given back has no number.
#[derive(Drop)]
pub struct MemDial {
    alloc: Global,
    /// The last one is the next.
    replies: Vec<Bytes>,
    told: Option<List<Call>>,
    missed: u64,
    piece: usize,
    calls: Calls,
}

impl Model for MemDial {
    ghost use Rattle.std.specs.Prelude.{◌<◌, reverse};
    ghost use Rattle.tg_dials.specs.Memory.{DialState};

    ghost Value = { DialState };

    ghost view = { λ d. record {
      replies = reverse d.replies.items;
      told = d.told;
      missed = d.missed;
      piece = d.piece;
      fails = d.calls.fails;
      made = d.calls.made;
      faults = d.calls.faults;
    } };

    ghost invariant = { λ d. 0 < d.piece };
}

impl MemDial {
    /// A dial to peers that say these bytes, one after another. One take, and one put, of a link moves at most `piece`
    /// bytes, which is at least 1. The calls whose numbers stand in `fails`, counted from 0, fail.
    pub fn new(alloc: Global, replies: List<Bytes>, piece: usize, fails: List<u64>) -> MemDial
        requires { 0 < piece }
        ensures { result ≡ record { replies = replies; told = Some []; missed = 0; piece = piece; fails = fails; made = 0; faults = 0 } }
    {
        let mut replies = replies.into_vec();
        replies.as_mut_slice().reverse();
        MemDial {
            alloc,
            replies,
            told: Some(List::new(alloc)),
            missed: 0,
            piece,
            calls: Calls::new(fails),
        }
    }

    /// What went through the links that were given back, in order; none where no memory was found for one of them.
    pub fn calls(&self) -> Option<&List<Call>>
        ensures told { self.now.told ≡ None → result ≡ None }
        ensures calls { (calls : Items Call) → self.now.told ≡ Some calls
            → MatchOption result ⊥ (λ list. list.now ≡ calls) }
    {
        self.told.as_ref()
    }

    /// How many calls of `dial` failed.
    pub fn missed(&self) -> u64
        ensures { result ≡ self.now.missed }
    {
        self.missed
    }

    /// How many calls failed.
    pub fn count(&self) -> u64
        ensures { result ≡ self.now.faults }
    {
        self.calls.faults
    }

    /// The link to the next peer. The error is one of its calls that fails, a dial past the last peer, or want of
    /// memory, each a counted fault.
    fn next_link(&mut self) -> Result<MemLink, Failed>
        ensures fails { Contains self.old.fails self.old.made → IsErr result }
        ensures none_left { self.old.replies ≡ [] → IsErr result }
        ensures new { IfOk result (λ link. (link.heard ≡ []) × (link.said ≡ []) × (link.over ≡ false) × (link.faults ≡ 0)) }
        ensures link { IfOk result (λ link. (reply : Items ℕ) × (self.old.replies ≡ reply ∷ self.new.replies) × IsLinkTo self.new reply link) }
        ensures quiet { OnOk result (self.new.faults ≡ self.old.faults) }
        ensures err_rose { OnErr result (Rose self.old.faults self.new.faults) }
        ensures err_count { OnErr result (self.new.faults ≡ counted self.old.faults) }
        ensures err_kept { OnErr result (self.new.replies ≡ self.old.replies) }
        ensures counted { self.old.faults ≤ self.new.faults }
        ensures call { self.new.made ≡ counted self.old.made }
        ensures others { (self.new.told ≡ self.old.told) × (self.new.missed ≡ self.old.missed) × (self.new.piece ≡ self.old.piece) × (self.new.fails ≡ self.old.fails) }
    {
        self.calls.next()?;
        let Ok(fails) = Vec::from_slice(self.alloc, self.calls.fails.as_slice()) else {
            return Err(self.calls.fault());
        };
        let Some(reply) = self.replies.pop() else {
            return Err(self.calls.fault());
        };
        let calls = Calls::after(self.calls.made, List::from(fails));
        Ok(MemLink::with_calls(self.alloc, reply, self.piece, calls))
    }

    /// Tells what went through a link behind the others, or counts a fault and tells nothing any more.
    fn tell(&mut self, call: Call)
        ensures told { ((self.new.told ≡ and_call self.old.told (Some call)) × (self.new.faults ≡ self.old.faults))
            ⊎ ((self.new.told ≡ None) × Rose self.old.faults self.new.faults) }
        ensures quiet { self.old.told ≡ None → self.new.faults ≡ self.old.faults }
        ensures counted { self.old.faults ≤ self.new.faults }
        ensures others { self.new ≡ record self.old { told = self.new.told; faults = self.new.faults } }
    {
        let Some(told) = &mut self.told else {
            return;
        };
        if told.push(call).is_err() {
            self.told = None;
            self.calls.fault();
        }
    }
}

impl Dial for MemDial {
    type Link = MemLink;

    ghost dial = { mem_dial };

    /// Nobody waits here.
    fn hurry(&mut self) {}

    /// It fails where the call's number stands in the list or no peer is left, and for want of memory alone besides.
    fn dial(&mut self, _addr: &str) -> Result<MemLink, Failed>
        ensures dialled { IsDialled (at_dial mem_dial self.old self.new) (dialled_link mem_link mem_hearing result) }
        ensures calls { KeepsCalls (at_dial mem_dial self.old self.new) }
        ensures counted { self.old.faults ≤ self.new.faults }

        ensures fails { Contains self.old.fails self.old.made → IsErr result }
        ensures none_left { self.old.replies ≡ [] → IsErr result }
        ensures err_count { OnErr result (self.new.faults ≡ counted self.old.faults) }
        ensures err_kept { OnErr result (self.new.replies ≡ self.old.replies) }
        ensures link { IfOk result (λ link. (reply : Items ℕ) × (self.old.replies ≡ reply ∷ self.new.replies) × IsLinkTo self.new reply link) }
        ensures call { self.new.made ≡ counted self.old.made }
        ensures others { (self.new.piece ≡ self.old.piece) × (self.new.fails ≡ self.old.fails) }
    {
        match self.next_link() {
            Ok(link) => Ok(link),
            Err(fault) => {
                self.missed = self.missed.saturating_add(1);
                Err(fault)
            }
        }
    }

    /// Each link is.
    fn is_ready(&mut self, _link: &MemLink) -> bool {
        true
    }

    /// It gives the first one's place.
    fn wait(&mut self, links: &[Option<MemLink>]) -> usize {
        first_link(links)
    }

    /// It takes over the number of calls that the link made. Of a link whose calls failed one fault is counted, however many
    /// failed.
    fn done(&mut self, link: MemLink)
        ensures done { IsHungUp (view_of mem_link mem_hearing link) (at_dial mem_dial self.old self.new) }
        ensures missed { KeepsMissed (at_dial mem_dial self.old self.new) }
        ensures coming { KeepsComing (at_dial mem_dial self.old self.new) }

        ensures once { is_failed link.faults ≡ true → (self.new.told ≡ None → self.old.told ≡ None)
            → self.new.faults ≡ counted self.old.faults }
        ensures call { self.new.made ≡ max self.old.made link.calls }
        ensures others { (self.new.piece ≡ self.old.piece) × (self.new.fails ≡ self.old.fails) }
    {
        let (call, calls) = link.into_call();
        self.calls.made = self.calls.made.max(calls.made);
        if call.failed {
            self.calls.fault();
        }
        self.tell(call);
    }
}

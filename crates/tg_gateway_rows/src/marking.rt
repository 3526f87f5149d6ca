//! A door in memory that marks lanes by a script, to peers each of which has a piece of its own.
ghost use Rattle.std.specs.Prelude.{◌≡◌, None, length, ⊤};

use crate::fields::{number_up_to, numbers_of, parted, piece_of};
use crate::peers::tell_call;
use std::alloc::Global;
use std::marker::Model;
use tg_bytes::{Bytes, List};
use tg_doors::Door;
use tg_faults::{Calls, Failed};
use tg_links::{Call, MemLink};
use tg_rows::Answer;

/// A link that is to come: how many bytes one call of it moves at most, what its peer says, and the numbers of its calls that
/// fail, counted from 0.
#[derive(Drop)]
struct Coming {
    piece: usize,
    text: Bytes,
    fails: List<u64>,
}

/// What the door says up to this wait, counted from 1: the lanes at which a `1` stands are marked, and so many links needn't
/// be waited for.
#[derive(Drop)]
struct Wait {
    until: u64,
    marks: Bytes,
    admits: usize,
}

/// A door that says at each wait what its script says, and marks all behind that. It gives the links that it was given, and fails
/// where there are no more. It doesn't tell what comes through it to its contracts, but to rows.
#[derive(Drop)]
pub struct MarkingDoor {
    alloc: Global,
    /// The last one is the next.
    coming: Vec<Coming>,
    script: Vec<Wait>,
    waits: u64,
    served: Vec<Call>,
    is_bad: bool,
    port: Option<u16>,
    shut: bool,
    calls: Calls,
}

/// What a contract sees of it: its port, whether the last `admit` gave no link, and its faults.
impl Model for MarkingDoor {
    ghost use Rattle.tg_doors.specs.Memory.{DoorState};
    ghost use Rattle.std.specs.Prelude.{[], None};

    ghost Value = { DoorState };

    ghost view = { λ d. record {
      coming = [];
      served = None;
      port = d.port;
      shut = d.shut;
      piece = 1;
      fails = [];
      calls = 0;
      faults = d.calls.faults;
    } };
}

impl MarkingDoor {
    /// A door to peers, each a piece, a text and the number of the call that fails or `none`, by a script of waits, each how often
    /// it is made, its marks, and how many links needn't be waited for.
    pub fn of(alloc: Global, links: &[Bytes], waits: &[Bytes]) -> MarkingDoor {
        let mut door = MarkingDoor {
            alloc,
            coming: Vec::new(alloc),
            script: Vec::new(alloc),
            waits: 0,
            served: Vec::new(alloc),
            is_bad: false,
            port: None,
            shut: false,
            calls: Calls::new(List::new(alloc)),
        };
        for link in links.chunks(3) {
            door.add_link(link);
        }
        door.coming.as_mut_slice().reverse();
        let mut until = 0;
        for wait in waits.chunks(3) {
            until = door.add_wait(until, wait);
        }
        door
    }

    /// Whether it isn't as it was given, or memory was wanted.
    pub fn is_bad(&self) -> bool {
        self.is_bad
    }

    fn add_link(&mut self, link: &[Bytes]) {
        let [piece, text, fails @ ..] = link else {
            self.is_bad = true;
            return;
        };
        let (fails, _) = parted(fails, b"none");
        let text = Bytes::of(self.alloc, text.as_slice());
        match (piece_of(piece), text, numbers_of(self.alloc, fails)) {
            (Some(piece), Ok(text), Some(fails)) => {
                let next = Coming { piece, text, fails };
                self.is_bad |= self.coming.push(next).is_err();
            }
            _ => self.is_bad = true,
        }
    }

    /// Adds a wait behind the wait with this number, and says up to which one it goes.
    fn add_wait(&mut self, before: u64, wait: &[Bytes]) -> u64 {
        let [times, marks, admits] = wait else {
            self.is_bad = true;
            return before;
        };
        let numbers = (number_up_to(times, 1_000_000), number_up_to(admits, 64));
        match (numbers, Bytes::of(self.alloc, marks.as_slice())) {
            ((Some(times), Some(admits)), Ok(marks)) => {
                let until = before.saturating_add(times);
                let next = Wait {
                    until,
                    marks,
                    admits: admits as usize,
                };
                self.is_bad |= self.script.push(next).is_err();
                until
            }
            _ => {
                self.is_bad = true;
                before
            }
        }
    }

    /// Says what was heard and said over each link that was given back, and how often the door was waited for.
    pub fn tell(&self, answer: &mut Answer) {
        for call in self.served.as_slice() {
            tell_call(call, answer);
        }
        answer.number(self.waits);
    }
}

/// What the script says at the wait with this number; none behind its end.
fn wait_at(script: &[Wait], number: u64) -> Option<&Wait> {
    script.iter().find(|wait| number <= wait.until)
}

/// Marks the lanes at which a `1` stands.
fn mark(marks: &[u8], ready: &mut [bool])
    ensures { length ready.new ≡ length ready.old }
{
    for (lane, is_ready) in ready.iter_mut().enumerate() {
        *is_ready = marks.get(lane) == Some(&b'1');
    }
}

impl Door for MarkingDoor {
    type Link = MemLink;

    ghost door = { record {
      coming = λ _. None;
      served = λ _. None;
      port = λ s. s.port;
      shut = λ s. s.shut;
      faults = λ s. s.faults;
      asked = λ _ _ _. ⊤;
    } };

    fn bind(&mut self, port: u16) -> Result<u16, Failed> {
        self.port = Some(port);
        self.shut = false;
        Ok(port)
    }

    fn admit(&mut self) -> Result<Option<MemLink>, Failed> {
        self.shut = true;
        let Some(next) = self.coming.pop() else {
            return Err(self.calls.fault());
        };
        self.shut = false;
        let Coming { piece, text, fails } = next;
        Ok(Some(MemLink::new(self.alloc, text, piece.max(1), fails)))
    }

    fn wait(&mut self, _links: &[Option<MemLink>], _admits: bool, ready: &mut [bool]) -> usize {
        self.waits = self.waits.saturating_add(1);
        match wait_at(self.script.as_slice(), self.waits) {
            Some(wait) => {
                mark(wait.marks.as_slice(), ready);
                wait.admits
            }
            None => {
                ready.fill(true);
                usize::MAX
            }
        }
    }

    fn done(&mut self, link: MemLink) {
        if link.count() > 0 {
            self.calls.fault();
        }
        let (call, _) = link.into_call();
        self.is_bad |= self.served.push(call).is_err();
    }
}

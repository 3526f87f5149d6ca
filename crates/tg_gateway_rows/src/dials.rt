//! A dial in memory: each row is a step, and goes on with what the steps before it left.
use crate::fields::{number_up_to, numbers_of, parted, piece_of, texts_of};
use crate::peers::tell_call;
use std::alloc::Global;
use tg_bytes::{Bytes, List};
use tg_dials::{Dial, MemDial};
use tg_faults::Failed;
use tg_links::MemLink;
use tg_rows::Answer;
use tg_streams::{Source, put_all};

/// The dial that the steps before left.
#[derive(Drop)]
pub struct Dials {
    alloc: Global,
    dial: MemDial,
}

impl Dials {
    /// A dial to no peer.
    pub fn new(alloc: Global) -> Dials {
        Dials {
            alloc,
            dial: MemDial::new(alloc, List::new(alloc), 1, List::new(alloc)),
        }
    }

    /// Answers a step of this kind.
    pub fn answer(&mut self, kind: &str, given: &[Bytes], answer: &mut Answer) {
        match kind {
            "dials" => self.make(given, answer),
            "dial" => self.dial(given, answer),
            _ => self.tell(answer),
        }
    }

    /// `dials PIECE TEXT .. fails FAIL ..`: a dial to peers that say these texts, of which the calls with these numbers
    /// fail, those of the links among them.
    fn make(&mut self, given: &[Bytes], answer: &mut Answer) {
        let [piece, given @ ..] = given else {
            return answer.text("a piece, texts, and calls that fail");
        };
        let (texts, fails) = parted(given, b"fails");
        match (
            piece_of(piece),
            texts_of(self.alloc, texts),
            numbers_of(self.alloc, fails),
        ) {
            (Some(piece), Some(texts), Some(fails)) => {
                self.dial = MemDial::new(self.alloc, texts, piece.max(1), fails);
                answer.text("made");
            }
            _ => answer.text("not made"),
        }
    }

    /// `dial BYTES TAKES`: whether a link is made, into which these bytes are put, of which so many takes are made, and which
    /// is given back: how many of its calls failed. Then how many dials failed, and how many faults there are.
    fn dial(&mut self, given: &[Bytes], answer: &mut Answer) {
        let [bytes, takes] = given else {
            return answer.text("bytes, and how many takes");
        };
        let Some(takes) = number_up_to(takes, 100) else {
            return answer.text("at most 100 takes");
        };
        match self.dial.dial("peer:80") {
            Ok(mut link) => {
                let failed = failed_calls(&mut link, bytes.as_slice(), takes);
                let is_counted = link.count() == failed;
                answer.text(if is_counted { "link" } else { "miscounted" });
                answer.number(failed);
                self.dial.done(link);
            }
            Err(Failed) => answer.text("failed"),
        }
        answer.number(self.dial.missed());
        answer.number(self.dial.count());
    }

    /// `calls`: what went through each link that was given back.
    fn tell(&self, answer: &mut Answer) {
        let Some(calls) = self.dial.calls() else {
            return answer.text("untold");
        };
        for call in calls.as_slice() {
            tell_call(call, answer);
        }
    }
}

/// Puts the bytes and makes the takes, and says how many of these calls failed.
fn failed_calls(link: &mut MemLink, bytes: &[u8], takes: u64) -> u64 {
    let mut room = [0; 8];
    let mut failed = u64::from(put_all(link, bytes).is_err());
    for _ in 0..takes {
        if link.take(&mut room).is_err() {
            failed = failed.saturating_add(1);
        }
    }
    failed
}

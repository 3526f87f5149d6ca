//! A link in memory: each row is a step, and the link is given up behind it, so that it tells what went through it. The next
//! step makes all steps before it anew.
use crate::fields::{number_up_to, numbers_of, piece_of};
use std::alloc::Global;
use tg_bytes::{Bytes, List};
use tg_faults::{Calls, Failed};
use tg_links::{Call, MemLink};
use tg_rows::Answer;
use tg_streams::{Sink, Source};

/// A call of a link: it hears at most so many bytes, or says these.
#[derive(Drop)]
enum Step {
    Hear(u64),
    Say(Bytes),
}

/// A peer that says this text, in pieces of so many bytes, the number of the link's first call and of those that fail, and
/// the calls that the steps before made.
#[derive(Drop)]
pub struct Peer {
    alloc: Global,
    text: Bytes,
    piece: usize,
    first: u64,
    fails: List<u64>,
    steps: List<Step>,
}

impl Peer {
    /// A peer that says nothing, to which no call was made.
    pub fn new(alloc: Global) -> Peer {
        Peer {
            alloc,
            text: Bytes::new(alloc),
            piece: 1,
            first: 0,
            fails: List::new(alloc),
            steps: List::new(alloc),
        }
    }

    /// Answers a step of this kind.
    pub fn answer(&mut self, kind: &str, given: &[Bytes], answer: &mut Answer) {
        match kind {
            "peer" => self.make(given, answer),
            "hear" => self.hear(given, answer),
            _ => self.say(given, answer),
        }
    }

    /// `peer TEXT PIECE FIRST FAIL ..`: a peer that says this text.
    fn make(&mut self, given: &[Bytes], answer: &mut Answer) {
        let [text, piece, first, fails @ ..] = given else {
            return answer.text("a text, a piece, a first call, and calls that fail");
        };
        let text = Bytes::of(self.alloc, text.as_slice());
        let first = number_up_to(first, 1_000_000);
        match (text, piece_of(piece), first, numbers_of(self.alloc, fails)) {
            (Ok(text), Some(piece), Some(first), Some(fails)) => {
                self.text = text;
                self.piece = piece;
                self.first = first;
                self.fails = fails;
                self.steps = List::new(self.alloc);
                self.tell(answer);
            }
            _ => answer.text("not made"),
        }
    }

    /// `hear SIZE`: a take of at most so many bytes.
    fn hear(&mut self, given: &[Bytes], answer: &mut Answer) {
        let [size] = given else {
            return answer.text("a size");
        };
        match number_up_to(size, 64) {
            Some(size) => self.add(Step::Hear(size), answer),
            None => answer.text("a size of at most 64"),
        }
    }

    /// `say BYTES`: a put of these.
    fn say(&mut self, given: &[Bytes], answer: &mut Answer) {
        let [bytes] = given else {
            return answer.text("bytes");
        };
        match Bytes::of(self.alloc, bytes.as_slice()) {
            Ok(bytes) => self.add(Step::Say(bytes), answer),
            Err(_) => answer.lack(),
        }
    }

    fn add(&mut self, step: Step, answer: &mut Answer) {
        match self.steps.push(step) {
            Ok(()) => self.tell(answer),
            Err(_) => answer.lack(),
        }
    }

    /// The link before any call.
    fn link(&self) -> Option<MemLink> {
        match (
            Bytes::of(self.alloc, self.text.as_slice()),
            Vec::from_slice(self.alloc, self.fails.as_slice()),
        ) {
            (Ok(text), Ok(fails)) => {
                let calls = Calls::after(self.first, List::from(fails));
                Some(MemLink::with_calls(self.alloc, text, self.piece.max(1), calls))
            }
            _ => None,
        }
    }

    /// Says what the last step answers, and what the link tells then.
    fn tell(&self, answer: &mut Answer) {
        match self.link() {
            Some(link) => tell_steps(self.alloc, link, self.steps.as_slice(), answer),
            None => answer.lack(),
        }
    }
}

/// How many bytes a step moves.
fn moved(link: &mut MemLink, step: &Step) -> Result<usize, Failed> {
    let mut room = [0; 64];
    match step {
        Step::Hear(size) => {
            let size = (*size).min(64) as usize;
            link.take(&mut room[..size])
        }
        Step::Say(bytes) => link.put(bytes.as_slice()),
    }
}

fn tell_steps(alloc: Global, mut link: MemLink, steps: &[Step], answer: &mut Answer) {
    let mut last = None;
    for step in steps {
        last = Some(moved(&mut link, step));
    }
    match last {
        Some(Ok(size)) => answer.number(size as u64),
        Some(Err(Failed)) => answer.text("failed"),
        None => {}
    }
    tell_link(alloc, link, answer);
}

/// Says how many calls of a link failed, what it tells once it is given up, and how many calls were made.
fn tell_link(alloc: Global, link: MemLink, answer: &mut Answer) {
    answer.number(link.count());
    match (
        Bytes::of(alloc, link.heard()),
        Bytes::of(alloc, link.said()),
    ) {
        (Ok(heard), Ok(said)) => {
            let (call, calls) = link.into_call();
            tell_call(&call, answer);
            if call.heard.as_slice() != heard.as_slice()
                || call.said.as_slice() != said.as_slice()
            {
                answer.text("otherwise before it was given up");
            }
            answer.number(calls.made);
        }
        _ => answer.lack(),
    }
}

/// Says what was heard and said, whether the peer said no more, and whether a call failed.
pub fn tell_call(call: &Call, answer: &mut Answer) {
    answer.bytes(call.heard.as_slice());
    answer.bytes(call.said.as_slice());
    answer.text(if call.over { "over" } else { "open" });
    answer.text(if call.failed { "failed" } else { "well" });
}

//! A door in memory: each row is a step, and goes on with what the steps before it left.
use crate::fields::{number_up_to, numbers_of, parted, piece_of, texts_of};
use std::alloc::Global;
use tg_bytes::{Bytes, List};
use tg_doors::{Door, MemDoor};
use tg_faults::Failed;
use tg_links::MemLink;
use tg_rows::Answer;
use tg_streams::{Sink, Source};

/// The door that the steps before left.
#[derive(Drop)]
pub struct Doors {
    alloc: Global,
    door: MemDoor,
}

impl Doors {
    /// A door to no peer.
    pub fn new(alloc: Global) -> Doors {
        Doors {
            alloc,
            door: MemDoor::new(alloc, List::new(alloc), 1, List::new(alloc)),
        }
    }

    /// Answers a step of this kind.
    pub fn answer(&mut self, kind: &str, given: &[Bytes], answer: &mut Answer) {
        match kind {
            "door" => self.make(given, answer),
            "bind" => self.bind(given, answer),
            _ => self.admit(given, answer),
        }
    }

    /// `door PIECE TEXT .. fails FAIL ..`: a door to peers that say these texts, of which the calls with these numbers fail,
    /// those of the links among them.
    fn make(&mut self, given: &[Bytes], answer: &mut Answer) {
        let [piece, given @ ..] = given else {
            return answer.text("a piece, texts, and calls that fail");
        };
        let (texts, fails) = parted(given, b"fails");
        match (
            piece_of(piece),
            texts_of(self.alloc, texts),
            numbers_of(self.alloc, fails),
        ) {
            (Some(piece), Some(texts), Some(fails)) => {
                self.door = MemDoor::new(self.alloc, texts, piece.max(1), fails);
                answer.text("made");
            }
            _ => answer.text("not made"),
        }
    }

    /// `bind PORT`: to which port the door is bound.
    fn bind(&mut self, given: &[Bytes], answer: &mut Answer) {
        let [port] = given else {
            return answer.text("a port");
        };
        let Some(port) = number_up_to(port, 65_535) else {
            return answer.text("a port of at most 65535");
        };
        match self.door.bind(port.min(65_535) as u16) {
            Ok(port) => answer.number(u64::from(port)),
            Err(Failed) => answer.text("failed"),
        }
        self.tell(answer);
    }

    /// `admit BYTES`: whether a link comes, which is heard once, says these bytes, and is given back.
    fn admit(&mut self, given: &[Bytes], answer: &mut Answer) {
        let [bytes] = given else {
            return answer.text("bytes");
        };
        match self.door.admit() {
            Ok(Some(mut link)) => {
                use_link(&mut link, bytes.as_slice(), answer);
                self.door.done(link);
            }
            Ok(None) => answer.text("none"),
            Err(Failed) => answer.text("failed"),
        }
        self.tell(answer);
    }

    /// Says how many calls failed, and what went through each link that was given back: what was heard and said, and whether
    /// a call failed.
    fn tell(&self, answer: &mut Answer) {
        answer.number(self.door.count());
        let Some(served) = self.door.served() else {
            return answer.text("untold");
        };
        for call in served.as_slice() {
            answer.bytes(call.heard.as_slice());
            answer.bytes(call.said.as_slice());
            answer.text(if call.failed { "failed" } else { "well" });
        }
    }
}

/// Says how many bytes a link hears, and then how many it says.
fn use_link(link: &mut MemLink, bytes: &[u8], answer: &mut Answer) {
    let mut room = [0; 4];
    let heard = link.take(&mut room);
    say_moved(heard, answer);
    let said = link.put(bytes);
    say_moved(said, answer);
}

fn say_moved(moved: Result<usize, Failed>, answer: &mut Answer) {
    match moved {
        Ok(size) => answer.number(size as u64),
        Err(Failed) => answer.text("failed"),
    }
}

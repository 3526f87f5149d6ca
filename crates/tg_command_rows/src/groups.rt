//! Answers of many runs, of which those that are the same one behind another are said once.
use std::alloc::Global;
use tg_bytes::Bytes;
use tg_rows::Answer;

/// The last answer that was said, and of how many runs it is.
#[derive(Drop)]
pub struct Groups {
    last: Bytes,
    times: u64,
}

impl Groups {
    /// None was said.
    pub fn new(alloc: Global) -> Groups {
        Groups {
            last: Bytes::new(alloc),
            times: 0,
        }
    }

    /// Takes the answer of a further run. Whether it is another than the last, of which it is said then how often it came.
    pub fn turns(&mut self, next: &Answer, answer: &mut Answer) -> bool {
        let next = next.shown();
        let is_same = self.times > 0 && next.as_slice() == self.last.as_slice();
        if !is_same {
            self.end(answer);
            self.last = next;
            self.times = 0;
        }
        self.times = self.times.saturating_add(1);
        !is_same
    }

    /// Says how often the last answer came.
    pub fn end(&mut self, answer: &mut Answer) {
        if self.times > 0 {
            answer.text("times");
            answer.number(self.times);
        }
    }
}

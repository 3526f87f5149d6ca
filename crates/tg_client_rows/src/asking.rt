//! What a row asks, what is replied, and within which limits.
ghost use Rattle.tg_query.specs.Requests.{IsAddr};

use std::alloc::{AllocError, Global};
use std::str::from_utf8;
use tg_bytes::{Bytes, List, number_of};
use tg_model::{LimitKind, Limits, Query};
use tg_query::{join, parse_accept, parse_target};

/// The address of a gateway.
pub fn addr() -> &'static str
    ensures { IsAddr result.now }
{
    "localhost:8080"
}

/// What a row gives: behind `?` the target that is asked, behind `accept` the value of an `Accept` field, behind `!` a
/// piece of the reply, behind `asks` the request, behind `piece` how many bytes one call moves, behind `out` which put
/// fails, and behind the name of a limit its number.
#[derive(Drop)]
pub struct Given {
    alloc: Global,
    pub target: Bytes,
    pub accept: Bytes,
    pub request: Bytes,
    pub reply: Bytes,
    pub is_replied: bool,
    pub limits: Limits,
    pub piece: usize,
    pub out_fails: Option<u64>,
    pub is_bad: bool,
}

/// What these fields give, each mark with its value.
pub fn given_of(alloc: Global, fields: &[Bytes]) -> Given {
    let mut given = Given {
        alloc,
        target: Bytes::new(alloc),
        accept: Bytes::new(alloc),
        request: Bytes::new(alloc),
        reply: Bytes::new(alloc),
        is_replied: false,
        limits: Limits::standard(),
        piece: 1,
        out_fails: None,
        is_bad: false,
    };
    for pair in fields.chunks(2) {
        given.add(pair);
    }
    given
}

impl Given {
    /// Adds what a mark and its value give.
    fn add(&mut self, pair: &[Bytes]) {
        let [mark, value] = pair else {
            self.is_bad = true;
            return;
        };
        let value = value.as_slice();
        let is_added = match from_utf8(mark.as_slice()) {
            Ok("?") => self.target.push_all(value).is_ok(),
            Ok("accept") => self.accept.push_all(value).is_ok(),
            Ok("asks") => self.request.push_all(value).is_ok(),
            Ok("!") => self.add_reply(value),
            Ok(mark) => self.add_number(mark, value),
            Err(_) => false,
        };
        if !is_added {
            self.is_bad = true;
        }
    }

    /// Adds a piece of the reply. Whether there is memory.
    fn add_reply(&mut self, piece: &[u8]) -> bool {
        self.is_replied = true;
        self.reply.push_all(piece).is_ok()
    }

    /// Adds what a mark and its number give. Whether it is one.
    fn add_number(&mut self, mark: &str, value: &[u8]) -> bool {
        let Some(number) = number_of(value) else {
            return false;
        };
        match mark {
            "piece" => self.piece = (number.min(1 << 20) as usize).max(1),
            "out" => self.out_fails = Some(number),
            _ => return self.add_limit(mark, number),
        }
        true
    }

    /// Has a limit be this number, which is at most the standard one. Whether it is one.
    fn add_limit(&mut self, name: &str, number: u64) -> bool {
        let kind = match name {
            "block" => LimitKind::Block,
            "depth" => LimitKind::Depth,
            "received" => LimitKind::Received,
            _ => return false,
        };
        if number > Limits::standard().number(kind) {
            return false;
        }
        self.limits = self.limits.with(kind, number);
        true
    }

    /// The query that is asked.
    pub fn query(&self) -> Option<Query> {
        let Ok(target) = parse_target(self.alloc, self.target.as_slice()) else {
            return None;
        };
        let Ok(values) = list_of(self.alloc, self.accept.as_slice()) else {
            return None;
        };
        let Ok(accepted) = parse_accept(self.alloc, &values) else {
            return None;
        };
        join(self.alloc, target, &accepted).ok()
    }
}

/// The list of these bytes alone.
fn list_of(alloc: Global, bytes: &[u8]) -> Result<List<Bytes>, AllocError> {
    let mut list = List::new(alloc);
    list.push(Bytes::of(alloc, bytes)?)?;
    Ok(list)
}

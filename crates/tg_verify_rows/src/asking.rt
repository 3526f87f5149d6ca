//! What a row asks of a DAG, what is fed, and within which limits.
use std::alloc::{AllocError, Global};
use std::str::from_utf8;
use tg_bytes::{Bytes, List, number_of};
use tg_cid::Cid;
use tg_model::{LimitKind, Limits, Query, Scope, SpanFrom};
use tg_oracle::scoped_query;
use tg_test_dags::Asked;

/// What a row gives: behind `asks` a scope or a range, behind `path` a segment, behind `dups` whether each block is sent at
/// each of its places, `y`, or once, `n`, behind `takes` the numbers of the blocks that come, behind `then` those that come
/// behind the end, behind `fails` the number of a put that fails, and behind the name of a limit its number.
#[derive(Drop)]
pub struct Given {
    alloc: Global,
    asked: Option<Asked>,
    path: List<Bytes>,
    pub dups: bool,
    pub takes: List<u64>,
    pub fails: List<u64>,
    pub limits: Limits,
    /// The limit that is given last.
    pub counted: Option<(LimitKind, u64)>,
    pub is_bad: bool,
}

/// What these fields give, each mark with its value.
pub fn given_of(alloc: Global, fields: &[Bytes]) -> Given {
    let mut given = Given {
        alloc,
        asked: Some(Asked::Scope(Scope::Entity)),
        path: List::new(alloc),
        dups: true,
        takes: List::new(alloc),
        fails: List::new(alloc),
        limits: Limits::standard(),
        counted: None,
        is_bad: false,
    };
    for pair in fields.chunks(2) {
        given.add(pair);
    }
    given
}

impl Given {
    /// Adds what a mark and its value give.
    fn add(&mut self, pair: &[Bytes]) {
        let [mark, value] = pair else {
            self.is_bad = true;
            return;
        };
        if !self.is_added(mark.as_slice(), value.as_slice()) {
            self.is_bad = true;
        }
    }

    /// Adds it. Whether it is something that can be given, and there is memory.
    fn is_added(&mut self, mark: &[u8], value: &[u8]) -> bool {
        match from_utf8(mark) {
            Ok("asks") => {
                self.asked = asked_of(value);
                self.asked.is_some()
            }
            Ok("path") => self.is_segment_added(value),
            Ok("dups") => {
                self.dups = value == b"y".as_slice();
                self.dups || value == b"n".as_slice()
            }
            Ok("takes") => are_added(&mut self.takes, value),
            Ok("fails") => are_added(&mut self.fails, value),
            Ok(name) => self.is_limit_added(name, value),
            Err(_) => false,
        }
    }

    /// Adds a segment of the path. Whether there is memory.
    fn is_segment_added(&mut self, segment: &[u8]) -> bool {
        match Bytes::of(self.alloc, segment) {
            Ok(segment) => self.path.push(segment).is_ok(),
            Err(_) => false,
        }
    }

    /// Has a limit be this number, which is at most the standard one. Whether it is one.
    fn is_limit_added(&mut self, name: &str, value: &[u8]) -> bool {
        let (Some(kind), Some(number)) = (kind_of(name), number_of(value)) else {
            return false;
        };
        self.limits = limits_with(self.limits, kind, number);
        self.counted = Some((kind, number));
        number <= Limits::standard().number(kind)
    }

    /// The query of a root.
    pub fn query(&self, root: Cid) -> Option<Query> {
        let Ok(path) = segments_of(self.alloc, self.path.as_slice()) else {
            return None;
        };
        match (
            scoped_query(self.alloc, root, path.as_slice(), Scope::Entity),
            self.asked,
        ) {
            (Ok(query), Some(asked)) => asked.at(self.alloc, &query, self.dups),
            _ => None,
        }
    }
}

/// The segments as texts; one that is none is left out.
fn segments_of(alloc: Global, path: &[Bytes]) -> Result<Vec<&str>, AllocError> {
    let mut segments = Vec::new(alloc);
    for segment in path {
        if let Ok(segment) = from_utf8(segment.as_slice()) {
            segments.push(segment)?;
        }
    }
    Ok(segments)
}

/// These limits, but for one, where that is no greater than its standard number.
pub fn limits_with(limits: Limits, kind: LimitKind, number: u64) -> Limits {
    if number > Limits::standard().number(kind) {
        return limits;
    }
    limits.with(kind, number)
}

/// The kind of limit with this name.
fn kind_of(name: &str) -> Option<LimitKind> {
    match name {
        "block" => Some(LimitKind::Block),
        "depth" => Some(LimitKind::Depth),
        "entries" => Some(LimitKind::Entries),
        "names" => Some(LimitKind::Names),
        "received" => Some(LimitKind::Received),
        "output" => Some(LimitKind::Output),
        "seen-blocks" => Some(LimitKind::SeenBlocks),
        "seen-bytes" => Some(LimitKind::SeenBytes),
        "reused" => Some(LimitKind::Reused),
        _ => None,
    }
}

/// Adds the numbers that stand between blanks, and those from one down to another, as `3..0`. Whether they are numbers, and
/// there is memory.
fn are_added(numbers: &mut List<u64>, text: &[u8]) -> bool {
    let mut rest = text;
    for _ in 0..=text.len() {
        let at = rest
            .iter()
            .position(|byte| *byte == b' ')
            .unwrap_or(rest.len());
        let (front, behind) = rest.split_at(at.min(rest.len()));
        if !front.is_empty() && !is_number_added(numbers, front) {
            return false;
        }
        match behind.split_first() {
            Some((_, behind)) => rest = behind,
            None => return true,
        }
    }
    true
}

/// Adds a number, or those from one down to another. Whether they are numbers, and there is memory.
fn is_number_added(numbers: &mut List<u64>, text: &[u8]) -> bool {
    let at = text
        .iter()
        .position(|byte| *byte == b'.')
        .unwrap_or(text.len());
    let (from, to) = text.split_at(at.min(text.len()));
    let to = to.get(2..).unwrap_or(from);
    match (number_of(from), number_of(to)) {
        (Some(from), Some(to)) => are_down_added(numbers, from, to),
        _ => false,
    }
}

/// Adds the numbers from one down to another, which is no greater. Whether it is, and there is memory.
fn are_down_added(numbers: &mut List<u64>, from: u64, to: u64) -> bool {
    let Some(below) = from.checked_sub(to) else {
        return false;
    };
    for count in 0..=below {
        if numbers.push(from.saturating_sub(count)).is_err() {
            return false;
        }
    }
    true
}

/// The scope with this name, or the range that stands here as in a request: `3:8`, `3:*`, `-3:*`.
fn asked_of(text: &[u8]) -> Option<Asked> {
    match from_utf8(text) {
        Ok("block") => Some(Asked::Scope(Scope::Block)),
        Ok("entity") => Some(Asked::Scope(Scope::Entity)),
        Ok("all") => Some(Asked::Scope(Scope::All)),
        _ => range_of(text),
    }
}

/// The range that stands here.
fn range_of(text: &[u8]) -> Option<Asked> {
    let at = text.iter().position(|byte| *byte == b':')?;
    let (from, to) = text.split_at(at.min(text.len()));
    let from = from_of(from)?;
    match to.get(1..) {
        Some([b'*']) => Some(Asked::Bytes(from, None)),
        Some(digits) => {
            let to = number_of(digits)?;
            Some(Asked::Bytes(from, Some(to)))
        }
        None => None,
    }
}

/// Where a range begins.
fn from_of(text: &[u8]) -> Option<SpanFrom> {
    match text.split_first() {
        Some((b'-', digits)) => {
            let count = number_of(digits)?;
            Some(SpanFrom::Last(count))
        }
        _ => {
            let start = number_of(text)?;
            Some(SpanFrom::Start(start))
        }
    }
}

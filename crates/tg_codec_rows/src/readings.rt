//! CARs that a reader is fed in pieces.
use std::alloc::Global;
use tg_car::{CarFault, CarReader, Event, Section, section_head};

/// How many headers and sections a reader gave, and its end or refusal.
#[derive(Clone, Copy, PartialEq, Eq)]
pub struct Found {
    pub headers: u64,
    pub sections: u64,
    pub end: Result<(), CarFault>,
}

/// A reader that is fed a text, and what it gave of it.
#[derive(Drop)]
struct Reading<'a> {
    reader: CarReader,
    /// What of the text was neither given as the header nor as a section.
    left: &'a [u8],
    headers: u64,
    sections: u64,
    /// Where the next section must begin.
    next: u64,
    /// Whether all that was given stands in the text, and each section where and as long as was said.
    placed: bool,
    /// How many bytes were taken.
    taken: usize,
}

impl<'a> Reading<'a> {
    /// A reader that was fed nothing yet.
    fn new(alloc: Global, limit: u64, text: &'a [u8]) -> Self {
        Reading {
            reader: CarReader::new(alloc, limit),
            left: text,
            headers: 0,
            sections: 0,
            next: 0,
            placed: true,
            taken: 0,
        }
    }

    /// Feeds the text in pieces of so many bytes, and then ends it, up to a refusal.
    fn feed_all(&mut self, text: &[u8], size: usize) -> Result<(), CarFault> {
        for piece in text.chunks(size.max(1)) {
            self.feed(piece)?;
        }
        self.reader.end()
    }

    /// Feeds a piece.
    fn feed(&mut self, piece: &[u8]) -> Result<(), CarFault> {
        let mut rest = piece;
        for _ in 0..piece.len() {
            if rest.is_empty() {
                break;
            }
            let (taken, event) = self.reader.feed(rest)?;
            rest = &rest[taken..];
            self.taken = self.taken.saturating_add(taken);
            self.add(&event);
        }
        Ok(())
    }

    /// Counts what the reader gave, and looks where it stands.
    fn add(&mut self, event: &Event) {
        match event {
            Event::Need => {}
            Event::Header(header) => {
                self.headers = self.headers.saturating_add(1);
                self.next = header.as_slice().len() as u64;
                self.give(header.as_slice());
            }
            Event::Section { at, size, section } => {
                self.sections = self.sections.saturating_add(1);
                self.placed &= *at == self.next;
                self.next = at.saturating_add(*size);
                self.add_section(*size, section);
            }
        }
    }

    /// Looks where a section of so many bytes stands.
    fn add_section(&mut self, size: u64, section: &Section) {
        let block = section.block.as_slice();
        if block.len() > 1000 {
            self.placed = false;
            return;
        }
        let (head, front) = section_head(&section.cid, block.len() as u64);
        self.placed &= size == front as u64 + block.len() as u64;
        self.give(&head[..front]);
        self.give(block);
    }

    /// Takes off what was given from the text.
    fn give(&mut self, part: &[u8]) {
        self.placed &= self.left.starts_with(part);
        self.left = self.left.get(part.len()..).unwrap_or(b"");
    }

    /// Whether a refusal is given again whatever comes.
    fn keeps(&mut self, fault: CarFault) -> bool {
        matches!(self.reader.feed(b"\x11"), Err(other) if other == fault)
            && matches!(self.reader.feed(b""), Err(other) if other == fault)
            && self.reader.end() == Err(fault)
    }

    /// Whether the whole text was given and taken. Of one that it refused, in pieces of one byte, all but the last byte
    /// was taken.
    fn is_done(&mut self, ended: Result<(), CarFault>, length: usize, size: usize) -> bool {
        match ended {
            Ok(()) => self.left.is_empty() && self.taken == length,
            Err(CarFault::Torn { at }) => self.keeps(CarFault::Torn { at }) && self.taken == length,
            Err(fault) => self.keeps(fault) && (size > 1 || self.taken.saturating_add(1) == length),
        }
    }
}

/// What a reader with this limit of a block gives of a text in pieces of so many bytes; none where it gives something
/// that doesn't stand there, or forgets a refusal.
pub fn found_in(alloc: Global, limit: u64, text: &[u8], size: usize) -> Option<Found> {
    let mut reading = Reading::new(alloc, limit, text);
    let end = reading.feed_all(text, size);
    if !reading.is_done(end, text.len(), size) || !reading.placed {
        return None;
    }
    Some(Found {
        headers: reading.headers,
        sections: reading.sections,
        end,
    })
}

/// What a reader gives of a text that is refused, whatever follows it, in pieces of a thousand bytes; none where it gives
/// what doesn't stand there.
pub fn found_longer(alloc: Global, limit: u64, text: &[u8]) -> Option<Found> {
    let parts: [&[u8]; 2] = [text, text];
    match parts.concat(alloc) {
        Ok(longer) => found_in(alloc, limit, longer.as_slice(), 1000),
        Err(_) => None,
    }
}

//! Sources, sinks, links, dials and doors in memory that note of each take how large its room is, and how many bytes were
//! put before it.
ghost use Rattle.std.proofs.Common.{Some, ap};
ghost use Rattle.std.specs.Prelude.{refl};
ghost use Rattle.tg_dials.specs.Memory.{mem_dial};
ghost use Rattle.tg_doors.specs.Memory.{mem_door};
ghost use Rattle.tg_links.specs.Memory.{hears_joins, hears_rests, mem_hearing, mem_link, mem_saying, says_joins, says_rests};
ghost use Rattle.tg_streams.specs.Memory.{mem_sink, mem_source, sink_joins, sink_rests, source_joins, source_rests};

use std::cell::Cell;
use std::marker::Model;
use tg_dials::{Dial, MemDial, first_link};
use tg_doors::{Door, MemDoor};
use tg_faults::Failed;
use tg_links::{Link, MemLink};
use tg_rows::Answer;
use tg_streams::{MemSink, MemSource, Sink, Source};

/// Of how many takes it is noted what was put before them.
const MOST_NOTED: usize = 16;

/// What was noted: how many takes there were, the largest room that one was handed, how many bytes were put, and how many
/// were put before each of the first takes.
#[derive(Drop)]
pub struct Notes {
    takes: Cell<usize>,
    room: Cell<usize>,
    put: Cell<u64>,
    before: Cell<[u64; MOST_NOTED]>,
}

impl Notes {
    /// Nothing yet.
    pub fn new() -> Notes {
        Notes {
            takes: Cell::new(0),
            room: Cell::new(0),
            put: Cell::new(0),
            before: Cell::new([0; MOST_NOTED]),
        }
    }

    /// Notes a take with so much room.
    fn take(&self, room: usize) {
        let takes = self.takes.get();
        let mut before = self.before.get();
        if let Some(put) = before.get_mut(takes) {
            *put = self.put.get();
        }
        self.before.set(before);
        self.takes.set(takes.saturating_add(1));
        self.room.set(self.room.get().max(room));
    }

    /// Notes that so many bytes were put.
    fn put(&self, size: usize) {
        self.put.set(self.put.get().saturating_add(size as u64));
    }

    /// Says the largest room, how many bytes were put before each take, and how many were put at last.
    pub fn tell(&self, answer: &mut Answer) {
        let takes = self.takes.get();
        if takes > MOST_NOTED {
            answer.text("more takes than are noted");
        }
        answer.number(self.room.get() as u64);
        for put in self.before.get().iter().take(takes) {
            answer.number(*put);
        }
        answer.number(self.put.get());
    }
}

/// A source in memory whose takes are noted.
#[derive(Drop)]
pub struct NotedSource<'a> {
    pub inner: MemSource,
    pub notes: &'a Notes,
}

impl<'a> Model for NotedSource<'a> {
    ghost use Rattle.tg_streams.specs.Memory.{SourceState};

    ghost Value = { SourceState };

    ghost view = { λ s. s.inner };
}

impl Source for NotedSource<'_> {
    ghost source = { mem_source };

    ghost rests = { λ s. source_rests s };

    ghost joins = { λ a b c u v. source_joins a b c u v };

    fn take(&mut self, buf: &mut [u8]) -> Result<usize, Failed> {
        self.notes.take(buf.len());
        self.inner.take(buf)
    }
}

/// A sink in memory whose puts are noted.
#[derive(Drop)]
pub struct NotedSink<'a> {
    pub inner: MemSink,
    pub notes: &'a Notes,
}

impl<'a> Model for NotedSink<'a> {
    ghost use Rattle.tg_streams.specs.Memory.{SinkState};

    ghost Value = { SinkState };

    ghost view = { λ s. s.inner };
}

impl Sink for NotedSink<'_> {
    ghost sink = { mem_sink };

    ghost rests = { λ s. sink_rests s };

    ghost joins = { λ a b c u v. sink_joins a b c u v };

    fn put(&mut self, bytes: &[u8]) -> Result<usize, Failed> {
        let size = self.inner.put(bytes)?;
        self.notes.put(size);
        Ok(size)
    }
}

/// A link in memory whose takes are noted, and whose puts are where `says` holds.
#[derive(Drop)]
pub struct NotedLink<'a> {
    pub inner: MemLink,
    pub notes: &'a Notes,
    pub says: bool,
}

impl<'a> Model for NotedLink<'a> {
    ghost use Rattle.tg_links.specs.Memory.{LinkState};

    ghost Value = { LinkState };

    ghost view = { λ l. l.inner };
}

impl Source for NotedLink<'_> {
    ghost source = { mem_hearing };

    ghost rests = { λ s. hears_rests s };

    ghost joins = { λ a b c u v. hears_joins a b c u v };

    fn take(&mut self, buf: &mut [u8]) -> Result<usize, Failed> {
        self.notes.take(buf.len());
        self.inner.take(buf)
    }
}

impl Sink for NotedLink<'_> {
    ghost sink = { mem_saying };

    ghost rests = { λ s. says_rests s };

    ghost joins = { λ a b c u v. says_joins a b c u v };

    fn put(&mut self, bytes: &[u8]) -> Result<usize, Failed> {
        let size = self.inner.put(bytes)?;
        if self.says {
            self.notes.put(size);
        }
        Ok(size)
    }
}

impl Link for NotedLink<'_> {
    ghost link = { mem_link };

    ghost hears = { λ a b bytes t. record { left = ap Some t.rest; heard = ap Some t.heard; said = ap Some t.said; over = t.over; ended = t.ended } };

    ghost says = { λ a b bytes t. record { said = ap Some t.said; left = ap Some t.rest; heard = ap Some t.heard; over = t.over } };

    ghost ends = { λ s over. over };

    ghost one_count = { λ s. refl };
}

/// A dial in memory of whose links the takes are noted.
#[derive(Drop)]
pub struct NotedDial<'a> {
    pub inner: MemDial,
    pub notes: &'a Notes,
}

impl<'a> Model for NotedDial<'a> {
    ghost use Rattle.tg_dials.specs.Memory.{DialState};

    ghost Value = { DialState };

    ghost view = { λ d. d.inner };
}

impl<'a> Dial for NotedDial<'a> {
    type Link = NotedLink<'a>;

    ghost dial = { mem_dial };

    fn hurry(&mut self) {
        self.inner.hurry();
    }

    fn dial(&mut self, addr: &str) -> Result<NotedLink<'a>, Failed> {
        let inner = self.inner.dial(addr)?;
        Ok(NotedLink {
            inner,
            notes: self.notes,
            says: false,
        })
    }

    fn is_ready(&mut self, _link: &NotedLink<'a>) -> bool {
        true
    }

    fn wait(&mut self, links: &[Option<NotedLink<'a>>]) -> usize {
        first_link(links)
    }

    fn done(&mut self, link: NotedLink<'a>) {
        self.inner.done(link.inner);
    }
}

/// A door in memory of whose links the takes and puts are noted.
#[derive(Drop)]
pub struct NotedDoor<'a> {
    pub inner: MemDoor,
    pub notes: &'a Notes,
}

impl<'a> Model for NotedDoor<'a> {
    ghost use Rattle.tg_doors.specs.Memory.{DoorState};

    ghost Value = { DoorState };

    ghost view = { λ d. d.inner };
}

impl<'a> Door for NotedDoor<'a> {
    type Link = NotedLink<'a>;

    ghost door = { mem_door };

    fn bind(&mut self, port: u16) -> Result<u16, Failed> {
        self.inner.bind(port)
    }

    fn admit(&mut self) -> Result<Option<NotedLink<'a>>, Failed> {
        match self.inner.admit()? {
            Some(inner) => Ok(Some(NotedLink {
                inner,
                notes: self.notes,
                says: true,
            })),
            None => Ok(None),
        }
    }

    fn wait(
        &mut self,
        _links: &[Option<NotedLink<'a>>],
        _admits: bool,
        ready: &mut [bool],
    ) -> usize {
        ready.fill(true);
        1
    }

    fn done(&mut self, link: NotedLink<'a>) {
        self.inner.done(link.inner);
    }
}

//! Small pieces that are gathered before they are put.
ghost use Rattle.std.specs.Prelude.{◌≡◌, ◌+◌, ◌<◌, ◌≤◌, [], ◌++◌, length, IsOk, IfOk, OnOk, OnErr};
ghost use Rattle.tg_streams.specs.Gathering.{Gave, gathering_room};
ghost use Rattle.tg_streams.specs.Streams.{OutputQuiet, Put, PutFront, into};

use crate::sinks::{Sink, put_all};
use std::alloc::{AllocError, Global};
use std::marker::Model;
use tg_bytes::{Bytes, zeros};
use tg_faults::Failed;

/// How many bytes are gathered at most: 32 KiB. Clauses cite it as `gathering_room` of the specification.
pub const GATHERING_ROOM: usize = 32_768;

/// Room in which small pieces are gathered before they are put, which contracts see as the bytes that are gathered: at
/// most `GATHERING_ROOM` of them.
#[derive(Drop)]
pub struct Gathering {
    room: Bytes,
    used: usize,
}

impl Model for Gathering {
    ghost use Rattle.std.specs.Prelude.{◌≡◌, ◌≤◌, ℕ, List, length, take};
    ghost use Rattle.tg_streams.specs.Gathering.{gathering_room};

    ghost Value = { List ℕ };

    ghost view = { λ g. take g.used g.room };

    ghost invariant = { λ g. (length g.room ≡ gathering_room) × (g.used ≤ gathering_room) };
}

impl Gathering {
    /// Room in which nothing is gathered. It takes its whole memory here, and no other call takes memory. The error is
    /// want of memory.
    pub fn new(alloc: Global) -> Result<Gathering, AllocError>
        ensures { IfOk result (λ gathered. gathered ≡ []) }
    {
        Ok(Gathering {
            room: Bytes::from(zeros(alloc, GATHERING_ROOM)?),
            used: 0,
        })
    }

    /// Gives bytes to be put behind those that are gathered. Bytes that fit behind these are gathered, and nothing is
    /// put. Otherwise what is gathered is put, and then the bytes are gathered where they fit into the whole room, and
    /// put where they don't. The error is a fault of the sink, into which a front of what was gathered and of the bytes
    /// went; nothing is gathered then.
    pub fn give<S: Sink>(&mut self, sink: &mut S, bytes: &[u8]) -> Result<(), Failed>
        ensures gave { OnOk result (Gave bytes.now self.old self.new (into S.sink sink.old sink.new)) }

        // What fits is gathered, and nothing is put.
        ensures gathers { length self.old + length bytes.now ≤ gathering_room
            → IsOk result × (self.new ≡ self.old ++ bytes.now) × (sink.new ≡ sink.old) }

        // What doesn't fit into the whole room goes straight from where it lies.
        ensures straight { gathering_room < length bytes.now → OnOk result (self.new ≡ []) }

        ensures err_front { OnErr result (PutFront (self.old ++ bytes.now) (into S.sink sink.old sink.new)) }
        ensures err_nothing { OnErr result (self.new ≡ []) }
        ensures counted { S.sink.faults sink.old ≤ S.sink.faults sink.new }
    {
        if bytes.len() <= self.free() {
            self.gather(bytes);
            return Ok(());
        }
        self.put_out(sink)?;
        if bytes.len() <= GATHERING_ROOM {
            self.gather(bytes);
            return Ok(());
        }
        put_all(sink, bytes)
    }

    /// Puts what is gathered, so that nothing is gathered any more. The error is a fault of the sink, into which a front
    /// of what was gathered went.
    pub fn put_out<S: Sink>(&mut self, sink: &mut S) -> Result<(), Failed>
        ensures put { OnOk result (Put self.old (into S.sink sink.old sink.new)) }
        ensures quiet { OnOk result (OutputQuiet (into S.sink sink.old sink.new)) }
        ensures nothing { self.new ≡ [] }

        // Where nothing is gathered, the sink is not called.
        ensures still { self.old ≡ [] → IsOk result × (sink.new ≡ sink.old) }

        ensures err_front { OnErr result (PutFront self.old (into S.sink sink.old sink.new)) }
        ensures counted { S.sink.faults sink.old ≤ S.sink.faults sink.new }
    {
        if self.used == 0 {
            return Ok(());
        }
        let put = put_all(sink, self.gathered());
        self.clear();
        put
    }

    /// The bytes that are gathered, in order.
    fn gathered(&self) -> &[u8]
        ensures { result.now ≡ self.now }
    {
        &self.room.as_slice()[..self.used]
    }

    /// How many more bytes can be gathered.
    fn free(&self) -> usize
        ensures { length self.now + result ≡ gathering_room }
    {
        GATHERING_ROOM - self.used
    }

    /// Gathers bytes that fit behind those that are gathered.
    fn gather(&mut self, bytes: &[u8])
        requires { length self.old + length bytes.now ≤ gathering_room }
        ensures { self.new ≡ self.old ++ bytes.now }
    {
        self.room.overwrite(self.used, bytes);
        self.used += bytes.len();
    }

    /// Forgets the bytes that are gathered, which are put nowhere.
    pub fn clear(&mut self)
        ensures { self.new ≡ [] }
    {
        self.used = 0;
    }
}

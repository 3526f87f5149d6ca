//! Heads of requests in bytes that come piece by piece.
ghost use Rattle.std.specs.Prelude.{◌≡◌, ◌+◌, ◌-◌, ◌<◌, ◌≤◌, [], ◌++◌, length, slice_range, IfOk, IfSome};
ghost use Rattle.tg_gateway.specs.Heads.{NextHead};

use std::alloc::{AllocError, Global};
use std::marker::Model;
use tg_bytes::zeros;
use tg_http::{HeadCursor, HttpFault, MAX_TEXT, RequestHead, next_request};

/// The bytes that are kept of a head that isn't whole yet, or of heads that follow, at most 16,384, which contracts see
/// as their list. They stand in one room, which is taken when it is made.
///
/// RFC 9112, section 2.2.
#[derive(Drop)]
pub(crate) struct HeadRoom {
    bytes: Vec<u8>,
    /// Where the bytes that are kept begin in the room.
    start: usize,
    /// Where they end.
    end: usize,
    cursor: HeadCursor,
}

impl Model for HeadRoom {
    ghost use Rattle.std.specs.Prelude.{ℕ, List};

    ghost Value = { List ℕ };

    ghost use Rattle.tg_gateway.specs.Room.{IsRoom, kept_in};

    ghost view = { kept_in };

    ghost invariant = { IsRoom };
}

impl HeadRoom {
    /// A room of 16,384 bytes in which none is kept. The error is want of memory.
    ///
    /// RFC 9112, section 2.2; the limit is this project's own.
    pub(crate) fn new(alloc: Global) -> Result<HeadRoom, AllocError>
        ensures { IfOk result (λ kept. kept ≡ []) }
    {
        Ok(HeadRoom {
            bytes: zeros(alloc, MAX_TEXT)?,
            start: 0,
            end: 0,
            cursor: HeadCursor::new(),
        })
    }

    /// How many bytes can be added.
    ///
    /// RFC 9112, section 2.2; the limit is this project's own.
    pub(crate) fn free(&self) -> usize
        ensures { length self.now + result ≡ 16384 }
    {
        MAX_TEXT - (self.end - self.start)
    }

    /// Adds bytes at the end, no more than are free. It takes no memory.
    ///
    /// RFC 9112, section 2.2.
    pub(crate) fn add(&mut self, bytes: &[u8])
        requires { length self.old + length bytes.now ≤ 16384 }
        ensures { self.new ≡ self.old ++ bytes.now }
    {
        tg_http::laws::sought_heads();
        let size = self.end - self.start + bytes.len();
        self.start = add_behind(self.bytes.as_mut_slice(), self.start, self.end, bytes);
        self.end = self.start + size;
    }

    /// The head of the request at the front of the bytes, which are kept on without it, or none while no head text is
    /// whole. At none and at an error the bytes stay as they were.
    ///
    /// RFC 9112, sections 2 to 6. Errors: `HeadLimit` where 16,384 bytes hold no whole head text or it has more than
    /// 64 fields, then `BadHead` where the head text is no head of a request, and `OutOfMemory`.
    pub(crate) fn next(&mut self, alloc: Global) -> Result<Option<RequestHead>, HttpFault>
        ensures read { NextHead self.old self.new result }
        ensures fewer { IfOk result (λ told. IfSome told (λ _. length self.new < length self.old)) }
    {
        let kept = &self.bytes[self.start..self.end];
        let Some(head) = next_request(alloc, kept, &mut self.cursor)? else {
            return Ok(None);
        };
        self.start += head.used;
        Ok(Some(head))
    }

    /// Forgets the bytes.
    ///
    /// RFC 9112, section 2.2.
    pub(crate) fn clear(&mut self)
        ensures { self.new ≡ [] }
    {
        self.start = 0;
        self.end = 0;
        self.cursor = HeadCursor::new();
    }
}

/// Puts bytes behind those from `start` to `end` of a room that has place for all of them, and says where these begin
/// then: they are moved to the front first where the place behind them is too small, or where there are none.
fn add_behind(room: &mut [u8], start: usize, end: usize, bytes: &[u8]) -> usize
    requires in_order { start ≤ end }
    requires within { end ≤ length room.old }
    requires fits { end - start + length bytes.now ≤ length room.old }
    ensures within { result + (end - start + length bytes.now) ≤ length room.new }
    ensures bytes { slice_range room.new result (result + (end - start + length bytes.now))
        ≡ slice_range room.old start end ++ bytes.now }
{
    if start < end && bytes.len() <= room.len() - end {
        put_behind(room, start, end, bytes);
        return start;
    }
    room.copy_within(start..end, 0);
    put_behind(room, 0, end - start, bytes);
    0
}

/// Puts bytes behind those from `start` to `end`.
fn put_behind(room: &mut [u8], start: usize, end: usize, bytes: &[u8])
    requires in_order { start ≤ end }
    requires within { end + length bytes.now ≤ length room.old }
    ensures { slice_range room.new start (end + length bytes.now) ≡ slice_range room.old start end ++ bytes.now }
{
    room[end..end + bytes.len()].copy_from_slice(bytes);
}

//! The heads of a reply while they come.
ghost use Rattle.std.specs.Prelude.{◌↔◌, ◌++◌, ◌<◌, ◌≤◌, [], ℕ, List as Items, IfOk, IfSome, IsTrue, MatchResult, length, take};
ghost use Rattle.tg_fetch.specs.Heads.{HeadsGo, HeadsStop, IsInHeads};

use crate::fault::FetchFault;
use std::alloc::Global;
use std::marker::Model;
use tg_bytes::Bytes;
use tg_http::{HeadCursor, MAX_TEXT, ReplyHead, next_reply};

/// How many interim heads a reply has at most.
const MAX_INTERIMS: u32 = 16;

/// The heads of a reply while they come, up to the final one: no byte is kept but those of the head at hand, at most
/// 16,384.
///
/// RFC 9110, section 15.2; RFC 9112, section 2.2. The limits are this project's own.
#[derive(Drop)]
pub(crate) struct Heads {
    alloc: Global,
    came: Bytes,
    cursor: HeadCursor,
    interims: u32,
}

impl Model for Heads {
    ghost use Rattle.tg_fetch.specs.HeadsStates.{HeadsState};
    ghost use Rattle.tg_http.specs.Sought.{IsSought};

    ghost Value = { HeadsState };

    ghost view = { λ h. record { interims = h.interims; came = h.came } };

    ghost invariant = { λ h. IsSought h.cursor h.came };
}

impl Heads {
    /// The heads before their first byte. It takes no memory until one comes.
    pub(crate) fn new(alloc: Global) -> Heads
        ensures { IsInHeads result [] }
    {
        Heads {
            alloc,
            came: Bytes::new(alloc),
            cursor: HeadCursor::new(),
            interims: 0,
        }
    }

    /// Takes bytes of a piece, up to a head's end, and says how many, and the final head where it is whole.
    ///
    /// Errors: `BadReplyHead` where what came is no head of a reply, or the seventeenth interim head; and
    /// `OutOfMemory`.
    pub(crate) fn take(&mut self, piece: &[u8]) -> Result<(usize, Option<ReplyHead>), FetchFault>
        ensures within { IfOk result (λ told. told.0 ≤ length piece.now) }
        ensures moves { (heard : Items ℕ) → IsInHeads self.old heard
            → IfOk result (λ told. 0 < length piece.now → 0 < told.0) }
        ensures some { (heard : Items ℕ) → IsInHeads self.old heard
            → IfOk result (λ told. IfSome told.1 (λ head. 0 < told.0)) }
        ensures takes { (heard : Items ℕ) → IsInHeads self.old heard → MatchResult result
            (λ told. HeadsGo self.new (heard ++ take told.0 piece.now) told.1)
            (λ fault. HeadsStop (heard ++ piece.now) fault) }
    {
        tg_http::laws::sought_heads();
        tg_heard::heads_go_on();
        let before = self.came.as_slice().len();
        let room = MAX_TEXT.saturating_sub(before).min(piece.len());
        self.came.push_all(&piece[..room])?;
        let Some(head) = next_reply(self.alloc, self.came.as_slice(), &mut self.cursor)? else {
            return Ok((room, None));
        };
        let taken = head.used.saturating_sub(before);
        self.came.clear();
        if !is_interim(head.status) {
            return Ok((taken, Some(head)));
        }
        if self.interims >= MAX_INTERIMS {
            return Err(FetchFault::BadReplyHead);
        }
        self.interims += 1;
        Ok((taken, None))
    }
}

/// Whether a status is that of an interim head, behind which another one comes.
///
/// RFC 9110, section 15.2.
fn is_interim(status: u16) -> bool
    ensures { IsTrue result ↔ ((100 ≤ status) × (status < 200)) }
{
    100 <= status && status < 200
}

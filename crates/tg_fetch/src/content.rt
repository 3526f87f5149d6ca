//! The body of a reply behind its final head, while it comes.
ghost use Rattle.std.specs.Prelude.{◌≡◌, ◌↔◌, ◌++◌, ◌+◌, ◌<◌, ◌≤◌, [], ℕ, List as Items, IfOk, IfSome, IsTrue, MatchResult, Ok, Some, true, length, take};
ghost use Rattle.tg_fetch.specs.Faults.{QuietUnlessSink};
ghost use Rattle.tg_fetch.specs.Keeping.{HasFaultCause, KeptRefused, StandIn, unkept};
ghost use Rattle.tg_fetch.specs.KeepingSteps.{ContentEndKeeps, ContentKeeps, TakenIn};
ghost use Rattle.tg_fetch.specs.Replies.{ContentEnds, ContentSteps, ContentStops, HeadStops, IsInContent, IsShortIn, MovesOn};
ghost use Rattle.tg_fetch.specs.Telling.{IsTerminalReceived, IsToldBy, terminal_in};
ghost use Rattle.tg_fetch.specs.Watched.{told_in};
ghost use Rattle.tg_heard.specs.Carried.{HasAskedType};
ghost use Rattle.tg_http.specs.Fields.{is_identity};
ghost use Rattle.tg_http.specs.declared.reply.ReplyHead.{ReplyHead};
ghost use Rattle.tg_model.specs.Dag.{Section};
ghost use Rattle.tg_model.specs.LimitNumbers.{LimitNumbers};
ghost use Rattle.tg_model.specs.Queries.{QueryParts};
ghost use Rattle.tg_model.specs.Stores.{kept_in};
ghost use Rattle.tg_streams.specs.Streams.{into};

use crate::fault::FetchFault;
use crate::sections::Sections;
use crate::watch::Told;
use std::alloc::Global;
use tg_body::{Body, BodyReader};
use tg_http::{Framing, ReplyHead};
use tg_model::{Form, Keep, Limits, Query};
use tg_query::is_type_of;
use tg_streams::Sink;
use tg_verify::Terminal;

/// How a reply goes on behind bytes that were taken of it.
#[derive(Clone, Copy, Debug, PartialEq, Eq)]
pub(crate) enum Move {
    /// More of these bytes may be taken.
    On,
    /// All of them were taken, and more are wanted.
    Wait,
    /// The reply is whole.
    Done,
}

/// The body of a reply behind its final head, in its framing.
///
/// RFC 9112, section 6.
#[derive(Drop)]
pub(crate) struct Content {
    reader: BodyReader,
    sections: Sections,
}

impl Content {
    /// The body behind a final head, before its first byte.
    ///
    /// Errors, by the first of these that holds: `Status` where the status is neither 200 nor that of an absence: 404
    /// with the type that is asked, for a CAR; `BadFraming` where the head frames the body in no way; `BadType` where
    /// the type isn't the one that is asked, or a coding is stated; and `OutOfMemory`. RFC 9110, sections 8.3, 8.4 and
    /// 15; Trustless Gateway specification, response types.
    pub(crate) fn behind(
        alloc: Global,
        query: &Query,
        limits: Limits,
        head: &ReplyHead,
    ) -> Result<Content, FetchFault>
        ensures begins { MatchResult result
            (λ content. MovesOn query.now limits head.now content)
            (λ fault. HeadStops query.now head.now fault) }
        ensures fresh { IfOk result (λ content. TakenIn content.sections limits [] []) }
    {
        let asked = has_asked_type(query, head);
        let absent = head.status == 404 && asked && query.form() == Form::Car;
        if head.status != 200 && !absent {
            return Err(FetchFault::Status(head.status));
        }
        if head.framing == Framing::Broken {
            return Err(FetchFault::BadFraming);
        }
        if !asked {
            return Err(FetchFault::BadType);
        }
        let sections = if absent {
            Sections::absence(alloc, query, limits)?
        } else {
            Sections::answer(alloc, query, limits)?
        };
        Ok(Content {
            reader: BodyReader::new(alloc, head.framing),
            sections,
        })
    }

    /// Takes bytes of the body, hands the keeper the sections of the answer's CAR, and says how many, and how it goes on:
    /// `Done` where the body is whole and accepted.
    ///
    /// Errors: `BadFraming` at the first byte with which no body of the framing goes on; and those of `Sections`.
    pub(crate) fn take<K: Keep, S: Sink>(
        &mut self,
        bytes: &[u8],
        keep: &mut K,
        out: &mut S,
    ) -> Result<(usize, Move), FetchFault>
        ensures within { IfOk result (λ told. told.0 ≤ length bytes.now) }
        ensures moves { IfOk result (λ told. told.1 ≡ Move.On → 0 < told.0) }
        ensures waits { IfOk result (λ told. told.1 ≡ Move.Wait → told.0 ≡ length bytes.now) }
        ensures takes { (q : QueryParts) (limits : LimitNumbers) (heard written : Items ℕ)
            → IsInContent q limits self.old heard written → length heard + length bytes.now ≤ limits.received
            → MatchResult result
            (λ told. ContentSteps q limits self.new (heard ++ take told.0 bytes.now) written (into S.sink out.old out.new) told.1)
            (λ fault. ContentStops q limits heard bytes.now written (into S.sink out.old out.new) fault) }
        // Where more is wanted a body of stated length isn't whole.
        ensures short { (q : QueryParts) (limits : LimitNumbers) (heard written : Items ℕ)
            → IsInContent q limits self.old heard written
            → IfOk result (λ told. told.1 ≡ Move.Wait → IsShortIn q limits self.new (heard ++ bytes.now)) }
        // Which sections were kept.
        ensures kept { (q : QueryParts) (limits : LimitNumbers) (heard written : Items ℕ) (before : Items Section)
            → IsInContent q limits self.old heard written → length heard + length bytes.now ≤ limits.received
            → StandIn q limits heard before → MatchResult result
            (λ told. ContentKeeps q limits (heard ++ take told.0 bytes.now) before written (into S.sink out.old out.new)
            (kept_in K.keeper keep.old keep.new) told.1)
            (λ fault. KeptRefused q limits heard bytes.now before written (into S.sink out.old out.new)
            (kept_in K.keeper keep.old keep.new) fault) }
        ensures cause { (q : QueryParts) (limits : LimitNumbers) (heard written : Items ℕ)
            → IsInContent q limits self.old heard written
            → HasFaultCause (into S.sink out.old out.new) (kept_in K.keeper keep.old keep.new) result }
        // What the path leads to in each sound DAG, refused or not; it never changes, and of a whole reply it is told.
        ensures terminal { (q : QueryParts) (limits : LimitNumbers) (heard written : Items ℕ)
            → IsInContent q limits self.old heard written → MatchResult result
            (λ told. IsTerminalReceived q limits (heard ++ take told.0 bytes.now) (terminal_in self.new.sections))
            (λ _. IsTerminalReceived q limits (heard ++ bytes.now) (terminal_in self.new.sections)) }
        ensures told { IfSome (terminal_in self.old.sections) (λ t. terminal_in self.new.sections ≡ Some t) }
        ensures reached { (q : QueryParts) (limits : LimitNumbers) (heard written : Items ℕ)
            → IsInContent q limits self.old heard written
            → IfOk result (λ told. told.1 ≡ Move.Done → IsToldBy q (terminal_in self.new.sections)) }
    {
        tg_heard::bodies_go_on();
        tg_client::laws::received_sections();
        tg_heard::heads_go_on();
        tg_client::laws::standing_bodies();
        tg_client::laws::told_bodies();
        tg_heard::heard_is_one();
        let (taken, told) = self.reader.feed(bytes)?;
        match told {
            Body::Need => Ok((taken, Move::Wait)),
            Body::Part { start, end } => {
                self.sections.take(&bytes[start..end], keep, out)?;
                Ok((taken, Move::On))
            }
            Body::End => {
                self.sections.end(out)?;
                Ok((taken, Move::Done))
            }
        }
    }

    /// What the query's path leads to, as the answer's verifier tells it.
    pub(crate) fn terminal(&self) -> Option<Terminal>
        ensures { result ≡ terminal_in self.now.sections }
    {
        self.sections.terminal()
    }

    /// How far the sections have come.
    pub(crate) fn told(&self) -> Told
        ensures { result ≡ told_in self.now.sections }
    {
        self.sections.told()
    }

    /// Says that no byte is to come.
    ///
    /// Errors: `BadFraming` where the bytes end inside a body of stated length or in chunks; and those of `Sections`.
    pub(crate) fn end<S: Sink>(&mut self, out: &mut S) -> Result<(), FetchFault>
        ensures ends { (q : QueryParts) (limits : LimitNumbers) (heard written : Items ℕ)
            → IsInContent q limits self.old heard written → length heard ≤ limits.received
            → ContentEnds q limits heard written (into S.sink out.old out.new) result }
        // Which sections were kept before.
        ensures kept { (q : QueryParts) (limits : LimitNumbers) (heard written : Items ℕ) (before : Items Section)
            → IsInContent q limits self.old heard written → length heard ≤ limits.received
            → StandIn q limits heard before
            → ContentEndKeeps q limits heard before written (into S.sink out.old out.new) unkept result }
        ensures cause { (q : QueryParts) (limits : LimitNumbers) (heard written : Items ℕ)
            → IsInContent q limits self.old heard written → QuietUnlessSink (into S.sink out.old out.new) result }
        // What the path leads to stays, and of a whole reply it was told.
        ensures terminal { terminal_in self.new.sections ≡ terminal_in self.old.sections }
        ensures reached { (q : QueryParts) (limits : LimitNumbers) (heard written : Items ℕ)
            → IsInContent q limits self.old heard written → result ≡ Ok tt → IsToldBy q (terminal_in self.new.sections) }
    {
        tg_heard::heads_go_on();
        tg_heard::bodies_go_on();
        tg_client::laws::standing_bodies();
        tg_client::laws::received_sections();
        self.reader.end()?;
        self.sections.end(out)
    }
}

/// Whether a head states the type that a query asks, and no coding of it.
///
/// RFC 9110, sections 8.3 and 8.4.
fn has_asked_type(query: &Query, head: &ReplyHead) -> bool
    ensures { IsTrue result ↔ HasAskedType query.now head.now }
{
    let Some(kind) = &head.kind else {
        return false;
    };
    is_type_of(query, kind.as_slice()) && is_plain(head)
}

/// Whether a head states no coding but `identity`.
///
/// RFC 9110, section 8.4.
fn is_plain(head: &ReplyHead) -> bool
    ensures { IsTrue result ↔ IfSome head.now.coding (λ coding. is_identity coding ≡ true) }
{
    match &head.coding {
        None => true,
        Some(coding) => coding.as_slice().eq_ignore_ascii_case(b"identity"),
    }
}

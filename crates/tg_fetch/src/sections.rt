//! The sections that a body carries for a query, verified while it comes.
ghost use Rattle.std.specs.Prelude.{◌++◌, ◌≡◌, [], ℕ, List as Items, Err, IfOk, IfSome, MatchResult, None, Ok, Some};
ghost use Rattle.tg_fetch.specs.Bodies.{BodyStops, EndsTaking, FrontAndSays, IsBlockFault, IsTaking, IsTakingAbsence};
ghost use Rattle.tg_fetch.specs.Bodies.{IsTakingBlock, StopsTaking, TakesOn};
ghost use Rattle.tg_fetch.specs.Faults.{QuietUnlessSink, absence_fault};
ghost use Rattle.tg_fetch.specs.Keeping.{HasFaultCause, unkept};
ghost use Rattle.tg_fetch.specs.KeepingSteps.{BodyEndKeeps, BodyKeeps, TakenIn};
ghost use Rattle.tg_fetch.specs.Telling.{terminal_in};
ghost use Rattle.tg_fetch.specs.Watched.{told_in};
ghost use Rattle.tg_heard.specs.Carried.{IsAbsenceHead, IsAnswerHead};
ghost use Rattle.tg_http.specs.declared.reply.ReplyHead.{ReplyHead};
ghost use Rattle.tg_model.specs.Dag.{Section};
ghost use Rattle.tg_model.specs.LimitNumbers.{LimitNumbers};
ghost use Rattle.tg_model.specs.Queries.{QueryParts};
ghost use Rattle.tg_model.specs.Stores.{kept_in};
ghost use Rattle.tg_streams.specs.Streams.{into};
ghost use Rattle.tg_client.specs.Telling.{IsTerminalHeard};
ghost use Rattle.tg_verify.specs.Sound.{ForEachSound};
ghost use Rattle.tg_verify.specs.Terminals.{IsToldIn};

use crate::fault::FetchFault;
use crate::watch::Told;
use std::alloc::{AllocError, Global};
use std::mem;
use tg_bytes::Bytes;
use tg_cid::Cid;
use tg_client::{CarBody, ClientFault};
use tg_model::{Form, Keep, LimitKind, Limits, Query};
use tg_streams::{DropSink, Sink};
use tg_verify::{Refusal, Terminal, Verifier};

/// What a body is, as the head and the query say.
///
/// Trustless Gateway specification, response types.
#[derive(Drop)]
pub(crate) enum Sections {
    /// The CAR that answers the query.
    Answer(CarBody),
    /// The CAR that shows that the query's path leads nowhere. Its text goes nowhere.
    Absence(CarBody),
    /// The root's block, as it is.
    Block(RawBlock),
}

/// A raw block while it comes: all of it is kept, and it is verified once it is whole.
#[derive(Drop)]
pub(crate) struct RawBlock {
    alloc: Global,
    root: Cid,
    verifier: Verifier,
    most: u64,
    bytes: Bytes,
}

impl Sections {
    /// Those of the answer to a query, before the first byte of the body. The error is want of memory.
    pub(crate) fn answer(
        alloc: Global,
        query: &Query,
        limits: Limits,
    ) -> Result<Sections, AllocError>
        ensures taking { (head : ReplyHead) → IsAnswerHead query.now head
            → IfOk result (λ sections. IsTaking query.now limits head sections [] []) }
        ensures fresh { IfOk result (λ sections. TakenIn sections limits [] []) }
    {
        tg_client::laws::standing_bodies();
        match query.form() {
            Form::Car => Ok(Sections::Answer(CarBody::new(alloc, query, limits)?)),
            Form::Raw => Ok(Sections::Block(RawBlock::new(alloc, query, limits)?)),
        }
    }

    /// Those that show that a query's path leads nowhere, before the first byte of the body. The error is want of
    /// memory.
    pub(crate) fn absence(
        alloc: Global,
        query: &Query,
        limits: Limits,
    ) -> Result<Sections, AllocError>
        ensures taking { (head : ReplyHead) → IsAbsenceHead query.now head
            → IfOk result (λ sections. IsTaking query.now limits head sections [] []) }
        ensures fresh { IfOk result (λ sections. TakenIn sections limits [] []) }
    {
        tg_client::laws::standing_bodies();
        Ok(Sections::Absence(CarBody::absence(alloc, query, limits)?))
    }

    /// Takes a part of the body, and hands the keeper the sections of the answer's CAR. Errors: those of
    /// `CarBody::feed_keep`; of an absence `Status` with 404 once the terminal came, whatever follows it; and of a raw block
    /// a `Limit` of kind `Block` where it is too large.
    pub(crate) fn take<K: Keep, S: Sink>(
        &mut self,
        part: &[u8],
        keep: &mut K,
        out: &mut S,
    ) -> Result<(), FetchFault>
        ensures takes { (q : QueryParts) (limits : LimitNumbers) (head : ReplyHead) (given written : Items ℕ)
            → IsTaking q limits head self.old given written → MatchResult result
            (λ _. TakesOn q limits head self.new (given ++ part.now) written (into S.sink out.old out.new))
            (λ fault. StopsTaking q limits head (given ++ part.now) written (into S.sink out.old out.new) fault) }
        // Which sections were kept.
        ensures kept { (q : QueryParts) (limits : LimitNumbers) (head : ReplyHead) (given written : Items ℕ)
            (before : Items Section) → IsTaking q limits head self.old given written
            → TakenIn self.old limits given before
            → BodyKeeps q limits head self.old self.new (given ++ part.now) before written
            (into S.sink out.old out.new) (kept_in K.keeper keep.old keep.new) result }
        ensures cause { (q : QueryParts) (limits : LimitNumbers) (head : ReplyHead) (given written : Items ℕ)
            → IsTaking q limits head self.old given written
            → HasFaultCause (into S.sink out.old out.new) (kept_in K.keeper keep.old keep.new) result }
        // What the path leads to in each sound DAG, refused or not; it never changes.
        ensures terminal { (q : QueryParts) (limits : LimitNumbers) (head : ReplyHead) (given written : Items ℕ)
            → IsTaking q limits head self.old given written
            → IsTerminalHeard q limits (given ++ part.now) (terminal_in self.new) }
        ensures told { IfSome (terminal_in self.old) (λ t. terminal_in self.new ≡ Some t) }
    {
        tg_client::laws::standing_bodies();
        tg_client::laws::received_sections();
        match self {
            Sections::Answer(body) => Ok(body.feed_keep(part, keep, out)?),
            Sections::Absence(body) => show(body, part),
            Sections::Block(block) => block.add(part),
        }
    }

    /// What the query's path leads to, as the answer's verifier tells it.
    pub(crate) fn terminal(&self) -> Option<Terminal>
        ensures { result ≡ terminal_in self.now }
    {
        match self {
            Sections::Answer(body) => body.terminal(),
            Sections::Absence(_) | Sections::Block(_) => None,
        }
    }

    /// How far they have come: of an absence nothing is put, and a raw block is verified at its end alone.
    pub(crate) fn told(&self) -> Told
        ensures { result ≡ told_in self.now }
    {
        match self {
            Sections::Answer(body) => Told {
                bytes: body.written(),
                blocks: body.sections(),
            },
            Sections::Absence(body) => Told {
                bytes: 0,
                blocks: body.sections(),
            },
            Sections::Block(_) => Told {
                bytes: 0,
                blocks: 0,
            },
        }
    }

    /// Says that the body is whole, and puts what is put at its end. Errors: `Truncated` where a block is wanted, or
    /// the CAR's header isn't whole; of an absence `Status` with 404 where the terminal came; and those of
    /// `Verifier::start` and `Verifier::section` for a raw block.
    pub(crate) fn end<S: Sink>(&mut self, out: &mut S) -> Result<(), FetchFault>
        ensures ends { (q : QueryParts) (limits : LimitNumbers) (head : ReplyHead) (given written : Items ℕ)
            → IsTaking q limits head self.old given written
            → EndsTaking q limits head given written (into S.sink out.old out.new) result }
        // Which sections were kept before.
        ensures kept { (q : QueryParts) (limits : LimitNumbers) (head : ReplyHead) (given written : Items ℕ)
            (before : Items Section) → IsTaking q limits head self.old given written
            → TakenIn self.old limits given before
            → BodyEndKeeps q limits head self.old given before written (into S.sink out.old out.new) unkept result }
        ensures cause { (q : QueryParts) (limits : LimitNumbers) (head : ReplyHead) (given written : Items ℕ)
            → IsTaking q limits head self.old given written → QuietUnlessSink (into S.sink out.old out.new) result }
        // What the path leads to stays, and of an answer it was told.
        ensures terminal { terminal_in self.new ≡ terminal_in self.old }
        ensures told { (q : QueryParts) (limits : LimitNumbers) (head : ReplyHead) (given written : Items ℕ)
            → IsTaking q limits head self.old given written → q.form ≡ Form.Car → result ≡ Ok tt
            → IsToldIn q.scope (terminal_in self.new) }
    {
        tg_client::laws::standing_bodies();
        tg_client::laws::received_sections();
        tg_client::laws::told_bodies();
        tg_model_laws::verified_sections();
        match self {
            Sections::Answer(body) => Ok(body.end()?),
            Sections::Absence(body) => {
                body.end()?;
                Err(FetchFault::Status(404))
            }
            Sections::Block(block) => block.verify(out),
        }
    }
}

/// Takes a part of the CAR that shows that a path leads nowhere. Errors: `Status` with 404 where it shows the terminal,
/// whatever follows that; else those of `CarBody::feed`.
fn show(body: &mut CarBody, part: &[u8]) -> Result<(), FetchFault>
    ensures shows { (q : QueryParts) (limits : LimitNumbers) (head : ReplyHead) (given : Items ℕ)
        → IsTakingAbsence q limits head body.old given → MatchResult result
        (λ _. IsTakingAbsence q limits head body.new (given ++ part.now))
        (λ fault. (sections : Items Section) × BodyStops q limits head (given ++ part.now) sections [] fault
        × ForEachSound q (FrontAndSays q sections [] fault)) }
    ensures cause { body.old.refused ≡ None → body.old.verifier.refused ≡ None
        → result ≡ Err (FetchFault.Refused Refusal.SinkFault) → ⊥ }
    ensures unkept { body.old.refused ≡ None → result ≡ Err FetchFault.KeepFault → ⊥ }
{
    tg_client::laws::standing_bodies();
    tg_model_laws::own_absences();
    match body.feed(part, &mut DropSink::new()) {
        Ok(()) if body.is_whole() => Err(FetchFault::Status(404)),
        Ok(()) => Ok(()),
        Err(fault) => Err(shown_by(fault)),
    }
}

/// The fault of a CAR that shows that a path leads nowhere: `Status` with 404 where bytes follow the terminal's section.
fn shown_by(fault: ClientFault) -> FetchFault
    ensures { result ≡ absence_fault fault }
{
    match fault {
        ClientFault::Refused(refusal) => match refusal {
            Refusal::Extra { .. } => FetchFault::Status(404),
            refusal => FetchFault::Refused(refusal),
        },
        ClientFault::BadCar(car) => FetchFault::BadCar(car),
        ClientFault::InputFault => FetchFault::PeerFault,
        ClientFault::KeepFault => FetchFault::KeepFault,
        ClientFault::OutOfMemory => FetchFault::OutOfMemory,
    }
}

impl RawBlock {
    /// The block before its first byte. The error is want of memory.
    fn new(alloc: Global, query: &Query, limits: Limits) -> Result<RawBlock, AllocError>
        ensures { (head : ReplyHead) → IsAnswerHead query.now head → query.now.form ≡ Form.Raw
            → IfOk result (λ raw. IsTakingBlock query.now limits head raw []) }
    {
        Ok(RawBlock {
            alloc,
            root: query.root(),
            verifier: Verifier::new(alloc, query, limits)?,
            most: limits.number(LimitKind::Block),
            bytes: Bytes::new(alloc),
        })
    }

    /// Keeps bytes of the block. Errors: a `Limit` of kind `Block` where it has more of them than may be, and
    /// `OutOfMemory`.
    fn add(&mut self, part: &[u8]) -> Result<(), FetchFault>
        ensures { (q : QueryParts) (limits : LimitNumbers) (head : ReplyHead) (given : Items ℕ)
            → IsTakingBlock q limits head self.old given → MatchResult result
            (λ _. IsTakingBlock q limits head self.new (given ++ part.now))
            (IsBlockFault limits (given ++ part.now)) }
    {
        let size = self.bytes.as_slice().len() as u64;
        if part.len() as u64 > self.most - size.min(self.most) {
            return Err(FetchFault::Refused(Refusal::Limit {
                kind: LimitKind::Block,
                number: self.most,
            }));
        }
        Ok(self.bytes.push_all(part)?)
    }

    /// Verifies the block, which is whole, and puts what it says. Errors: those of the verifier.
    fn verify<S: Sink>(&mut self, out: &mut S) -> Result<(), FetchFault>
        ensures ends { (q : QueryParts) (limits : LimitNumbers) (head : ReplyHead) (given : Items ℕ)
            → IsTakingBlock q limits head self.old given
            → EndsTaking q limits head given [] (into S.sink out.old out.new) result }
        ensures cause { self.old.verifier.refused ≡ None → QuietUnlessSink (into S.sink out.old out.new) result }
    {
        tg_verify::laws::verified_answers();
        self.verifier.start(out)?;
        let block = mem::replace(&mut self.bytes, Bytes::new(self.alloc));
        self.verifier.section(self.root, block, out)?;
        Ok(self.verifier.finish()?)
    }
}

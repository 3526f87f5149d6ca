//! The bytes of a CAR, verified while they come.
ghost use Rattle.std.specs.Prelude.{◌≡◌, ◌↔◌, ◌++◌, ◌+◌, ◌<◌, ◌≤◌, [], ℕ, List as Items, Err, None, Some, IfErr, IfOk, IsTrue};
ghost use Rattle.std.specs.Prelude.{IfSome, MatchResult, length, take};
ghost use Rattle.tg_client.specs.Body.{HasEnded, HasOutCause, IsBody, IsEndFault, IsStopped, WentOn};
ghost use Rattle.tg_client.specs.Keeping.{HasKeepCause, StoppedKeeping, WentOnKeeping};
ghost use Rattle.tg_client.specs.Telling.{IsTerminalHeard};
ghost use Rattle.tg_model.specs.Dag.{Section};
ghost use Rattle.tg_model.specs.Stores.{kept_in};
ghost use Rattle.tg_streams.specs.Streams.{OutputQuiet, into};
ghost use Rattle.tg_verify.specs.Absences.{path_limits, path_query};
ghost use Rattle.tg_verify.specs.State.{next_cid, written_count};
ghost use Rattle.tg_verify.specs.Taken.{IsFresh};

use crate::fault::ClientFault;
use crate::laws;
use std::alloc::{AllocError, Global};
use tg_car::{CarReader, Event};
use tg_model::{DropKeep, Keep, LimitKind, Limits, Query};
use tg_streams::Sink;
use tg_verify::{Refusal, Terminal, Verifier};

/// The CAR that answers a query while it comes: each section is verified as soon as its last byte came, and the verifier
/// is started once the header is whole. No byte of the CAR is kept but those of the section at hand.
///
/// Behind an error each further call gives the same error and changes nothing. CARv1 specification; Trustless Gateway
/// specification, CAR responses.
#[derive(Drop)]
pub struct CarBody {
    reader: CarReader,
    verifier: Verifier,
    most: u64,
    heard: u64,
    refused: Option<ClientFault>,
}

impl CarBody {
    /// The CAR of an answer, before its first byte. The error is want of memory.
    pub fn new(alloc: Global, query: &Query, limits: Limits) -> Result<CarBody, AllocError>
        ensures query { IfOk result (λ body. body.verifier.left.query ≡ query.now) }
        ensures limits { IfOk result (λ body. body.verifier.limits ≡ limits) }
        ensures fresh { IfOk result (λ body. body.verifier.refused ≡ None) }
        ensures heard { IfOk result (λ body. body.heard ≡ 0) }
        ensures stands { IfOk result (λ body. IsBody body [] [] []) }
    {
        let verifier = Verifier::new(alloc, query, limits)?;
        Ok(CarBody::verified_by(alloc, verifier, limits))
    }

    /// The CAR that shows where a query's path leads, before its first byte: of the blocks on the way, and the
    /// terminal's. What it says is put as that of any other. The error is want of memory.
    ///
    /// Path Gateway specification, Path Resolution.
    pub fn absence(alloc: Global, query: &Query, limits: Limits) -> Result<CarBody, AllocError>
        ensures query { IfOk result (λ body. body.verifier.left.query ≡ path_query query.now) }
        ensures limits { IfOk result (λ body. body.verifier.limits ≡ path_limits limits) }
        ensures fresh { IfOk result (λ body. body.verifier.refused ≡ None) }
        ensures heard { IfOk result (λ body. body.heard ≡ 0) }
        ensures stands { IfOk result (λ body. IsBody body [] [] []) }
    {
        let verifier = Verifier::absence(alloc, query, limits)?;
        Ok(CarBody::verified_by(alloc, verifier, limits))
    }

    /// The CAR whose sections this verifier takes, which is new.
    fn verified_by(alloc: Global, verifier: Verifier, limits: Limits) -> CarBody
        requires block { verifier.limits.block ≡ limits.block }
        requires received { verifier.limits.received ≡ limits.received }
        requires fresh { IsFresh verifier }
        ensures verifier { result.verifier ≡ verifier }
        ensures heard { result.heard ≡ 0 }
        ensures stands { IsBody result [] [] [] }
    {
        CarBody {
            reader: CarReader::new(alloc, limits.number(LimitKind::Block)),
            verifier,
            most: limits.number(LimitKind::Received),
            heard: 0,
            refused: None,
        }
    }

    /// Whether no block is wanted: all sections came that the query asks for, or the verifier refused, but for a section
    /// whose CID doesn't name its block.
    pub fn is_whole(&self) -> bool
        ensures { IsTrue result ↔ (next_cid self.now.verifier.refused self.now.verifier.left.wanted ≡ None) }
    {
        self.verifier.want().is_none()
    }

    /// How many sections were taken, as `Verifier::sections` counts them.
    pub fn sections(&self) -> u64
        ensures { result ≡ self.now.verifier.taken }
    {
        self.verifier.sections()
    }

    /// How many bytes were put of the answer, as `Verifier::written` counts them.
    pub fn written(&self) -> u64
        ensures { result ≡ written_count self.now.verifier.lines self.now.verifier.counts.output }
    {
        self.verifier.written()
    }

    /// What the query's path leads to, as `Verifier::terminal` tells it.
    pub fn terminal(&self) -> Option<Terminal>
        ensures { result ≡ self.now.verifier.terminal }
    {
        self.verifier.terminal()
    }

    /// Takes all of a piece.
    ///
    /// Errors, at the first byte where one holds: `Refused` with a `Limit` of kind `Received` where more bytes came
    /// than may; with `Extra` behind the last wanted section; with a `Limit` of kind `Block` where a section declares
    /// too large a block; with a refusal of the verifier at the last byte of the header or of a section; `BadCar` where
    /// no CAR goes on so; and `OutOfMemory`. Each further call gives the same error and changes nothing.
    pub fn feed<S: Sink>(&mut self, piece: &[u8], out: &mut S) -> Result<(), ClientFault>
        ensures query { self.new.verifier.left.query ≡ self.old.verifier.left.query }
        ensures limits { self.new.verifier.limits ≡ self.old.verifier.limits }
        ensures most { self.new.most ≡ self.old.most }
        ensures heard { self.old.heard ≤ self.old.most
            → IfOk result (λ _. (self.new.heard ≡ self.old.heard + length piece.now)
            × (self.new.heard ≤ self.new.most)) }
        ensures cause { self.old.refused ≡ None → self.old.verifier.refused ≡ None → MatchResult result
            (λ _. (self.new.verifier.refused ≡ None) × OutputQuiet (into S.sink out.old out.new))
            (λ fault. HasOutCause (into S.sink out.old out.new) fault) }
        ensures stands { (heard : Items ℕ) (sections : Items Section) (written : Items ℕ)
            → IsBody self.old heard sections written → MatchResult result
            (λ _. WentOn self.new (heard ++ piece.now) written (into S.sink out.old out.new))
            (λ fault. IsStopped self.old.verifier.left.query self.old.verifier.limits
            self.new.verifier.taken (heard ++ piece.now) written (into S.sink out.old out.new) fault) }
        // What the path leads to in each sound DAG, refused or not; it never changes.
        ensures terminal { (heard : Items ℕ) (sections : Items Section) (written : Items ℕ)
            → IsBody self.old heard sections written → IsTerminalHeard self.old.verifier.left.query
            self.old.verifier.limits (heard ++ piece.now) self.new.verifier.terminal }
        ensures told { IfSome self.old.verifier.terminal (λ t. self.new.verifier.terminal ≡ Some t) }
        // Nothing is kept, and so no keeper fails.
        ensures unkept { self.old.refused ≡ None → result ≡ Err ClientFault.KeepFault → ⊥ }
        ensures again { (fault : ClientFault) → self.old.refused ≡ Some fault
            → (result ≡ Err fault) × (self.new ≡ self.old) × (out.new ≡ out.old) }
        ensures refused { MatchResult result (λ _. self.new.refused ≡ None) (λ fault. self.new.refused ≡ Some fault) }
    {
        self.feed_keep(piece, &mut DropKeep::new(), out)
    }

    /// Takes all of a piece, and hands the keeper each section whose CID names its block directly before the verifier takes
    /// it; a section's block is hashed once in all.
    ///
    /// Errors, at the first byte where one holds: `Refused` with a `Limit` of kind `Received` where more bytes came
    /// than may; with `Extra` behind the last wanted section; with a `Limit` of kind `Block` where a section declares
    /// too large a block; with a refusal of the verifier at the last byte of the header or of a section; `BadCar` where
    /// no CAR goes on so; `KeepFault` where the keeper failed at a section; and `OutOfMemory`. Each further call gives the
    /// same error and changes nothing.
    pub fn feed_keep<K: Keep, S: Sink>(
        &mut self,
        piece: &[u8],
        keep: &mut K,
        out: &mut S,
    ) -> Result<(), ClientFault>
        ensures query { self.new.verifier.left.query ≡ self.old.verifier.left.query }
        ensures limits { self.new.verifier.limits ≡ self.old.verifier.limits }
        ensures most { self.new.most ≡ self.old.most }
        ensures heard { self.old.heard ≤ self.old.most
            → IfOk result (λ _. (self.new.heard ≡ self.old.heard + length piece.now)
            × (self.new.heard ≤ self.new.most)) }
        ensures cause { self.old.refused ≡ None → self.old.verifier.refused ≡ None → MatchResult result
            (λ _. (self.new.verifier.refused ≡ None) × OutputQuiet (into S.sink out.old out.new))
            (λ fault. HasOutCause (into S.sink out.old out.new) fault) }
        ensures stands { (heard : Items ℕ) (sections : Items Section) (written : Items ℕ)
            → IsBody self.old heard sections written → MatchResult result
            (λ _. WentOn self.new (heard ++ piece.now) written (into S.sink out.old out.new))
            (λ fault. IsStopped self.old.verifier.left.query self.old.verifier.limits
            self.new.verifier.taken (heard ++ piece.now) written (into S.sink out.old out.new) fault) }
        // Which sections were kept.
        ensures kept { (heard : Items ℕ) (sections : Items Section) (written : Items ℕ)
            → IsBody self.old heard sections written → MatchResult result
            (λ _. WentOnKeeping self.new (heard ++ piece.now) sections written (into S.sink out.old out.new)
            (kept_in K.keeper keep.old keep.new))
            (λ fault. StoppedKeeping self.old.verifier.left.query self.old.verifier.limits self.new.verifier.taken
            heard piece.now sections written (into S.sink out.old out.new)
            (kept_in K.keeper keep.old keep.new) fault) }
        ensures keep_cause { self.old.refused ≡ None → HasKeepCause (kept_in K.keeper keep.old keep.new) result }
        // What the path leads to in each sound DAG, refused or not; it never changes.
        ensures terminal { (heard : Items ℕ) (sections : Items Section) (written : Items ℕ)
            → IsBody self.old heard sections written → IsTerminalHeard self.old.verifier.left.query
            self.old.verifier.limits (heard ++ piece.now) self.new.verifier.terminal }
        ensures told { IfSome self.old.verifier.terminal (λ t. self.new.verifier.terminal ≡ Some t) }
        ensures again { (fault : ClientFault) → self.old.refused ≡ Some fault
            → (result ≡ Err fault) × (self.new ≡ self.old) × (keep.new ≡ keep.old) × (out.new ≡ out.old) }
        ensures refused { MatchResult result (λ _. self.new.refused ≡ None) (λ fault. self.new.refused ≡ Some fault) }
    {
        tg_model_laws::kept_sections();
        laws::told_bodies();
        if let Some(fault) = self.refused {
            return Err(fault);
        }
        let mut at = 0;
        while at < piece.len() {
            at += self.take(&piece[at..], keep, out)?;
        }
        Ok(())
    }

    /// Says that no more bytes come. Errors: `Refused` with `Truncated` where a block is wanted, or the header isn't
    /// whole, with the root. Each further call gives the same error and changes nothing.
    pub fn end(&mut self) -> Result<(), ClientFault>
        ensures cause { self.old.refused ≡ None → self.old.verifier.refused ≡ None → IfErr result IsEndFault }
        ensures stands { (heard : Items ℕ) (sections : Items Section) (written : Items ℕ)
            → IsBody self.old heard sections written
            → HasEnded self.old.verifier.left.query self.old.verifier.limits heard sections written result }
        // Nothing but the refusals changes.
        ensures rest { self.new ≡ record self.old {
          verifier = record self.old.verifier {
            refused = self.new.verifier.refused;
          };
          refused = self.new.refused;
        } }
        ensures again { (fault : ClientFault) → self.old.refused ≡ Some fault
            → (result ≡ Err fault) × (self.new ≡ self.old) }
        ensures refused { MatchResult result (λ _. self.new.refused ≡ None) (λ fault. self.new.refused ≡ Some fault) }
    {
        if let Some(fault) = self.refused {
            return Err(fault);
        }
        let end = self.finish();
        self.refused = fault_in(&end);
        end
    }

    /// Says so to the verifier. Errors: those of `end`.
    fn finish(&mut self) -> Result<(), ClientFault>
        ensures cause { self.old.verifier.refused ≡ None → IfErr result IsEndFault }
        ensures stands { (heard : Items ℕ) (sections : Items Section) (written : Items ℕ)
            → IsBody self.old heard sections written
            → HasEnded self.old.verifier.left.query self.old.verifier.limits heard sections written result }
        ensures rest { self.new ≡ record self.old {
          verifier = record self.old.verifier {
            refused = self.new.verifier.refused;
          };
        } }
    {
        tg_verify::laws::verified_answers();
        self.verifier.finish()?;
        Ok(())
    }

    /// Takes bytes of a piece that has some, up to the end of the header or of a section, and says how many. A byte
    /// that is one too many isn't looked at. Errors: those of `feed_keep`. Each further call gives the same error and changes
    /// nothing.
    pub fn take<K: Keep, S: Sink>(
        &mut self,
        piece: &[u8],
        keep: &mut K,
        out: &mut S,
    ) -> Result<usize, ClientFault>
        requires { 0 < length piece.now }
        ensures query { self.new.verifier.left.query ≡ self.old.verifier.left.query }
        ensures limits { self.new.verifier.limits ≡ self.old.verifier.limits }
        ensures most { self.new.most ≡ self.old.most }
        ensures taken { IfOk result (λ n. (0 < n) × (n ≤ length piece.now)) }
        ensures heard { IfOk result (λ n. (self.new.heard ≡ self.old.heard + n) × (self.new.heard ≤ self.new.most)) }
        ensures cause { self.old.refused ≡ None → self.old.verifier.refused ≡ None → MatchResult result
            (λ _. (self.new.verifier.refused ≡ None) × OutputQuiet (into S.sink out.old out.new))
            (λ fault. HasOutCause (into S.sink out.old out.new) fault) }
        ensures stands { (heard : Items ℕ) (sections : Items Section) (written : Items ℕ)
            → IsBody self.old heard sections written → MatchResult result
            (λ n. WentOn self.new (heard ++ take n piece.now) written (into S.sink out.old out.new))
            (λ fault. IsStopped self.old.verifier.left.query self.old.verifier.limits
            self.new.verifier.taken (heard ++ piece.now) written (into S.sink out.old out.new) fault) }
        // Which sections were kept.
        ensures kept { (heard : Items ℕ) (sections : Items Section) (written : Items ℕ)
            → IsBody self.old heard sections written → MatchResult result
            (λ n. WentOnKeeping self.new (heard ++ take n piece.now) sections written (into S.sink out.old out.new)
            (kept_in K.keeper keep.old keep.new))
            (λ fault. StoppedKeeping self.old.verifier.left.query self.old.verifier.limits self.new.verifier.taken
            heard piece.now sections written (into S.sink out.old out.new)
            (kept_in K.keeper keep.old keep.new) fault) }
        ensures keep_cause { self.old.refused ≡ None → HasKeepCause (kept_in K.keeper keep.old keep.new) result }
        // What the path leads to in each sound DAG, refused or not; it never changes.
        ensures terminal { (heard : Items ℕ) (sections : Items Section) (written : Items ℕ)
            → IsBody self.old heard sections written → IsTerminalHeard self.old.verifier.left.query
            self.old.verifier.limits (heard ++ piece.now) self.new.verifier.terminal }
        ensures told { IfSome self.old.verifier.terminal (λ t. self.new.verifier.terminal ≡ Some t) }
        ensures again { (fault : ClientFault) → self.old.refused ≡ Some fault
            → (result ≡ Err fault) × (self.new ≡ self.old) × (keep.new ≡ keep.old) × (out.new ≡ out.old) }
        ensures refused { MatchResult result (λ _. self.new.refused ≡ None) (λ fault. self.new.refused ≡ Some fault) }
    {
        if let Some(fault) = self.refused {
            return Err(fault);
        }
        let end = self.advance(piece, keep, out);
        self.refused = fault_in(&end);
        end
    }

    /// Takes bytes so where nothing was refused. Errors: those of `feed_keep`.
    fn advance<K: Keep, S: Sink>(
        &mut self,
        piece: &[u8],
        keep: &mut K,
        out: &mut S,
    ) -> Result<usize, ClientFault>
        requires { 0 < length piece.now }
        ensures query { self.new.verifier.left.query ≡ self.old.verifier.left.query }
        ensures limits { self.new.verifier.limits ≡ self.old.verifier.limits }
        ensures most { self.new.most ≡ self.old.most }
        ensures unrefused { self.new.refused ≡ self.old.refused }
        ensures taken { IfOk result (λ n. (0 < n) × (n ≤ length piece.now)) }
        ensures heard { IfOk result (λ n. (self.new.heard ≡ self.old.heard + n) × (self.new.heard ≤ self.new.most)) }
        ensures cause { self.old.verifier.refused ≡ None → MatchResult result
            (λ _. (self.new.verifier.refused ≡ None) × OutputQuiet (into S.sink out.old out.new))
            (λ fault. HasOutCause (into S.sink out.old out.new) fault) }
        ensures kept { (heard : Items ℕ) (sections : Items Section) (written : Items ℕ)
            → IsBody self.old heard sections written → MatchResult result
            (λ n. WentOnKeeping self.new (heard ++ take n piece.now) sections written (into S.sink out.old out.new)
            (kept_in K.keeper keep.old keep.new))
            (λ fault. StoppedKeeping self.old.verifier.left.query self.old.verifier.limits self.new.verifier.taken
            heard piece.now sections written (into S.sink out.old out.new)
            (kept_in K.keeper keep.old keep.new) fault) }
        ensures keep_cause { HasKeepCause (kept_in K.keeper keep.old keep.new) result }
        // What the path leads to in each sound DAG, refused or not; it never changes.
        ensures terminal { (heard : Items ℕ) (sections : Items Section) (written : Items ℕ)
            → IsBody self.old heard sections written → IsTerminalHeard self.old.verifier.left.query
            self.old.verifier.limits (heard ++ piece.now) self.new.verifier.terminal }
        ensures told { IfSome self.old.verifier.terminal (λ t. self.new.verifier.terminal ≡ Some t) }
    {
        tg_verify::laws::verified_answers();
        tg_model_laws::one_fit();
        laws::received_sections();
        laws::told_bodies();
        if self.heard >= self.most {
            return Err(ClientFault::Refused(Refusal::Limit {
                kind: LimitKind::Received,
                number: self.most,
            }));
        }
        if self.verifier.want().is_none() {
            return Err(self.surplus());
        }
        let room = (self.most - self.heard).min(piece.len() as u64) as usize;
        let (taken, event) = self.reader.feed(&piece[..room])?;
        self.heard += taken as u64;
        match event {
            Event::Need => {}
            Event::Header(_) => {
                self.verifier.start(out)?;
            }
            Event::Section { section, .. } => {
                self.verifier.named(&section.cid, section.block.as_slice())?;
                keep.keep(section.cid, section.block.as_slice())?;
                self.verifier
                    .section_named(section.cid, section.block, out)?;
            }
        }
        Ok(taken)
    }

    /// The refusal of bytes behind the last wanted section.
    fn surplus(&self) -> ClientFault
        ensures { result ≡ ClientFault.Refused (Refusal.Extra self.now.verifier.taken) }
    {
        ClientFault::Refused(Refusal::Extra {
            sections: self.verifier.sections(),
        })
    }
}

/// The fault that an end has.
fn fault_in<T>(end: &Result<T, ClientFault>) -> Option<ClientFault>
    ensures { MatchResult end.now (λ _. result ≡ None) (λ fault. result ≡ Some fault) }
{
    match end {
        Ok(_) => None,
        Err(fault) => Some(*fault),
    }
}

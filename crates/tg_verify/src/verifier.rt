//! A verifier that is handed a query's sections one by one.
ghost use Rattle.std.specs.Prelude.{◌≡◌, ◌++◌, ◌∷◌, [], ℕ, List as Items, None, Ok, Option, Some, IfErr, IfOk};
ghost use Rattle.std.specs.Prelude.{Contains, Err, IfSome, MatchResult, OnErr, OnOk, false, true, ◌<◌};
ghost use Rattle.indexmap.specs.IndexMap.{spare};
ghost use Rattle.tg_traversal.specs.Left.{WantedAt};
ghost use Rattle.tg_model.specs.Dag.{Dag, Section};
ghost use Rattle.tg_model.specs.Fits.{Fits, IsInProgress};
ghost use Rattle.tg_model.specs.PathWalk.{Spot};
ghost use Rattle.tg_streams.specs.Streams.{OutputQuiet, into};
ghost use Rattle.tg_verify.specs.History.{HasAccepted, HasPutCause, HasTaken, HasWritten, IsCounted, IsProgress};
ghost use Rattle.tg_verify.specs.History.{IsSameVerifier, StandsFor, one_more};
ghost use Rattle.tg_verify.specs.Laws.{IsFitOf, IsOwnFault, IsWithinLimits};
ghost use Rattle.tg_verify.specs.Refusals.{IsNamedBlock};
ghost use Rattle.tg_verify.specs.Sound.{EndsFor, ForEachSound};
ghost use Rattle.tg_verify.specs.State.{next_cid, written_count};
ghost use Rattle.tg_verify.specs.Steps.{section_with};
ghost use Rattle.tg_verify.specs.Taken.{IsFresh, IsGoing};
ghost use Rattle.tg_verify.specs.Terminals.{IsTerminalTold, IsToldThen, LeadsTo};

use crate::checking::are_bytes;
use crate::counts::Source;
use crate::fault::Refusal;
use crate::laws;
use crate::opener::Opener;
use crate::terminal::Terminal;
use indexmap::IndexMap;
use std::alloc::{AllocError, Global};
use std::marker::Model;
use tg_bytes::Bytes;
use tg_cid::Cid;
use tg_listing::ListingLine;
use tg_model::{Limits, Query};
use tg_streams::Sink;
use tg_traversal::SharedBlock;

/// Whether a verifier wants more sections.
#[derive(Clone, Copy, Debug, PartialEq, Eq)]
pub enum Progress {
    /// A block is still wanted.
    More,
    /// All blocks that the query asks for came, and all is written.
    Done,
}

/// A verifier of the sections of a query. It is started, and then handed the sections one by one, and takes each where
/// it is the block that the query asks for next; what the block says is written before the call returns, but for the
/// listing of a directory, which is written at the end. It trusts the query's root alone.
///
/// Of an identity CID no section is wanted, since its block is its digest. Where each block is sent once, a further
/// place of its CID takes the block that was received. It holds the blocks of files on the way to the wanted place of
/// which links are to come, of directories on it the names and CIDs that are to come, of a listing its lines, and, where
/// each block is sent once, each block that was received, of which a file on the way has no second copy. Trustless Gateway specification, CAR
/// responses, dag-scope, entity-bytes, order dfs and dups.
#[derive(Drop)]
pub struct Verifier {
    pub(crate) alloc: Global,
    pub(crate) opener: Opener,
    pub(crate) dups: bool,
    pub(crate) seen: IndexMap<Cid, SharedBlock>,
    pub(crate) taken: u64,
    refused: Option<Refusal>,
}

impl Model for Verifier {
    ghost use Rattle.std.specs.Prelude.{◌≡◌};
    ghost use Rattle.tg_verify.specs.State.{VerifierState};

    ghost Value = { VerifierState };

    ghost view = { λ v. record {
      left = v.opener.left;
      limits = v.opener.limits;
      lines = v.opener.lines;
      counts = v.opener.counts;
      terminal = v.opener.terminal;
      seen = v.seen.entries;
      taken = v.taken;
      refused = v.refused;
    } };

    ghost invariant = { λ v. v.dups ≡ v.opener.left.query.dups };
}

impl Verifier {
    /// The verifier for a query, which is to be started. The error is want of memory.
    pub fn new(alloc: Global, query: &Query, limits: Limits) -> Result<Verifier, AllocError>
        ensures query { IfOk result (λ v. v.left.query ≡ query.now) }
        ensures limits { IfOk result (λ v. v.limits ≡ limits) }
        ensures fresh { IfOk result IsFresh }
    {
        Ok(Verifier {
            alloc,
            opener: Opener::new(alloc, query, limits)?,
            dups: query.dups(),
            seen: IndexMap::new(alloc),
            taken: 0,
            refused: None,
        })
    }

    /// Starts a verifier: opens the places of identity CIDs before the first section, puts what they say, and says
    /// whether a section is wanted. It is to be called once, before the first section.
    ///
    /// Errors at such a place: those of `section` from `Limit` of kind `Depth` on, in their order. Each further call
    /// gives the same error and changes nothing.
    pub fn start<S: Sink>(&mut self, out: &mut S) -> Result<Progress, Refusal>
        ensures query { self.new.left.query ≡ self.old.left.query }
        ensures limits { self.new.limits ≡ self.old.limits }
        ensures taken { self.new.taken ≡ self.old.taken }
        // What is written before the first section.
        ensures stands { IsFresh self.old → HasWritten self.new [] [] (into S.sink out.old out.new) result }
        // What the path leads to in each sound DAG; it never changes, and it is told once all came.
        ensures terminal { IsFresh self.old → IsTerminalTold self.new.left.query [] self.new.terminal }
        ensures told { IfSome self.old.terminal (λ t. self.new.terminal ≡ Some t) }
        ensures reached { IsFresh self.old → IsToldThen self.new.left.query self.new.terminal result }
        ensures progress { IfOk result (λ progress. IsProgress progress self.new) }
        ensures cause { self.old.refused ≡ None → HasPutCause result (into S.sink out.old out.new) }
        // Before sections that fit, or that are in progress, it starts, but for a fault of out and want of memory.
        ensures fitting { (d : Dag) (sections : Items Section) (text : Items ℕ) → IsFresh self.old
            → Fits d self.old.left.query sections text → IsWithinLimits self.old.left.query self.old.limits d
            → IfErr result IsOwnFault }
        ensures in_progress { (d : Dag) (sections : Items Section) (wanted : Spot) → IsFresh self.old
            → IsInProgress d self.old.left.query sections wanted
            → IsWithinLimits self.old.left.query self.old.limits d → IfErr result IsOwnFault }
        ensures again { (fault : Refusal) → self.old.refused ≡ Some fault
            → (result ≡ Err fault) × (self.new ≡ self.old) × (out.new ≡ out.old) }
        ensures refused { MatchResult result (λ _. self.new.refused ≡ None) (λ fault. self.new.refused ≡ Some fault) }
    {
        laws::verified_answers();
        laws::told_terminals();
        tg_model_laws::verified_sections();
        if let Some(fault) = self.refused {
            return Err(fault);
        }
        let end = self.go_on(out);
        self.refused = refusal_of(&end);
        end
    }

    /// The CID of the block that must come next: none once all came, and none after a refusal. It takes no memory.
    pub fn want(&self) -> Option<Cid>
        ensures { result ≡ next_cid self.now.refused self.now.left.wanted }
    {
        if self.refused.is_some() {
            return None;
        }
        Some(self.opener.wanted()?.cid)
    }

    /// How many sections were taken; the number stands still at 2 ^ 64 - 1. After a refusal these are the ones before
    /// it, and the last one too where it passed and the refusal came behind it, at a place whose block no section
    /// brings. It takes no memory.
    pub fn sections(&self) -> u64
        ensures { result ≡ self.now.taken }
    {
        self.taken
    }

    /// How many bytes of the answer were put, a number that stands still at 2 ^ 64 - 1; none while the lines of a listing
    /// are kept, which is put once it is whole. Behind a refusal with `Limit` or `SinkFault` the bytes of the place at which
    /// it came are counted too, which weren't put, or not all. It takes no memory.
    pub fn written(&self) -> u64
        ensures { result ≡ written_count self.now.lines self.now.counts.output }
    {
        written_of(self.opener.lines.as_slice(), self.opener.counts.output)
    }

    /// What the query's path leads to, which is told once that block was opened: none before, and none where the block
    /// alone is asked for, which isn't read. It stays behind a refusal. It takes no memory.
    ///
    /// Path Gateway specification, Path Resolution; UnixFS specification, node types.
    pub fn terminal(&self) -> Option<Terminal>
        ensures { result ≡ self.now.terminal }
    {
        self.opener.terminal
    }

    /// Takes the next section and puts what it says; opens the places behind it whose blocks no section brings, and
    /// puts what they say; and says whether more sections are wanted.
    ///
    /// Errors, the first of these checks that fails: `Extra` where no block is wanted any more; `Limit` of kind `Block`
    /// where the block is larger than the limit; `BadDigest` where the CID doesn't name the block; `WrongBlock` where
    /// another block is wanted; `Limit` of kind `Depth` where it lies deeper than the limit; `BadBlock` where it has no
    /// kind, or one that can't stand there; `BadSize` where the size that its parent declares, or a file's own, isn't
    /// that of its content; `NotFolder` and `NotThere` where a segment of the path leads nowhere; `Limit` of another
    /// kind where with it more is counted than the limit; `SinkFault` where out failed, which then has a front of what
    /// the section and the places behind it say; and `OutOfMemory`. A place whose block no section brings is checked
    /// from kind `Depth` on; what was put before it stays, and none but `SinkFault` puts anything of the place itself.
    /// Each further call gives the same error and changes nothing.
    pub fn section<S: Sink>(
        &mut self,
        cid: Cid,
        block: Bytes,
        out: &mut S,
    ) -> Result<Progress, Refusal>
        ensures query { self.new.left.query ≡ self.old.left.query }
        ensures limits { self.new.limits ≡ self.old.limits }
        // What was received, this section with it, and what is written for it.
        ensures stands { (sections : Items Section) (written : Items ℕ) → self.old.refused ≡ None
            → StandsFor self.old sections written
            → HasWritten self.new (sections ++ section_with cid block
            ∷ []) written (into S.sink out.old out.new) result }
        ensures progress { IfOk result (λ progress. IsProgress progress self.new) }
        // What the path leads to in each sound DAG; it never changes, and it is told once all came.
        ensures terminal { (sections : Items Section) (written : Items ℕ) → self.old.refused ≡ None
            → StandsFor self.old sections written
            → IsTerminalTold self.new.left.query (sections ++ section_with cid block ∷ []) self.new.terminal }
        ensures told { IfSome self.old.terminal (λ t. self.new.terminal ≡ Some t) }
        ensures reached { (sections : Items Section) (written : Items ℕ) → self.old.refused ≡ None
            → StandsFor self.old sections written → IsToldThen self.new.left.query self.new.terminal result }
        ensures cause { self.old.refused ≡ None → HasPutCause result (into S.sink out.old out.new) }
        // What `sections` tells then.
        ensures counted { self.old.refused ≡ None → IsCounted self.old.taken self.new.taken result }
        // The next of sections that fit, or that are in progress, is taken, but for a fault of out and want of memory.
        ensures fitting { (d : Dag) (sections rest : Items Section) (written text : Items ℕ) → self.old.refused ≡ None
            → StandsFor self.old sections written
            → Fits d self.old.left.query (sections ++ section_with cid block ∷ rest) text
            → IsWithinLimits self.old.left.query self.old.limits d
            → IfErr result IsOwnFault }
        ensures in_progress { (d : Dag) (sections rest : Items Section) (written : Items ℕ) (wanted : Spot)
            → self.old.refused ≡ None
            → StandsFor self.old sections written → IsInProgress d self.old.left.query (sections
            ++ section_with cid block ∷ rest) wanted
            → IsWithinLimits self.old.left.query self.old.limits d → IfErr result IsOwnFault }
        ensures again { (fault : Refusal) → self.old.refused ≡ Some fault
            → (result ≡ Err fault) × (self.new ≡ self.old) × (out.new ≡ out.old) }
        ensures refused { MatchResult result (λ _. self.new.refused ≡ None) (λ fault. self.new.refused ≡ Some fault) }
    {
        laws::verified_answers();
        laws::told_terminals();
        are_bytes(block.as_slice());
        if let Some(fault) = self.refused {
            return Err(fault);
        }
        let named = self.named(&cid, block.as_slice());
        self.refused = refusal_of(&named);
        named?;
        self.section_named(cid, block, out)
    }

    /// Takes the next section so, whose block its CID names, of a size that may come: `named` says so. Nothing is hashed.
    ///
    /// Errors: those of `section`, but for `Limit` of kind `Block` and `BadDigest` of the section itself. Each further call
    /// gives the same error and changes nothing.
    pub fn section_named<S: Sink>(
        &mut self,
        cid: Cid,
        block: Bytes,
        out: &mut S,
    ) -> Result<Progress, Refusal>
        requires named { IsNamedBlock self.old.limits (section_with cid block) }
        ensures query { self.new.left.query ≡ self.old.left.query }
        ensures limits { self.new.limits ≡ self.old.limits }
        // What was received, this section with it, and what is written for it.
        ensures stands { (sections : Items Section) (written : Items ℕ) → self.old.refused ≡ None
            → StandsFor self.old sections written
            → HasWritten self.new (sections ++ section_with cid block
            ∷ []) written (into S.sink out.old out.new) result }
        ensures progress { IfOk result (λ progress. IsProgress progress self.new) }
        // What the path leads to in each sound DAG; it never changes, and it is told once all came.
        ensures terminal { (sections : Items Section) (written : Items ℕ) → self.old.refused ≡ None
            → StandsFor self.old sections written
            → IsTerminalTold self.new.left.query (sections ++ section_with cid block ∷ []) self.new.terminal }
        ensures told { IfSome self.old.terminal (λ t. self.new.terminal ≡ Some t) }
        ensures reached { (sections : Items Section) (written : Items ℕ) → self.old.refused ≡ None
            → StandsFor self.old sections written → IsToldThen self.new.left.query self.new.terminal result }
        ensures cause { self.old.refused ≡ None → HasPutCause result (into S.sink out.old out.new) }
        // What `sections` tells then.
        ensures counted { self.old.refused ≡ None → IsCounted self.old.taken self.new.taken result }
        // The next of sections that fit, or that are in progress, is taken, but for a fault of out and want of memory.
        ensures fitting { (d : Dag) (sections rest : Items Section) (written text : Items ℕ) → self.old.refused ≡ None
            → StandsFor self.old sections written
            → Fits d self.old.left.query (sections ++ section_with cid block ∷ rest) text
            → IsWithinLimits self.old.left.query self.old.limits d
            → IfErr result IsOwnFault }
        ensures in_progress { (d : Dag) (sections rest : Items Section) (written : Items ℕ) (wanted : Spot)
            → self.old.refused ≡ None
            → StandsFor self.old sections written → IsInProgress d self.old.left.query (sections
            ++ section_with cid block ∷ rest) wanted
            → IsWithinLimits self.old.left.query self.old.limits d → IfErr result IsOwnFault }
        ensures again { (fault : Refusal) → self.old.refused ≡ Some fault
            → (result ≡ Err fault) × (self.new ≡ self.old) × (out.new ≡ out.old) }
        ensures refused { MatchResult result (λ _. self.new.refused ≡ None) (λ fault. self.new.refused ≡ Some fault) }
    {
        laws::verified_answers();
        laws::told_terminals();
        if let Some(fault) = self.refused {
            return Err(fault);
        }
        let end = self.take(cid, block, out);
        self.refused = refusal_of(&end);
        end
    }

    /// Says that no more sections come. It takes no memory.
    ///
    /// Errors: `Truncated` where a block is still wanted, with its CID and the number of sections that were taken; and
    /// a refusal of before. Each further call gives the same error and changes nothing.
    pub fn finish(&mut self) -> Result<(), Refusal>
        ensures query { self.new.left.query ≡ self.old.left.query }
        ensures limits { self.new.limits ≡ self.old.limits }
        ensures stands { (sections : Items Section) (written : Items ℕ) → StandsFor self.old sections written
            → StandsFor self.new sections written }
        // Nothing but the refusal changes.
        ensures rest { self.new ≡ record self.old { refused = self.new.refused } }
        // On Ok the sections fit; and what the answer says of each sound DAG with the query's root.
        ensures fits { (sections : Items Section) (written : Items ℕ) → StandsFor self.old sections written
            → OnOk result (IsFitOf self.new.left.query sections written) }
        ensures sound { (sections : Items Section) (written : Items ℕ) → StandsFor self.old sections written
            → ForEachSound self.new.left.query (λ d. EndsFor self.new.left.query d sections written result) }
        // Ok exactly where nothing was refused and no block is wanted.
        ensures done { OnOk result ((self.old.refused ≡ None) × (self.old.left.wanted ≡ None) × (self.new ≡ self.old)) }
        ensures through { self.old.refused ≡ None → self.old.left.wanted ≡ None → result ≡ Ok tt }
        ensures cut { (at : WantedAt) → self.old.refused ≡ None → self.old.left.wanted ≡ Some at
            → result ≡ Err (Refusal.Truncated at.cid self.old.taken) }
        ensures again { (fault : Refusal) → self.old.refused ≡ Some fault → (result ≡ Err fault)
            × (self.new ≡ self.old) }
        ensures refused { MatchResult result (λ _. self.new.refused ≡ None) (λ fault. self.new.refused ≡ Some fault) }
    {
        laws::verified_answers();
        if let Some(fault) = self.refused {
            return Err(fault);
        }
        let end = self.ended();
        self.refused = refusal_of(&end);
        end
    }

    /// Whether no block is wanted, of a verifier that refused nothing. The error is `Truncated`.
    fn ended(&self) -> Result<(), Refusal>
        ensures done { self.now.left.wanted ≡ None → result ≡ Ok tt }
        ensures cut { (at : WantedAt) → self.now.left.wanted ≡ Some at
            → result ≡ Err (Refusal.Truncated at.cid self.now.taken) }
    {
        match self.opener.wanted() {
            None => Ok(()),
            Some(wanted) => Err(Refusal::Truncated {
                want: wanted.cid,
                sections: self.taken,
            }),
        }
    }

    /// Takes the next section of a verifier that refused nothing, whose CID names its block; no refusal is kept.
    fn take<S: Sink>(&mut self, cid: Cid, block: Bytes, out: &mut S) -> Result<Progress, Refusal>
        requires named { IsNamedBlock self.old.limits (section_with cid block) }
        ensures same { IsSameVerifier self.old self.new }
        ensures stands { (sections : Items Section) (written : Items ℕ) → IsGoing self.old sections written
            → HasTaken self.new (sections ++ section_with cid block ∷ []) written (into S.sink out.old out.new) result }
        // What the path leads to, by the sections; it stays.
        ensures terminal { (sections : Items Section) (written : Items ℕ) → IsGoing self.old sections written
            → IfSome self.new.terminal (LeadsTo self.new.left.query (sections ++ section_with cid block ∷ [])) }
        ensures told { IfSome self.old.terminal (λ t. self.new.terminal ≡ Some t) }
        ensures progress { IfOk result (λ progress. IsProgress progress self.new) }
        ensures cause { HasPutCause result (into S.sink out.old out.new) }
        ensures counted { IsCounted self.old.taken self.new.taken result }
    {
        tg_model_laws::verified_sections();
        self.accept(cid, block, out)?;
        self.go_on(out)
    }

    /// Takes the next section, whose CID names its block, and opens it at its place. Errors: those of `section_named`, at
    /// that place.
    fn accept<S: Sink>(&mut self, cid: Cid, block: Bytes, out: &mut S) -> Result<(), Refusal>
        requires named { IsNamedBlock self.old.limits (section_with cid block) }
        ensures same { IsSameVerifier self.old self.new }
        ensures stands { (sections : Items Section) (written : Items ℕ) → IsGoing self.old sections written
            → HasAccepted self.new (sections ++ section_with cid block ∷ []) written
            (into S.sink out.old out.new) result }
        // What the path leads to, by the sections; it stays.
        ensures terminal { (sections : Items Section) (written : Items ℕ) → IsGoing self.old sections written
            → IfSome self.new.terminal (LeadsTo self.new.left.query (sections ++ section_with cid block ∷ [])) }
        ensures told { IfSome self.old.terminal (λ t. self.new.terminal ≡ Some t) }
        ensures cause { MatchResult result (λ _. OutputQuiet (into S.sink out.old out.new))
            (λ fault. HasPutCause (Err fault) (into S.sink out.old out.new)) }
        ensures counted { MatchResult result (λ _. self.new.taken ≡ one_more self.old.taken)
            (λ _. self.new.taken ≡ self.old.taken) }
    {
        tg_model::laws::readings();
        tg_model_laws::verified_sections();
        are_bytes(block.as_slice());
        self.meets(&cid)?;
        make_room(self.dups, &mut self.seen)?;
        let block = SharedBlock::new(self.alloc, block)?;
        self.opener.place(&cid, &block, Source::Section, out)?;
        self.taken = self.taken.saturating_add(1);
        remember(self.dups, &mut self.seen, cid, block);
        Ok(())
    }
}

/// Makes room for one more block, where blocks are remembered. The error is want of memory.
fn make_room(dups: bool, seen: &mut IndexMap<Cid, SharedBlock>) -> Result<(), AllocError>
    ensures unchanged { seen.new.entries ≡ seen.old.entries }
    ensures room { OnOk result (dups ≡ false → 0 < spare seen.new) }
{
    if !dups {
        seen.reserve(1)?;
    }
    Ok(())
}

/// Keeps a block under its CID, where blocks are remembered and none is yet that has it.
fn remember(dups: bool, seen: &mut IndexMap<Cid, SharedBlock>, cid: Cid, block: SharedBlock)
    requires room { dups ≡ false → 0 < spare seen.old }
    ensures all { dups ≡ true → seen.new.entries ≡ seen.old.entries }
    ensures once { dups ≡ false → ((other : Items ℕ) → Contains seen.old.entries (cid, other) → ⊥)
        → seen.new.entries ≡ seen.old.entries ++ (cid, block) ∷ [] }
{
    tg_cid::laws::equality();
    if !dups {
        let _ = seen.insert(cid, block);
    }
}

/// The refusal, where a step gave one.
fn refusal_of<T>(end: &Result<T, Refusal>) -> Option<Refusal>
    ensures { MatchResult end.now (λ _. result ≡ None) (λ fault. result ≡ Some fault) }
{
    match end {
        Ok(_) => None,
        Err(fault) => Some(*fault),
    }
}

/// How many bytes were put, where so many are counted and these lines are kept.
fn written_of(lines: &[ListingLine], output: u64) -> u64
    ensures { result ≡ written_count lines.now output }
{
    if lines.is_empty() { output } else { 0 }
}

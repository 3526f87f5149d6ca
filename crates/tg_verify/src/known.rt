//! Places whose blocks no section brings.
ghost use Rattle.std.specs.Prelude.{◌≡◌, ◌<◌, ℕ, All, List as Items, Err, IfErr, IfOk, IfSome, MatchResult, None, Ok};
ghost use Rattle.std.specs.Prelude.{Some};
ghost use Rattle.tg_model.specs.Dag.{Section};
ghost use Rattle.tg_streams.specs.Streams.{OutputQuiet, into};
ghost use Rattle.tg_traversal.specs.BlocksLeft.{blocks_over};
ghost use Rattle.tg_traversal.specs.Left.{tasks_left};
ghost use Rattle.tg_verify.specs.History.{HasGone, HasPutCause, HasTurned, IsPlaceFault, IsProgress};
ghost use Rattle.tg_verify.specs.History.{IsSameVerifier};
ghost use Rattle.tg_verify.specs.Steps.{IsKnownBlock, source_of};
ghost use Rattle.tg_verify.specs.Taken.{IsOn};
ghost use Rattle.tg_verify.specs.Terminals.{LeadsTo};

use crate::checking::are_bytes;
use crate::counts::Source;
use crate::fault::Refusal;
use crate::verifier::{Progress, Verifier};
use indexmap::IndexMap;
use std::alloc::{AllocError, Global};
use tg_cid::Cid;
use tg_streams::Sink;
use tg_traversal::SharedBlock;

impl Verifier {
    /// Opens each place whose block no section brings, up to the next one that does or to the end: of an identity CID
    /// that isn't asked for the block is the digest, and where each block is sent once the one that was received under
    /// the CID is taken again. At the end a listing is put.
    ///
    /// Errors: those of `section` from `Limit` of kind `Depth` on.
    pub(crate) fn go_on<S: Sink>(&mut self, out: &mut S) -> Result<Progress, Refusal>
        ensures same { IsSameVerifier self.old self.new }
        ensures taken { self.new.taken ≡ self.old.taken }
        ensures stands { (sections : Items Section) (written : Items ℕ) → IsOn self.old sections written
            → HasGone self.new sections written (into S.sink out.old out.new) result }
        // What the path leads to, by the sections; it stays.
        ensures terminal { (sections : Items Section) (written : Items ℕ) → IsOn self.old sections written
            → IfSome self.new.terminal (LeadsTo self.new.left.query sections) }
        ensures told { IfSome self.old.terminal (λ t. self.new.terminal ≡ Some t) }
        ensures progress { IfOk result (λ progress. IsProgress progress self.new) }
        ensures cause { HasPutCause result (into S.sink out.old out.new) }
        ensures place { IfErr result IsPlaceFault }
    {
        loop {
            if let Some(progress) = self.turn(out)? {
                return Ok(progress);
            }
        }
    }

    /// Opens the next place where no section brings its block; or says that a section is wanted, or, once all is put,
    /// that none is.
    ///
    /// Errors: those of `go_on`.
    fn turn<S: Sink>(&mut self, out: &mut S) -> Result<Option<Progress>, Refusal>
        ensures same { IsSameVerifier self.old self.new }
        ensures taken { self.new.taken ≡ self.old.taken }
        ensures stands { (sections : Items Section) (written : Items ℕ) → IsOn self.old sections written
            → HasTurned self.new sections written (into S.sink out.old out.new) result }
        // What the path leads to, by the sections; it stays.
        ensures terminal { (sections : Items Section) (written : Items ℕ) → IsOn self.old sections written
            → IfSome self.new.terminal (LeadsTo self.new.left.query sections) }
        ensures told { IfSome self.old.terminal (λ t. self.new.terminal ≡ Some t) }
        ensures progress { (progress : Progress) → result ≡ Ok (Some progress) → IsProgress progress self.new }
        ensures cause { MatchResult result (λ _. OutputQuiet (into S.sink out.old out.new))
            (λ fault. HasPutCause (Err fault) (into S.sink out.old out.new)) }
        ensures place { IfErr result IsPlaceFault }
        ensures fewer { result ≡ Ok None
            → blocks_over self.old.limits.depth (tasks_left self.new.left) < blocks_over self.old.limits.depth
            (tasks_left self.old.left) }
    {
        tg_model::laws::readings();
        tg_model_laws::verified_sections();
        tg_cid::laws::equality();
        let Some(wanted) = self.opener.wanted() else {
            self.opener.put_kept_lines(out)?;
            return Ok(Some(Progress::Done));
        };
        let asked = self.opener.asks(&wanted.cid);
        let Some(block) = known_block(self.alloc, &self.seen, asked, &wanted.cid)? else {
            return Ok(Some(Progress::More));
        };
        are_bytes(block.as_slice());
        self.opener
            .place(&wanted.cid, &block, source_of(asked), out)?;
        Ok(None)
    }
}

/// Where the block that is known for a CID comes from, by whether the CID is asked for.
fn source_of(asked: bool) -> Source
    ensures { result ≡ source_of asked }
{
    if asked {
        Source::Remembered
    } else {
        Source::Digest
    }
}

/// The block that is known for a CID: where it isn't asked for its digest, and else the one that is remembered under
/// it. The error is want of memory for a known one.
fn known_block(
    alloc: Global,
    seen: &IndexMap<Cid, SharedBlock>,
    asked: bool,
    cid: &Cid,
) -> Result<Option<SharedBlock>, AllocError>
    ensures { MatchResult result (IsKnownBlock asked seen.now.entries cid.now)
        (λ _. (block : Items ℕ) × IsKnownBlock asked seen.now.entries cid.now (Some block) × All (λ b. b < 256) block) }
{
    tg_cid::laws::equality();
    if !asked {
        are_bytes(cid.digest());
        let digest = SharedBlock::of(alloc, cid.digest())?;
        return Ok(Some(digest));
    }
    let Some(block) = seen.get(cid) else {
        return Ok(None);
    };
    are_bytes(block.as_slice());
    let block = block.clone()?;
    Ok(Some(block))
}

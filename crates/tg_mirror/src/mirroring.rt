//! A whole DAG fetched into a pack.
ghost use Rattle.std.specs.Prelude.{◌≡◌, ◌≢◌, ℕ, List as Items, IfErr, IfOk, IfSome, OnErr, OnOk, Some};
ghost use Rattle.tg_bytes.specs.Told.{IsNothing};
ghost use Rattle.tg_cid.specs.declared.cid.HashKind.TheVariants as hashes;
ghost use Rattle.tg_dials.specs.Dials.{at_dial};
ghost use Rattle.tg_fetch.specs.Calls.{FetchEnds};
ghost use Rattle.tg_fetch.specs.Keeping.{FetchKeeps, HasFaultCause};
ghost use Rattle.tg_fetch.specs.Laws.{IsAcceptedElse, TellsCarried};
ghost use Rattle.tg_files.specs.Packs.{pack_step};
ghost use Rattle.tg_heard.specs.Exchanges.{HasOneBlockEach};
ghost use Rattle.tg_mirror.specs.Filled.{filled_in};
ghost use Rattle.tg_mirror.specs.Mirrors.{HasMirrorCause, IsMirrored, IsMirroredElse, MirrorCalls, StopsHolding, dropped};
ghost use Rattle.tg_mirror.specs.Mirrors.{mirror_query};
ghost use Rattle.tg_model.specs.Answer.{answer};
ghost use Rattle.tg_model.specs.Dag.{Dag, Section, root_cid};
ghost use Rattle.tg_model.specs.Fits.{Fits};
ghost use Rattle.tg_model.specs.Sound.{IsSound};
ghost use Rattle.tg_model.specs.Traversal.{block_list};
ghost use Rattle.tg_query.specs.Requests.{IsAddr};
ghost use Rattle.tg_store.specs.Filling.{Grows, GrowsWithRoot, IsUnfinished, StaysTold, StopsWriting, WritesPack};
ghost use Rattle.tg_store.specs.Finishing.{IsNew, unfinished_cid};
ghost use Rattle.tg_verify.specs.Laws.{IsWithinLimits};

use crate::fault::MirrorFault;
use crate::filling::Filling;
use crate::mirrored::Mirrored;
use std::alloc::Global;
use tg_bytes::List;
use tg_cid::Cid;
use tg_dials::Dial;
use tg_fetch::{FetchFault, Watch, fetch_keep};
use tg_files::Pack;
use tg_model::{LimitKind, Limits, Query, Scope};
use tg_store::PackStore;
use tg_streams::DropSink;

/// Fetches all of a root's DAG from the gateway at `addr`, which has the form HOST:PORT, into an empty pack, and gives the
/// pack back: a CAR with that root, which serves each query for it as any store does that holds the DAG. The peer is trusted
/// in nothing. The pack is begun before the peer is dialled, and it gets the root once the reply is accepted, and never
/// before; each block is hashed once.
///
/// Trustless Gateway specification, CAR responses; CARv1 specification. Errors: `Client` with those of `fetch_keep`, with
/// `KeepFault` where the pack failed at a section, and with want of memory also where that came behind the reply; `Pack`
/// with `Failed` where the pack failed before the peer was dialled, or when it got the root. The pack is a CAR that isn't
/// finished then, as far as it is told.
pub fn mirror<D: Dial, P: Pack, W: Watch>(
    alloc: Global,
    root: Cid,
    limits: Limits,
    addr: &str,
    dial: &mut D,
    pack: P,
    watch: &mut W,
) -> (P, Result<Mirrored, MirrorFault>)
    requires addr { IsAddr addr.now }
    requires version { root.version ≡ 1 }
    requires hash { root.hash ≡ hashes.Sha256 }
    requires other { root ≢ unfinished_cid }
    requires empty { IsNothing (P.pack.content pack) }
    // The call that was made, or that none was.
    ensures called { MirrorCalls root limits addr.now (dial.new ≡ dial.old) (at_dial D.dial dial.old dial.new) result.1 }
    // The pack is the CAR of the sections that were accepted, and serves as each sound DAG's with that root; or a received
    // section and a block of the DAG, or two blocks of the DAG, are different bytes with one SHA-256.
    ensures mirrored { IfOk result.1 (λ mirrored. IsMirrored root limits (at_dial D.dial dial.old dial.new)
        (pack_step P.pack pack result.0) mirrored) }
    ensures told { OnOk result.1 (StaysTold (P.pack.content pack) (P.pack.content result.0)) }
    ensures cause { HasMirrorCause (pack_step P.pack pack result.0) result.1 }
    // What the pack holds behind a refusal, as far as it is told: those sections that were kept until then.
    ensures holds { IfErr result.1 (λ fault. IfSome (P.pack.content result.0)
        (StopsHolding root limits (at_dial D.dial dial.old dial.new) fault)) }
    ensures unfinished { OnErr result.1 (IfSome (P.pack.content result.0) IsUnfinished) }
    // What was done to the pack, also where it doesn't tell what it holds.
    ensures written { OnOk result.1 (WritesPack root (pack_step P.pack pack result.0)) }
    ensures stopped { OnErr result.1 (StopsWriting (pack_step P.pack pack result.0)) }
    // Where the dial tells the call, but for counted faults and want of memory: a reply that carries sections which fit is
    // mirrored, and so is one that carries those of a sound DAG's own traversal.
    ensures fitting { (d : Dag) (sections : Items Section) (text : Items ℕ) → Fits d (mirror_query root) sections text
        → IsWithinLimits (mirror_query root) limits d
        → TellsCarried (mirror_query root) limits (at_dial D.dial dial.old dial.new) sections → IsMirroredElse result.1 }
    ensures own { (d : Dag) (text : Items ℕ) → IsSound d → root_cid d ≡ root → answer (mirror_query root) d ≡ Some text
        → HasOneBlockEach d → IsWithinLimits (mirror_query root) limits d
        → TellsCarried (mirror_query root) limits (at_dial D.dial dial.old dial.new) (block_list (mirror_query root) d)
        → IsMirroredElse result.1 }
{
    tg_store::laws::filled_packs::<P>();
    let store = match PackStore::create(alloc, pack) {
        Ok(store) => store,
        Err(refused) => return (refused.pack, Err(MirrorFault::Pack(refused.fault))),
    };
    let mut filling = Filling { store };
    let end = fill(alloc, root, limits, addr, dial, &mut filling, watch);
    (filling.store.into_pack(), end)
}

/// Fetches it into a store that was just created, and finishes that.
///
/// Errors: those of `mirror`.
fn fill<D: Dial, P: Pack, W: Watch>(
    alloc: Global,
    root: Cid,
    limits: Limits,
    addr: &str,
    dial: &mut D,
    filling: &mut Filling<P>,
    watch: &mut W,
) -> Result<Mirrored, MirrorFault>
    requires addr { IsAddr addr.now }
    requires version { root.version ≡ 1 }
    requires hash { root.hash ≡ hashes.Sha256 }
    requires other { root ≢ unfinished_cid }
    requires new { IsNew P.pack filling.old.store }
    ensures called { MirrorCalls root limits addr.now (dial.new ≡ dial.old) (at_dial D.dial dial.old dial.new) result }
    ensures mirrored { IfOk result (λ mirrored. IsMirrored root limits (at_dial D.dial dial.old dial.new)
        (pack_step P.pack filling.old.store.pack filling.new.store.pack) mirrored) }
    ensures told { OnOk result
        (StaysTold (P.pack.content filling.old.store.pack) (P.pack.content filling.new.store.pack)) }
    ensures cause { HasMirrorCause (pack_step P.pack filling.old.store.pack filling.new.store.pack) result }
    ensures holds { IfErr result (λ fault. IfSome (P.pack.content filling.new.store.pack)
        (StopsHolding root limits (at_dial D.dial dial.old dial.new) fault)) }
    ensures unfinished { OnErr result (IfSome (P.pack.content filling.new.store.pack) IsUnfinished) }
    ensures written { OnOk result
        (GrowsWithRoot root (pack_step P.pack filling.old.store.pack filling.new.store.pack)) }
    ensures stopped { OnErr result (Grows (pack_step P.pack filling.old.store.pack filling.new.store.pack)) }
    ensures fitting { (d : Dag) (sections : Items Section) (text : Items ℕ) → Fits d (mirror_query root) sections text
        → IsWithinLimits (mirror_query root) limits d
        → TellsCarried (mirror_query root) limits (at_dial D.dial dial.old dial.new) sections → IsMirroredElse result }
    ensures own { (d : Dag) (text : Items ℕ) → IsSound d → root_cid d ≡ root → answer (mirror_query root) d ≡ Some text
        → HasOneBlockEach d → IsWithinLimits (mirror_query root) limits d
        → TellsCarried (mirror_query root) limits (at_dial D.dial dial.old dial.new) (block_list (mirror_query root) d)
        → IsMirroredElse result }
{
    tg_store::laws::pack_laws::<P>();
    tg_store::laws::filled_packs::<P>();
    tg_store::laws::finished_packs::<P>();
    tg_mirror_laws::laws::mirrored_dags();
    tg_verify::laws::verified_answers();
    tg_car::laws::car_laws();
    tg_heard::heads_go_on();
    tg_heard::bodies_go_on();
    // The blocks of a reply are no more bytes than may be received, so that their count doesn't stand at its type's end.
    let _most = limits.number(LimitKind::Received);
    fetched(alloc, root, limits, addr, dial, filling, watch)?;
    filling.store.finish(root)?;
    Ok(Mirrored {
        blocks: filling.store.blocks(),
        bytes: filling.store.bytes(),
    })
}

/// Fetches all of a root's DAG, whose sections are kept in a store; what the DAG says is dropped.
///
/// Errors: those of `fetch_keep`.
fn fetched<D: Dial, P: Pack, W: Watch>(
    alloc: Global,
    root: Cid,
    limits: Limits,
    addr: &str,
    dial: &mut D,
    filling: &mut Filling<P>,
    watch: &mut W,
) -> Result<(), FetchFault>
    requires { IsAddr addr.now }
    ensures ends { FetchEnds (mirror_query root) limits addr.now (at_dial D.dial dial.old dial.new) dropped result }
    ensures kept { FetchKeeps (mirror_query root) limits (at_dial D.dial dial.old dial.new) dropped
        (filled_in P.pack filling.old.store filling.new.store) result }
    ensures cause { HasFaultCause dropped (filled_in P.pack filling.old.store filling.new.store) result }
    ensures fitting { (d : Dag) (sections : Items Section) (text : Items ℕ) → Fits d (mirror_query root) sections text
        → IsWithinLimits (mirror_query root) limits d
        → TellsCarried (mirror_query root) limits (at_dial D.dial dial.old dial.new) sections
        → IsAcceptedElse text dropped result }
    ensures own { (d : Dag) (text : Items ℕ) → IsSound d → root_cid d ≡ root → answer (mirror_query root) d ≡ Some text
        → HasOneBlockEach d → IsWithinLimits (mirror_query root) limits d
        → TellsCarried (mirror_query root) limits (at_dial D.dial dial.old dial.new) (block_list (mirror_query root) d)
        → IsAcceptedElse text dropped result }
{
    let query = Query::car(root, List::new(alloc), Scope::All, None, true);
    fetch_keep(
        alloc,
        &query,
        limits,
        addr,
        dial,
        filling,
        &mut DropSink::new(),
        watch,
    )
}

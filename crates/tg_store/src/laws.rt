//! The laws of stores in packs, for proofs.
ghost use Rattle.std.specs.Prelude.{◌≡◌, ◌≢◌, ◌∷◌, [], ℕ, IfSome, List, Some, map};
ghost use Rattle.tg_car.specs.CarText.{CarText};
ghost use Rattle.tg_cid.specs.Cid.{CidParts};
ghost use Rattle.tg_cid.specs.declared.cid.HashKind.TheVariants as hashes;
ghost use Rattle.tg_files.specs.Packs.{pack_step};
ghost use Rattle.tg_model.specs.Dag.{Section};
ghost use Rattle.tg_model.specs.Stores.{Kept, Store, kept_in};
ghost use Rattle.tg_store.specs.Attaching.{HasPackCause, IsAttached};
ghost use Rattle.tg_store.specs.Entries.{first_of_each, store_of};
ghost use Rattle.tg_store.specs.Filling.{Grows, GrowsWithRoot, IsCarOfRoot, IsUnfinished, StaysTold, StopsWriting, WritesPack};
ghost use Rattle.tg_store.specs.Finishing.{IsCreated, IsFinished, IsNew, IsNotCreated, IsNotFinished, unfinished_cid};
ghost use Rattle.tg_store.specs.Packs.{HasKept, PackStoreState, block_at, in_car, unfinished_root};
ghost use Rattle.tg_store.specs.declared.fault.PackFault.{PackFault};
ghost use Rattle.tg_store.specs.declared.fault.PackRefused.{PackRefused};

use crate::pack_store::PackStore;
use tg_files::Pack;
use tg_model::Keep;

/// Once sections were kept in a store that was created, its pack holds, as far as it is told, the CAR of the unfinished
/// root and of these sections in order, each CID once. `finish` puts another root in its place.
///
/// CARv1 specification.
pub fn pack_laws<P: Pack>()
    ensures { (a b : PackStoreState P) (sections : List Section) (content : List ℕ) → IsNew P.pack a
        → HasKept P.pack a b sections
        → P.pack.content b.pack ≡ Some content → CarText (unfinished_root
        ∷ []) (map in_car (first_of_each sections)) content }
{}

/// What was done to a pack that a store fills, and what it holds, as far as it is told: before it is finished a CAR of the
/// unfinished root, and once it is finished one with that root. A pack that tells what it holds tells it when it is finished.
///
/// CARv1 specification.
pub fn filled_packs<P: Pack>()
    ensures unfinished { (a b : PackStoreState P) (sections : List Section) → IsNew P.pack a → HasKept P.pack a b sections
        → Grows (pack_step P.pack a.pack b.pack) × IfSome (P.pack.content b.pack) IsUnfinished }
    ensures finished { (a b c : PackStoreState P) (sections : List Section) (root : CidParts) → IsNew P.pack a
        → HasKept P.pack a b sections → IsFinished P.pack b c root
        → GrowsWithRoot root (pack_step P.pack a.pack c.pack) × IfSome (P.pack.content c.pack) (IsCarOfRoot root sections) }
    ensures told { (a b c : PackStoreState P) (sections : List Section) (root : CidParts)
        → Kept sections (kept_in ⟦<PackStore<P> as Keep>⟧.keeper a b) → IsFinished P.pack b c root
        → StaysTold (P.pack.content a.pack) (P.pack.content c.pack) }
    ensures failed { (a b c : PackStoreState P) (sections : List Section) (fault : PackFault) → IsNew P.pack a
        → HasKept P.pack a b sections → IsNotFinished P.pack b c fault
        → Grows (pack_step P.pack a.pack c.pack) × IfSome (P.pack.content c.pack) IsUnfinished }
    // With the header that was written first.
    ensures stopped { (pack c : P) (a : PackStoreState P) → IsCreated P.pack pack a → Grows (pack_step P.pack a.pack c)
        → StopsWriting (pack_step P.pack pack c) }
    ensures written { (pack c : P) (a : PackStoreState P) (root : CidParts) → IsCreated P.pack pack a
        → GrowsWithRoot root (pack_step P.pack a.pack c) → WritesPack root (pack_step P.pack pack c) }
    ensures refused { (pack : P) (refused : PackRefused P) → IsNotCreated P.pack pack refused
        → StopsWriting (pack_step P.pack pack refused.pack) }
{
    pack_laws::<P>();
}

/// A pack that was created, in which sections were kept and which was finished, is attached again, as far as it is
/// told, and as the same map: what it holds is a CAR that no cause refuses, and under each CID stands the block that
/// the store told. What is attached of one content is the same at every CID.
///
/// CARv1 specification.
pub fn finished_packs<P: Pack>()
    ensures attached { (a b c : PackStoreState P) (sections : List Section) (root : CidParts) (content : List ℕ)
        → IsNew P.pack a
        → Kept sections (kept_in ⟦<PackStore<P> as Keep>⟧.keeper a b) → IsFinished P.pack b c root → root.version ≡ 1
        → root.hash ≡ hashes.Sha256
        → root ≢ unfinished_cid
        → P.pack.content c.pack ≡ Some content
        → IsAttached content (store_of (block_at content) c.places)
        × ((fault : PackFault) → HasPackCause content fault → ⊥) }
    ensures same { (content : List ℕ) (s t : Store) (cid : CidParts) → IsAttached content s → IsAttached content t
        → s cid ≡ t cid }
{
    tg_varint::laws::spelling_laws();
    tg_car::laws::car_laws();
    tg_cid::laws::one_spelling();
    one_cause();
}

/// No two causes of a refusal hold of one content, and none of one that is attached.
///
/// CARv1 specification.
pub fn one_cause()
    ensures one { (content : List ℕ) (f g : PackFault) → HasPackCause content f → HasPackCause content g → f ≡ g }
    ensures none { (content : List ℕ) (store : Store) (fault : PackFault) → IsAttached content store
        → HasPackCause content fault → ⊥ }
{
    tg_varint::laws::spelling_laws();
    tg_car::laws::car_laws();
    tg_cid::laws::one_spelling();
}

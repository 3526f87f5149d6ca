//! A store in a pack, by offsets.
ghost use Rattle.std.specs.Prelude.{◌≡◌, ◌≢◌, ◌+◌, ◌-◌, ◌^◌, ◌∷◌, [], true, length, min, IfErr, IfOk, IfSome, MatchResult, OnOk};
ghost use Rattle.tg_bytes.specs.Told.{IsNothing};
ghost use Rattle.tg_cid.specs.Cid.{CidParts};
ghost use Rattle.tg_cid.specs.declared.cid.HashKind.{HashKind};
ghost use Rattle.tg_cid.specs.declared.cid.HashKind.TheVariants as hashes;
ghost use Rattle.tg_files.specs.Packs.{Did, PackQuiet, pack_step};
ghost use Rattle.tg_store.specs.AttachedPacks.{HasAttached, HasRefused, IsGivenFor};
ghost use Rattle.tg_store.specs.Attaching.{HasPackCause};
ghost use Rattle.tg_store.specs.declared.fault.PackFault.{PackFault};
ghost use Rattle.tg_store.specs.Finishing.{IsFinished, IsNotFinished, IsCreated, IsNotCreated, unfinished_cid};
ghost use Rattle.tg_store.specs.Packs.{HasKept, HasSearched, bytes_at, stored_in};
ghost use Rattle.tg_store.specs.PackLaws.{kept_joins, kept_rests, searched_joins, searched_rests, told_store};

use crate::attach::scan;
use crate::fault::{PackFault, PackRefused};
use crate::key::Key;
use crate::laws;
use crate::place::Place;
use crate::reading::{copy_of, read_block};
use crate::writing::add_section;
use indexmap::IndexMap;
use sha2::{Digest, Sha256};
use std::alloc::Global;
use std::marker::Model;
use tg_bytes::Bytes;
use tg_car::header;
use tg_cid::Cid;
use tg_files::Pack;
use tg_model::{Blocks, BlocksFault, Keep, KeepFault};

// How many bytes the header of a pack has.
pub(crate) const HEADER_LEN: usize = 59;

/// The header of a pack that isn't finished: its one root is the raw CIDv1 with sha2-256 and 32 zero bytes of digest.
pub(crate) const UNFINISHED_HEADER: [u8; HEADER_LEN] = [
    0x3a, 0xa2, 0x65, b'r', b'o', b'o', b't', b's', 0x81, 0xd8, 0x2a, 0x58, 0x25, 0, 1, 0x55, 0x12,
    0x20, 0, 0, 0, 0, 0, 0, 0, 0, 0, 0, 0, 0, 0, 0, 0, 0, 0, 0, 0, 0, 0, 0, 0, 0, 0, 0, 0, 0, 0, 0,
    0, 0, 0x67, b'v', b'e', b'r', b's', b'i', b'o', b'n', 1,
];

/// A store in a pack, which holds a CAR: for each CID it keeps the offset and the length of the block of the first
/// section, and no block. It tells what is stored exactly where its pack tells its content, and its count of faults is
/// the pack's.
///
/// CARv1 specification.
#[derive(Drop)]
pub struct PackStore<P: Pack> {
    alloc: Global,
    pack: P,
    fresh: bool,
    places: IndexMap<Key, Place>,
    end: u64,
}

impl<P: Pack> Model for PackStore<P> {
    ghost use Rattle.tg_store.specs.Packs.{AreSmall, IsIndexedIn, PackStoreState};

    ghost Value = { PackStoreState P };

    ghost view = { λ s. record { pack = s.pack; fresh = s.fresh; places = s.places.entries; end = s.end } };

    ghost invariant = { λ s. AreSmall s.places.entries × IsIndexedIn
        (P.pack.content s.pack) s.fresh s.places.entries s.end };
}

impl<P: Pack> PackStore<P> {
    /// A store in an empty pack, which gets a header whose root says that it isn't finished.
    ///
    /// CARv1 specification, Header. Error: `Failed` where the pack failed and counted it. The pack is given back.
    pub fn create(alloc: Global, pack: P) -> Result<PackStore<P>, PackRefused<P>>
        requires { IsNothing (P.pack.content pack) }
        ensures created { IfOk result (λ store. IsCreated P.pack pack store) }
        ensures refused { IfErr result (λ refused. IsNotCreated P.pack pack refused) }
    {
        tg_varint::laws::spelling_laws();
        let mut pack = pack;
        let Ok(()) = pack.append(&UNFINISHED_HEADER) else {
            return Err(PackRefused {
                fault: PackFault::Failed,
                pack,
            });
        };
        Ok(PackStore {
            alloc,
            pack,
            fresh: true,
            places: IndexMap::new(alloc),
            end: HEADER_LEN as u64,
        })
    }

    /// Writes the root over the one of the header. Sections may be kept after it, and it may be called again.
    ///
    /// CARv1 specification, Header. Errors: `Failed` where the pack failed and counted it, after which it tells
    /// nothing; and `OutOfMemory`, with which nothing is done.
    pub fn finish(&mut self, root: Cid) -> Result<(), PackFault>
        requires fresh { self.old.fresh ≡ true }
        requires version { root.version ≡ 1 }
        requires hash { root.hash ≡ hashes.Sha256 }
        requires other { root ≢ unfinished_cid }
        ensures finished { OnOk result (IsFinished P.pack self.old self.new root) }
        ensures failed { IfErr result (λ fault. IsNotFinished P.pack self.old self.new fault) }
    {
        tg_varint::laws::spelling_laws();
        tg_car::laws::car_laws();
        let Ok(header) = header(self.alloc, &root) else {
            return Err(PackFault::OutOfMemory);
        };
        match self.pack.write_at(0, header.as_slice()) {
            Ok(()) => Ok(()),
            Err(_) => Err(PackFault::Failed),
        }
    }

    /// A store of what a pack holds, which is read through, by pieces of 65,536 bytes at most, and checked: of the
    /// sections under one CID the first counts, a CIDv0 being taken as its CIDv1 form. The pack isn't changed.
    ///
    /// CARv1 specification. Errors, with which the pack is given back, at the first place in it where one holds:
    /// `NotCar` where no CAR goes on so; `BlockLimit` where a section declares a block above the limit; `BadDigest`
    /// where a CID doesn't name its block; `Unfinished` where `finish` wasn't called; `Truncated` where the pack ends
    /// inside the header or a section. Besides, `Failed` where the pack failed and counted it, and `OutOfMemory`.
    pub fn attach_pack(alloc: Global, pack: P) -> Result<PackStore<P>, PackRefused<P>>
        ensures attached { IfOk result (λ store. HasAttached P.pack pack store) }
        ensures refused { IfErr result (λ refused. HasRefused P.pack pack refused) }
        // Where a cause holds of a told content, its fault comes, or the pack failed or memory was wanted.
        ensures given { IfSome (P.pack.content pack) (λ content. (fault : PackFault) → HasPackCause content fault
            → MatchResult result (λ _. ⊥) (λ refused. IsGivenFor fault refused.fault)) }
    {
        laws::one_cause();
        let mut pack = pack;
        match scan(alloc, &mut pack) {
            Ok(found) => Ok(PackStore {
                alloc,
                pack,
                fresh: false,
                places: found.places,
                end: found.end,
            }),
            Err(fault) => Err(PackRefused { fault, pack }),
        }
    }

    /// Of how many CIDs it has a block, those with identity aside, and a CIDv0 being one with its CIDv1 form.
    pub fn blocks(&self) -> u64
        ensures { result ≡ length self.now.places }
    {
        self.places.len() as u64
    }

    /// How many bytes these blocks have together, or 2^64 - 1 where they are more.
    pub fn bytes(&self) -> u64
        ensures { result ≡ min (bytes_at self.now.places) (2 ^ 64 - 1) }
    {
        let mut bytes = 0_u64;
        for (_, place) in self.places.iter() {
            bytes = bytes.saturating_add(place.size);
        }
        bytes
    }

    /// The pack, as the store left it. It takes no memory.
    pub fn into_pack(self) -> P
        ensures { result ≡ self.pack }
    {
        self.pack
    }
}

impl<P: Pack> Blocks for PackStore<P> {
    ghost blocks = { record {
      stored = λ s. stored_in (P.pack.content s.pack) s.places;
      faults = λ s. P.pack.faults s.pack;
      looked = λ a b _. HasSearched P.pack a b;
    } };

    ghost told = { λ s. told_store (P.pack.content s.pack) s.places };

    ghost rests = { λ s. searched_rests P.pack P.rests P.joins s };

    ghost joins = { λ a b c u v. searched_joins P.pack P.rests P.joins a b c };

    /// The block, read from the pack and hashed anew; of an identity CID its digest. `Changed` comes only of a pack that
    /// doesn't tell its content.
    fn get(&mut self, cid: &Cid) -> Result<Option<Bytes>, BlocksFault> {
        let Some(key) = Key::of(cid) else {
            return copy_of(self.alloc, cid.digest());
        };
        let Some(place) = self.places.get(&key) else {
            return Ok(None);
        };
        let block = read_block(self.alloc, &mut self.pack, *place)?;
        let got = Sha256::digest(block.as_slice());
        if got != key.digest() {
            return Err(BlocksFault::Changed {
                want: key.digest(),
                got,
            });
        }
        Ok(Some(block))
    }
}

impl<P: Pack> Keep for PackStore<P> {
    ghost keeper = { record {
      stored = ⟦<PackStore<P> as Blocks>⟧.blocks.stored;
      faults = ⟦<PackStore<P> as Blocks>⟧.blocks.faults;
      kept = λ a b sections. HasKept P.pack a b sections;
    } };

    ghost told = { λ s. told_store (P.pack.content s.pack) s.places };

    ghost rests = { λ s. kept_rests P.pack P.rests P.joins s };

    ghost joins = { λ a b c u v. kept_joins P.pack P.rests P.joins a b c u v };

    /// Adds the section at the end of the pack where nothing is stored under the CID. Of an identity CID, whose block is
    /// its digest, nothing is added.
    fn keep(&mut self, cid: Cid, block: &[u8]) -> Result<(), KeepFault> {
        let Some(key) = Key::of(&cid) else {
            return Ok(());
        };
        if self.places.contains_key(&key) {
            return Ok(());
        }
        add_section(
            &mut self.pack,
            &mut self.places,
            &mut self.end,
            key,
            &cid,
            block,
        )
    }
}

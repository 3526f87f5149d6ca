//! Stores in which blocks are kept, in memory and in packs that are made.
ghost use Rattle.std.specs.Prelude.{◌≡◌, OnOk};

use crate::given::{cid_of, fails_at};
use crate::packs::say_found;
use crate::said::{say_count, say_kept, say_otherwise, say_pack_fault};
use std::alloc::Global;
use tg_bytes::{Bytes, List};
use tg_cid::{Cid, Codec, MAX_BLOCK_LEN};
use tg_files::MemPack;
use tg_model::{Keep, KeepFault};
use tg_rows::Answer;
use tg_store::{MemStore, PackStore};

/// `keep CID BLOCK`: whether the store in memory keeps the block under the CID, which names it.
pub fn answer_keep(alloc: Global, store: &mut MemStore, given: &[Bytes], answer: &mut Answer) {
    let [cid, block] = given else {
        return answer.text("a CID and a block");
    };
    match cid_of(alloc, cid.as_slice()) {
        Some(cid) => say_kept_under(store, cid, block.as_slice(), answer),
        None => answer.text("no CID"),
    }
}

/// Says whether a store keeps the block under the CID.
fn say_kept_under<K: Keep>(store: &mut K, cid: Cid, block: &[u8], answer: &mut Answer) {
    if block.len() > MAX_BLOCK_LEN || !cid.holds(block) {
        return answer.text("not named");
    }
    say_kept(store.keep(cid, block), answer);
}

/// `packed NAME CID BLOCK`: whether a store in a new pack keeps the block, what it gives under the CID then, and the bytes
/// of the pack.
pub fn answer_packed(alloc: Global, given: &[Bytes], answer: &mut Answer) {
    let [_, cid, block] = given else {
        return answer.text("a name, a CID and a block");
    };
    let pack = MemPack::new(Bytes::new(alloc), List::new(alloc));
    match (
        cid_of(alloc, cid.as_slice()),
        PackStore::create(alloc, pack),
    ) {
        (Some(id), Ok(mut store)) => {
            say_kept_under(&mut store, id, block.as_slice(), answer);
            say_found(alloc, &mut store, cid.as_slice(), answer);
            say_content(&store.into_pack(), answer);
        }
        _ => answer.text("no CID, or no store"),
    }
}

/// Says the bytes of a pack, if it tells them, and how many calls failed.
fn say_content(pack: &MemPack, answer: &mut Answer) {
    match pack.content() {
        Some(bytes) => answer.bytes(bytes),
        None => answer.text("untold"),
    }
    say_count(pack.count(), answer);
}

/// Where the making of a pack ends.
#[derive(Clone, Copy)]
enum End {
    /// Where the store is created.
    Create,
    /// Where a block is kept.
    Keep,
    /// Where the store is finished.
    Finish,
    /// Nowhere: it is finished.
    Whole,
}

/// How many calls a row makes at most.
const MOST_CALLS: u64 = 1_000;

/// `made NAME ROOT CID BLOCK ..`: a pack is made in which these blocks are kept, and that is finished with the root whose
/// block is given. Says where that ends if the first call fails, if the second one does, and so on up to the one that
/// isn't made, and the bytes of the pack that is made then. A pack of which a call failed tells nothing.
pub fn answer_made(alloc: Global, given: &[Bytes], answer: &mut Answer) {
    let [_, root, sections @ ..] = given else {
        return answer.text("a name, a root, CIDs and blocks");
    };
    for number in 0..MOST_CALLS {
        let (end, pack) = made(alloc, number, root.as_slice(), sections);
        if !is_failed_so(end, &pack, number, answer) {
            return;
        }
    }
}

/// Says where the making of a pack ended, and whether it ended by the call with this number.
fn is_failed_so(end: End, pack: &MemPack, number: u64, answer: &mut Answer) -> bool {
    let is_failed = pack.count() == 1 && pack.content().is_none();
    match end {
        End::Create if is_failed => answer.text("create"),
        End::Keep if is_failed => answer.text("keep"),
        End::Finish if is_failed => answer.text("finish"),
        End::Whole => {
            say_content(pack, answer);
            return false;
        }
        _ => {
            say_otherwise(number, answer);
            return false;
        }
    }
    true
}

/// Makes a pack whose call with this number fails.
fn made(alloc: Global, number: u64, root: &[u8], sections: &[Bytes]) -> (End, MemPack) {
    let pack = MemPack::new(Bytes::new(alloc), fails_at(alloc, Some(number)));
    let mut store = match PackStore::create(alloc, pack) {
        Ok(store) => store,
        Err(refused) => return (End::Create, refused.pack),
    };
    let Ok(()) = keep_all(alloc, &mut store, sections) else {
        return (End::Keep, store.into_pack());
    };
    match store.finish(Cid::of_block(Codec::DagPb, root)) {
        Ok(()) => (End::Whole, store.into_pack()),
        Err(_) => (End::Finish, store.into_pack()),
    }
}

/// Keeps each block under its CID, up to one that isn't kept.
fn keep_all(
    alloc: Global,
    store: &mut PackStore<MemPack>,
    sections: &[Bytes],
) -> Result<(), KeepFault>
    ensures { OnOk result (store.new.fresh ≡ store.old.fresh) }
{
    for section in sections.chunks(2) {
        let [cid, block] = section else {
            return Err(KeepFault::OutOfMemory);
        };
        let Some(cid) = cid_of(alloc, cid.as_slice()) else {
            return Err(KeepFault::OutOfMemory);
        };
        keep(store, cid, block.as_slice())?;
    }
    Ok(())
}

/// Keeps the block, where the CID names it.
fn keep(store: &mut PackStore<MemPack>, cid: Cid, block: &[u8]) -> Result<(), KeepFault>
    ensures { OnOk result (store.new.fresh ≡ store.old.fresh) }
{
    if block.len() > MAX_BLOCK_LEN || !cid.holds(block) {
        return Err(KeepFault::OutOfMemory);
    }
    store.keep(cid, block)
}

//! Shards without an entry, each of which has the next one behind all its slots.
use crate::chains::say_ended;
use crate::dags::{link, node};
use crate::walks::store_of;
use std::alloc::{AllocError, Global};
use tg_bytes::{Bytes, List, number_of};
use tg_cid::Cid;
use tg_model::{Query, Scope};
use tg_oracle::StoredBlock;
use tg_rows::Answer;
use tg_walk::Walk;

/// The data of a directory, of a shard without a slot, and what stands around the bits of a shard.
const DIRECTORY: &[u8] = b"\x08\x01";

const NO_SLOT: &[u8] = b"\x08\x05(\"0\x80\x02";

const DIGITS: &[u8] = b"0123456789ABCDEF";

/// The roots of what rows ask for, and all blocks.
#[derive(Drop)]
struct Shards {
    folder: Cid,
    shard: Cid,
    blocks: List<StoredBlock>,
}

/// `shards LEVELS FOLDERS`: a directory has as `a` so many shards of 256 slots, one below another, over one without a slot;
/// and as `b` the same below so many directories. How many blocks a walk gives that gives each once, and how it ends; and,
/// behind `listed`, the same where the uppermost shard's entries are asked for.
pub fn answer(alloc: Global, given: &[Bytes], answer: &mut Answer) {
    let [levels, folders] = given else {
        return answer.text("how many shards, and how many directories");
    };
    match (number_of(levels.as_slice()), number_of(folders.as_slice())) {
        (Some(levels @ 1..=16), Some(folders @ 0..=600)) => {
            answer_shards(alloc, levels, folders, answer)
        }
        _ => answer.text("no number"),
    }
}

fn answer_shards(alloc: Global, levels: u64, folders: u64, answer: &mut Answer) {
    match made(alloc, levels, folders) {
        Ok(made) => {
            let blocks = made.blocks.as_slice();
            say_once(alloc, blocks, made.folder, Scope::All, answer);
            answer.text("listed");
            say_once(alloc, blocks, made.shard, Scope::Entity, answer);
        }
        Err(_) => answer.lack(),
    }
}

/// Says what a walk gives that gives each block once.
fn say_once(alloc: Global, blocks: &[StoredBlock], root: Cid, scope: Scope, answer: &mut Answer) {
    let query = Query::car(root, List::new(alloc), scope, None, false);
    match (store_of(alloc, blocks), Walk::new(alloc, &query)) {
        (Some(mut store), Ok(mut walk)) => say_ended(&mut walk, &mut store, answer),
        _ => answer.text("no walk"),
    }
}

fn made(alloc: Global, levels: u64, folders: u64) -> Result<Shards, AllocError> {
    let mut blocks = List::new(alloc);
    let mut shard = kept(&mut blocks, node(alloc, List::new(alloc), NO_SLOT)?)?;
    for _ in 0..levels {
        shard = kept(&mut blocks, full_shard(alloc, shard)?)?;
    }
    let mut below = shard;
    for _ in 0..folders {
        below = kept(&mut blocks, folder(alloc, b"c", below, None)?)?;
    }
    let folder = kept(&mut blocks, folder(alloc, b"a", shard, Some(below))?)?;
    Ok(Shards {
        folder,
        shard,
        blocks,
    })
}

/// Keeps a block, and tells its CID.
fn kept(blocks: &mut List<StoredBlock>, made: StoredBlock) -> Result<Cid, AllocError> {
    let cid = made.cid;
    blocks.push(made)?;
    Ok(cid)
}

/// The directory that has a block by this name, and maybe another one as `b`.
fn folder(
    alloc: Global,
    name: &[u8],
    cid: Cid,
    other: Option<Cid>,
) -> Result<StoredBlock, AllocError> {
    let mut links = List::new(alloc);
    links.push(link(alloc, name, cid, 1)?)?;
    if let Some(other) = other {
        links.push(link(alloc, b"b", other, 1)?)?;
    }
    node(alloc, links, DIRECTORY)
}

/// The shard of 256 slots, each of which leads to a child of this CID.
fn full_shard(alloc: Global, child: Cid) -> Result<StoredBlock, AllocError> {
    let mut links = List::new(alloc);
    for high in DIGITS {
        for low in DIGITS {
            links.push(link(alloc, &[*high, *low], child, 1)?)?;
        }
    }
    let mut payload = Bytes::of(alloc, b"\x08\x05\x12\x20")?;
    payload.push_all(&[0xff; 32])?;
    payload.push_all(b"(\"0\x80\x02")?;
    node(alloc, links, payload.as_slice())
}

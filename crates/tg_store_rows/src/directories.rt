//! Directories of entries, in one block and sharded.
ghost use Rattle.tg_unixfs.specs.Unix.{IsUnix};

use crate::checked::{CheckedFault, checked_build, checked_directory, checked_weight};
use crate::entries::{entries_of, numbered_entries};
use crate::given::number_at;
use crate::said::{say_at, say_keep_fault, say_made};
use std::alloc::Global;
use tg_bytes::{Bytes, List};
use tg_cid::Cid;
use tg_dagpb::Link;
use tg_hamt::HamtFault;
use tg_model::{Blocks, Kind, Made, Slot, check_shard, reads};
use tg_node_writing::node_block;
use tg_rows::Answer;
use tg_store::MemStore;
use tg_unixfs::Unix;

/// A directory's data.
fn directory(alloc: Global) -> Unix
    ensures { IsUnix result }
{
    Unix {
        kind: 1,
        inline: None,
        filesize: None,
        sizes: List::new(alloc),
        hash: None,
        fanout: None,
    }
}

/// `node NAME ENTRY CID TSIZE ..`: the block of a node with a link for each entry and the data of a directory.
pub fn answer_node(alloc: Global, given: &[Bytes], answer: &mut Answer) {
    match entries_of(alloc, given.get(1..).unwrap_or(&[])) {
        Some(entries) => match node_block(alloc, entries.as_slice(), &directory(alloc)) {
            Ok(block) => answer.bytes(block.as_slice()),
            Err(_) => answer.lack(),
        },
        None => answer.text("no entries"),
    }
}

/// What is made of the entries of a row's fields behind its threshold.
fn made_of(alloc: Global, given: &[Bytes], store: &mut MemStore) -> Result<Made, CheckedFault> {
    let threshold = number_at(given, 1).unwrap_or(u64::MAX);
    match entries_of(alloc, given.get(2..).unwrap_or(&[])) {
        Some(entries) => checked_directory(alloc, entries.as_slice(), threshold, store),
        None => Err(CheckedFault::BadEntries),
    }
}

/// `directory NAME THRESHOLD ENTRY CID TSIZE ..`: what is made of a directory that is sharded above this weight, and how
/// many bytes the root's block has.
pub fn answer_directory(alloc: Global, given: &[Bytes], answer: &mut Answer) {
    let mut store = MemStore::new(alloc);
    match made_of(alloc, given, &mut store) {
        Ok(made) => {
            say_made(alloc, made, answer);
            match block_of(&mut store, &made.cid) {
                Some(block) => answer.number(block.as_slice().len() as u64),
                None => answer.text("no block"),
            }
        }
        Err(fault) => say_fault(&fault, answer),
    }
}

/// `shape NAME THRESHOLD ENTRY CID TSIZE ..`: what the root of such a directory is: one block with links of these names, or
/// a shard with so many slots.
pub fn answer_shape(alloc: Global, given: &[Bytes], answer: &mut Answer) {
    let mut store = MemStore::new(alloc);
    match made_of(alloc, given, &mut store) {
        Ok(made) => match block_of(&mut store, &made.cid) {
            Some(block) => say_shape(alloc, &made.cid, block.as_slice(), answer),
            None => answer.text("no block"),
        },
        Err(fault) => say_fault(&fault, answer),
    }
}

/// Says what a block is: a shard with so many slots, or one with links of these names.
fn say_shape(alloc: Global, cid: &Cid, block: &[u8], answer: &mut Answer) {
    match reads(alloc, cid, block) {
        Ok(Kind::Shard { slots }) => say_at("shard", slots.as_slice().len() as u64, answer),
        _ => match tg_dagpb::decode(alloc, block) {
            Ok(node) => say_links(node.links.as_slice(), answer),
            Err(_) => answer.text("no node"),
        },
    }
}

/// Says the names of links, in order.
fn say_links(links: &[Link], answer: &mut Answer) {
    answer.text("links");
    for link in links {
        match &link.name {
            Some(name) => answer.bytes(name.as_slice()),
            None => answer.text("no name"),
        }
    }
}

/// `weight NAME ENTRY CID TSIZE ..`: the weight of a directory.
pub fn answer_weight(alloc: Global, given: &[Bytes], answer: &mut Answer) {
    match entries_of(alloc, given.get(1..).unwrap_or(&[])) {
        Some(entries) => match checked_weight(entries.as_slice()) {
            Ok(weight) => answer.number(weight),
            Err(fault) => say_fault(&fault, answer),
        },
        None => answer.text("no entries"),
    }
}

/// Says why no directory is made.
fn say_fault(fault: &CheckedFault, answer: &mut Answer) {
    match fault {
        CheckedFault::BadEntries => answer.text("BadEntries"),
        CheckedFault::BadThreshold => answer.text("BadThreshold"),
        CheckedFault::Built(HamtFault::SameHash { first, second }) => {
            answer.text("SameHash");
            answer.bytes(first.as_slice());
            answer.bytes(second.as_slice());
        }
        CheckedFault::Built(HamtFault::Keep(fault)) => say_keep_fault(*fault, answer),
        CheckedFault::Built(HamtFault::OutOfMemory) => answer.lack(),
    }
}

/// The block that is kept under a CID.
fn block_of(store: &mut MemStore, cid: &Cid) -> Option<Bytes> {
    match store.get(cid) {
        Ok(block) => block,
        Err(_) => None,
    }
}

/// `shard NAME ENTRY CID TSIZE ..`: the Tsize of the shard of these entries, and its block.
pub fn answer_shard(alloc: Global, given: &[Bytes], answer: &mut Answer) {
    let mut store = MemStore::new(alloc);
    match entries_of(alloc, given.get(1..).unwrap_or(&[])) {
        Some(entries) => match checked_build(alloc, entries.as_slice(), &mut store) {
            Ok(made) => say_shard(made, &mut store, answer),
            Err(fault) => say_fault(&fault, answer),
        },
        None => answer.text("no entries"),
    }
}

fn say_shard(made: Made, store: &mut MemStore, answer: &mut Answer) {
    answer.number(made.tsize);
    match block_of(store, &made.cid) {
        Some(block) => answer.bytes(block.as_slice()),
        None => answer.text("no block"),
    }
}

/// `numbered COUNT`: whether the root is a shard of a directory with so many entries, how many names are listed, and in how
/// many shards.
pub fn answer_numbered(alloc: Global, given: &[Bytes], answer: &mut Answer) {
    let count = number_at(given, 0).unwrap_or(0).min(1_000);
    let mut store = MemStore::new(alloc);
    match numbered_entries(alloc, count) {
        Some(entries) => match checked_build(alloc, entries.as_slice(), &mut store) {
            Ok(made) => say_listed(alloc, &mut store, made.cid, answer),
            Err(fault) => say_fault(&fault, answer),
        },
        None => answer.lack(),
    }
}

/// Says whether the root is a shard, how many names are listed, and in how many shards.
fn say_listed(alloc: Global, store: &mut MemStore, root: Cid, answer: &mut Answer) {
    if is_root_shard(alloc, store, &root) {
        answer.text("root");
    }
    match counts(alloc, store, root) {
        Some((names, shards)) => {
            say_at("names", names, answer);
            say_at("shards", shards, answer);
        }
        None => answer.text("no listing"),
    }
}

/// Whether a root shard is kept under the CID.
fn is_root_shard(alloc: Global, store: &mut MemStore, cid: &Cid) -> bool {
    match kind_of(alloc, store, cid) {
        Some(kind) => check_shard(&kind, &[]).is_ok(),
        None => false,
    }
}

/// What a stored block is read as.
fn kind_of(alloc: Global, store: &mut MemStore, cid: &Cid) -> Option<Kind> {
    match block_of(store, cid) {
        Some(block) => reads(alloc, cid, block.as_slice()).ok(),
        None => None,
    }
}

/// The numbers of the names and of the shards, which are fewer than 1,000, from this one down.
fn counts(alloc: Global, store: &mut MemStore, root: Cid) -> Option<(u64, u64)> {
    let mut left = Vec::new(alloc);
    if left.push(root).is_err() {
        return None;
    }
    let mut listed: u64 = 0;
    for shards in 0..1_000u64 {
        let Some(cid) = left.pop() else {
            return Some((listed, shards));
        };
        let Some(names) = names_of(alloc, store, &cid, &mut left) else {
            return None;
        };
        listed = listed.saturating_add(names);
    }
    None
}

/// The number of the names in the shard.
fn names_of(alloc: Global, store: &mut MemStore, cid: &Cid, left: &mut Vec<Cid>) -> Option<u64> {
    match kind_of(alloc, store, cid) {
        Some(Kind::Shard { slots }) => names_in(slots.as_slice(), left),
        _ => None,
    }
}

/// The number of the names in these slots; the shards to which the others lead are added to those that are left, or
/// there was no memory.
fn names_in(slots: &[Slot], left: &mut Vec<Cid>) -> Option<u64> {
    let mut names: u64 = 0;
    for slot in slots {
        if slot.name.is_some() {
            names = names.saturating_add(1);
        } else if left.push(slot.cid).is_err() {
            return None;
        }
    }
    Some(names)
}

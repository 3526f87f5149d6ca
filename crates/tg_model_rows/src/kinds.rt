//! Blocks, with their kinds or faults.
use crate::faults::say_block;
use std::alloc::{AllocError, Global};
use tg_bytes::{Bytes, List};
use tg_cid::{Cid, Codec};
use tg_dagpb::{Link, Node};
use tg_model::{BlockFault, Kind, check_shard, reads};
use tg_rows::Answer;

/// What a block is read as under its DAG-PB CID.
fn read(alloc: Global, block: &[u8]) -> Result<Kind, BlockFault> {
    reads(alloc, &Cid::of_block(Codec::DagPb, block), block)
}

/// `read BLOCK`: what it is read as under its DAG-PB CID, or why it is nothing. Its raw CID reads it as its bytes.
pub fn answer_read(alloc: Global, given: &[Bytes], answer: &mut Answer) {
    let [block] = given else {
        return answer.text("a block");
    };
    say_kind(alloc, block.as_slice(), answer);
    if !is_raw(alloc, block.as_slice()) {
        answer.text("is not raw");
    }
}

/// Whether a raw CID reads the bytes.
fn is_raw(alloc: Global, block: &[u8]) -> bool {
    match reads(alloc, &Cid::of_block(Codec::Raw, block), block) {
        Ok(kind) => matches!(kind, Kind::Raw),
        Err(_) => false,
    }
}

/// Says what a block is read as under its DAG-PB CID.
fn say_kind(alloc: Global, block: &[u8], answer: &mut Answer) {
    match read(alloc, block) {
        Ok(kind) => answer.text(kind_name(&kind)),
        Err(fault) => say_block(fault, answer),
    }
}

/// The name of a kind.
fn kind_name(kind: &Kind) -> &'static str {
    match kind {
        Kind::Raw => "raw",
        Kind::File { .. } => "file",
        Kind::Basic { .. } => "directory",
        Kind::Shard { .. } => "shard",
        Kind::Symlink { .. } => "link",
    }
}

/// `kind DATA NAME ..`: what the node with this data and links of these names is read as, `-` for a link without a name.
pub fn answer_kind(alloc: Global, given: &[Bytes], answer: &mut Answer) {
    let [payload, names @ ..] = given else {
        return answer.text("data and names");
    };
    match block_of(alloc, names, payload.as_slice()) {
        Ok(block) => say_kind(alloc, block.as_slice(), answer),
        Err(_) => answer.lack(),
    }
}

/// `place SLOTS DATA NAME ..`: whether the node stands where these slots were passed, or why not.
pub fn answer_place(alloc: Global, given: &[Bytes], answer: &mut Answer) {
    let [above, payload, names @ ..] = given else {
        return answer.text("slots, data and names");
    };
    match block_of(alloc, names, payload.as_slice()) {
        Ok(block) => say_place(alloc, block.as_slice(), above.as_slice(), answer),
        Err(_) => answer.lack(),
    }
}

/// Says whether a block stands where these slots were passed.
fn say_place(alloc: Global, block: &[u8], above: &[u8], answer: &mut Answer) {
    match read(alloc, block) {
        Ok(kind) => match check_shard(&kind, above) {
            Ok(()) => answer.text("stands"),
            Err(fault) => say_block(fault, answer),
        },
        Err(fault) => say_block(fault, answer),
    }
}

/// The block of a node whose links have these names and lead to the raw block `hell`.
fn block_of(alloc: Global, names: &[Bytes], payload: &[u8]) -> Result<Bytes, AllocError> {
    let links = links_of(alloc, names)?;
    let payload = Some(Bytes::of(alloc, payload)?);
    tg_dagpb::encode(alloc, &Node { links, payload })
}

/// The links with these names.
fn links_of(alloc: Global, names: &[Bytes]) -> Result<List<Link>, AllocError> {
    let mut links = List::new(alloc);
    for name in names {
        links.push(link_of(alloc, name.as_slice())?)?;
    }
    Ok(links)
}

/// The link with this name, without one where that is `-`.
fn link_of(alloc: Global, name: &[u8]) -> Result<Link, AllocError> {
    let hash = Cid::of_block(Codec::Raw, b"hell").to_bytes(alloc)?;
    Ok(Link {
        hash,
        name: name_of(alloc, name)?,
        tsize: None,
    })
}

/// The bytes of a name, or none for `-`.
fn name_of(alloc: Global, name: &[u8]) -> Result<Option<Bytes>, AllocError> {
    if name == b"-".as_slice() {
        return Ok(None);
    }
    Ok(Some(Bytes::of(alloc, name)?))
}

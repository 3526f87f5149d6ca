//! The blocks that rows make, and those that are stored.
use std::alloc::{AllocError, Global};
use std::str::from_utf8;
use tg_bytes::{Bytes, List, number_of};
use tg_cid::{Cid, Codec};
use tg_dagpb::{Link, Node};
use tg_oracle::StoredBlock;
use tg_rows::Answer;

/// A block that has a name.
#[derive(Drop)]
struct Named {
    name: Bytes,
    cid: Cid,
    block: Bytes,
}

/// The blocks that rows have made, and those of them that are stored, in their order.
#[derive(Drop)]
pub struct Dags {
    alloc: Global,
    named: List<Named>,
    stored: List<StoredBlock>,
}

impl Dags {
    /// No blocks.
    pub fn new(alloc: Global) -> Dags {
        Dags {
            alloc,
            named: List::new(alloc),
            stored: List::new(alloc),
        }
    }

    /// What gives memory.
    pub fn alloc(&self) -> Global {
        self.alloc
    }

    /// The stored blocks.
    pub fn stored(&self) -> &[StoredBlock] {
        self.stored.as_slice()
    }

    /// The block with this name.
    fn block_named(&self, name: &[u8]) -> Option<&Named> {
        for named in self.named.as_slice() {
            if named.name.as_slice() == name {
                return Some(named);
            }
        }
        None
    }

    /// The CID of the block with this name.
    pub fn cid(&self, name: &[u8]) -> Option<Cid> {
        match self.block_named(name) {
            Some(named) => Some(named.cid),
            None => None,
        }
    }

    /// The name of the block that has just this CID.
    pub fn name(&self, cid: Cid) -> &[u8] {
        for named in self.named.as_slice() {
            if named.cid == cid {
                return named.name.as_slice();
            }
        }
        b"an unknown block"
    }

    /// Whether no block has this name or this CID.
    fn is_new(&self, name: &[u8], cid: Cid) -> bool {
        for named in self.named.as_slice() {
            if named.name.as_slice() == name || named.cid == cid {
                return false;
            }
        }
        true
    }

    /// `block NAME raw BYTES`, `block NAME dag-pb BYTES`, `block NAME node DATA ..` with a name, a block and a Tsize for each
    /// link, `block NAME old OTHER` under the other block's CIDv0, and `block NAME itself OTHER` under its identity CID:
    /// makes a block, and says the text of its CID.
    pub fn answer_block(&mut self, given: &[Bytes], answer: &mut Answer) {
        let [name, form, what, links @ ..] = given else {
            return answer.text("a name, a form and what it has");
        };
        match self.made(form.as_slice(), what.as_slice(), links) {
            Some(made) => self.add(name.as_slice(), made, answer),
            None => answer.text("no block"),
        }
    }

    /// A block of this form.
    fn made(&self, form: &[u8], what: &[u8], links: &[Bytes]) -> Option<StoredBlock> {
        let alloc = self.alloc;
        match from_utf8(form) {
            Ok("raw") => under(alloc, Cid::of_block(Codec::Raw, what), what).ok(),
            Ok("dag-pb") => under(alloc, Cid::of_block(Codec::DagPb, what), what).ok(),
            Ok("node") => match self.links_of(links) {
                Some(links) => node(alloc, links, what).ok(),
                None => None,
            },
            Ok("old") => match self.block_named(what) {
                Some(other) => old_form(alloc, other).ok(),
                None => None,
            },
            Ok("itself") => match self.block_named(what) {
                Some(other) => itself(alloc, other).ok(),
                None => None,
            },
            _ => None,
        }
    }

    /// The links of which each has a name, a block and a Tsize.
    fn links_of(&self, given: &[Bytes]) -> Option<List<Link>> {
        let mut links = List::new(self.alloc);
        for link in given.chunks(3) {
            let Some(link) = self.link_of(link) else {
                return None;
            };
            if links.push(link).is_err() {
                return None;
            }
        }
        Some(links)
    }

    /// The link with a name, a block and a Tsize.
    fn link_of(&self, given: &[Bytes]) -> Option<Link> {
        let [name, block, tsize] = given else {
            return None;
        };
        match (self.cid(block.as_slice()), number_of(tsize.as_slice())) {
            (Some(cid), Some(tsize)) => link(self.alloc, name.as_slice(), cid, tsize).ok(),
            _ => None,
        }
    }

    /// Adds a block, and says the text of its CID.
    fn add(&mut self, name: &[u8], made: StoredBlock, answer: &mut Answer) {
        let StoredBlock { cid, block } = made;
        if !self.is_new(name, cid) {
            return answer.text("there is one with this name or this CID");
        }
        match cid.to_text(self.alloc) {
            Ok(text) => answer.bytes(text.as_slice()),
            Err(_) => answer.lack(),
        }
        match Bytes::of(self.alloc, name) {
            Ok(name) => self.push(Named { name, cid, block }, answer),
            Err(_) => answer.lack(),
        }
    }

    fn push(&mut self, named: Named, answer: &mut Answer) {
        if self.named.push(named).is_err() {
            answer.lack();
        }
    }

    /// `store NAME ..`: stores just these blocks in this order, and says how many they are.
    pub fn answer_store(&mut self, given: &[Bytes], answer: &mut Answer) {
        match self.chosen(given) {
            Some(stored) => {
                answer.number(stored.as_slice().len() as u64);
                self.stored = stored;
            }
            None => answer.text("no such blocks"),
        }
    }

    /// Copies of the blocks with these names.
    fn chosen(&self, names: &[Bytes]) -> Option<List<StoredBlock>> {
        let mut blocks = List::new(self.alloc);
        for name in names {
            let Some(block) = self.copy_of(name.as_slice()) else {
                return None;
            };
            if blocks.push(block).is_err() {
                return None;
            }
        }
        Some(blocks)
    }

    /// A copy of the block with this name.
    fn copy_of(&self, name: &[u8]) -> Option<StoredBlock> {
        match self.block_named(name) {
            Some(named) => under(self.alloc, named.cid, named.block.as_slice()).ok(),
            None => None,
        }
    }
}

/// The bytes under this CID.
pub fn under(alloc: Global, cid: Cid, bytes: &[u8]) -> Result<StoredBlock, AllocError> {
    let block = Bytes::of(alloc, bytes)?;
    Ok(StoredBlock { cid, block })
}

/// A node with these links and this data.
pub fn node(alloc: Global, links: List<Link>, payload: &[u8]) -> Result<StoredBlock, AllocError> {
    let payload = Some(Bytes::of(alloc, payload)?);
    let block = tg_dagpb::encode(alloc, &Node { links, payload })?;
    let cid = Cid::of_block(Codec::DagPb, block.as_slice());
    Ok(StoredBlock { cid, block })
}

/// A link.
pub fn link(alloc: Global, name: &[u8], cid: Cid, tsize: u64) -> Result<Link, AllocError> {
    let hash = cid.to_bytes(alloc)?;
    let name = Some(Bytes::of(alloc, name)?);
    Ok(Link {
        hash,
        name,
        tsize: Some(tsize),
    })
}

/// A DAG-PB block under its CIDv0, that is the hash of its CIDv1 alone.
fn old_form(alloc: Global, other: &Named) -> Result<StoredBlock, AllocError> {
    let bytes = other.cid.to_bytes(alloc)?;
    let cid = cid_or(other.cid, bytes.as_slice().get(2..).unwrap_or(b""));
    under(alloc, cid, other.block.as_slice())
}

/// A block of less than 128 bytes under its identity CID.
fn itself(alloc: Global, other: &Named) -> Result<StoredBlock, AllocError> {
    let block = other.block.as_slice();
    let named = other.cid.to_bytes(alloc)?;
    let mut bytes = Bytes::of(alloc, named.as_slice().get(..2).unwrap_or(b""))?;
    bytes.push_all(&[0, u8::try_from(block.len()).unwrap_or(u8::MAX)])?;
    bytes.push_all(block)?;
    under(alloc, cid_or(other.cid, bytes.as_slice()), block)
}

/// The CID of these bytes; the other one, where they are none of a CID.
fn cid_or(other: Cid, bytes: &[u8]) -> Cid {
    match Cid::from_bytes(bytes) {
        Ok(cid) => cid,
        Err(_) => other,
    }
}

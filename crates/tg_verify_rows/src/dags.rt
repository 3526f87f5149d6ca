//! DAGs of small blocks, a row for each.
use std::alloc::{AllocError, Global};
use std::str::from_utf8;
use tg_bytes::{Bytes, List, number_of};
use tg_cid::{Cid, Codec};
use tg_dagpb::{Link, Node};
use tg_oracle::StoredBlock;
use tg_rows::Answer;

/// A DAG: its blocks, each behind those where its links lead, of which the last is the root; and those that are stored.
#[derive(Drop)]
pub struct Dag {
    pub alloc: Global,
    pub blocks: List<StoredBlock>,
    pub stored: List<StoredBlock>,
}

impl Dag {
    /// A DAG of no blocks.
    pub fn new(alloc: Global) -> Dag {
        Dag {
            alloc,
            blocks: List::new(alloc),
            stored: List::new(alloc),
        }
    }

    /// The CID of the last block, or that of the raw block of no bytes where there is none.
    pub fn root(&self) -> Cid {
        match self.blocks.as_slice().last() {
            Some(root) => root.cid,
            None => Cid::of_block(Codec::Raw, b""),
        }
    }

    /// Adds a block, and says how many bytes it has.
    pub fn answer(&mut self, kind: &[u8], given: &[Bytes], answer: &mut Answer) {
        let added = match from_utf8(kind) {
            Ok("raw") => self.add_raw(given, true),
            Ok("lost-raw") => self.add_raw(given, false),
            Ok("changed") => self.add_changed(given),
            Ok("node") => self.add_node(given, true),
            Ok("lost-node") => self.add_node(given, false),
            Ok("itself") => self.add_itself(given),
            _ => return answer.text("an unknown block"),
        };
        say_added(added, answer);
    }

    /// Adds the bytes under a CID, and stores them. Gives how many bytes they are.
    pub fn add(&mut self, cid: Cid, block: &[u8], is_stored: bool) -> Result<usize, AllocError> {
        if is_stored {
            let block = Bytes::of(self.alloc, block)?;
            self.stored.push(StoredBlock { cid, block })?;
        }
        let held = Bytes::of(self.alloc, block)?;
        self.blocks.push(StoredBlock { cid, block: held })?;
        Ok(block.len())
    }

    /// Adds a raw block of these bytes.
    fn add_raw(&mut self, given: &[Bytes], is_stored: bool) -> Result<usize, AllocError> {
        match given.first() {
            Some(block) => {
                let block = block.as_slice();
                self.add(Cid::of_block(Codec::Raw, block), block, is_stored)
            }
            None => Ok(0),
        }
    }

    /// Adds a raw block under the CID of the first bytes, that has the other ones.
    fn add_changed(&mut self, given: &[Bytes]) -> Result<usize, AllocError> {
        match given {
            [named, block] => self.add(
                Cid::of_block(Codec::Raw, named.as_slice()),
                block.as_slice(),
                true,
            ),
            _ => Ok(0),
        }
    }

    /// Adds a node with this data and these links: of each the name, the number of the block where it leads, and the
    /// Tsize.
    fn add_node(&mut self, given: &[Bytes], is_stored: bool) -> Result<usize, AllocError> {
        let [payload, links @ ..] = given else {
            return Ok(0);
        };
        let links = self.links_of(links)?;
        self.add_links(payload.as_slice(), links, is_stored)
    }

    /// Adds a node with this data and these links.
    pub fn add_links(
        &mut self,
        payload: &[u8],
        links: List<Link>,
        is_stored: bool,
    ) -> Result<usize, AllocError> {
        let payload = Some(Bytes::of(self.alloc, payload)?);
        let block = tg_dagpb::encode(self.alloc, &Node { links, payload })?;
        let cid = Cid::of_block(Codec::DagPb, block.as_slice());
        self.add(cid, block.as_slice(), is_stored)
    }

    /// The links of these fields.
    pub fn links_of(&self, fields: &[Bytes]) -> Result<List<Link>, AllocError> {
        let mut links = List::new(self.alloc);
        for field in fields.chunks(3) {
            if let [name, number, tsize] = field {
                let tsize = number_of(tsize.as_slice()).unwrap_or(0);
                links.push(self.link_of(name.as_slice(), number.as_slice(), tsize)?)?;
            }
        }
        Ok(links)
    }

    /// A link to the block with the number that these digits say, or to the raw block of no bytes where there is none.
    pub fn link_of(&self, name: &[u8], digits: &[u8], tsize: u64) -> Result<Link, AllocError> {
        self.link_to(self.cid_at(digits), name, tsize)
    }

    /// A link to the block under this CID.
    pub fn link_to(&self, cid: Cid, name: &[u8], tsize: u64) -> Result<Link, AllocError> {
        let hash = cid.to_bytes(self.alloc)?;
        let name = Some(Bytes::of(self.alloc, name)?);
        Ok(Link {
            hash,
            name,
            tsize: Some(tsize),
        })
    }

    /// The CID of the block with the number that these digits say.
    fn cid_at(&self, digits: &[u8]) -> Cid {
        match block_at(self.blocks.as_slice(), digits) {
            Some(stored) => stored.cid,
            None => Cid::of_block(Codec::Raw, b""),
        }
    }

    /// Adds the block with this number, of less than 128 bytes, under its identity CID.
    fn add_itself(&mut self, given: &[Bytes]) -> Result<usize, AllocError> {
        let digits = match given.first() {
            Some(number) => number.as_slice(),
            None => b"".as_slice(),
        };
        let (cid, block) = match block_at(self.blocks.as_slice(), digits) {
            Some(stored) => (
                identity_form(self.alloc, stored)?,
                Bytes::of(self.alloc, stored.block.as_slice())?,
            ),
            None => return Ok(0),
        };
        self.add(cid, block.as_slice(), true)
    }
}

/// Says how many bytes were added.
pub fn say_added(added: Result<usize, AllocError>, answer: &mut Answer) {
    match added {
        Ok(size) => answer.number(size as u64),
        Err(_) => answer.lack(),
    }
}

/// The block with the number that these digits say.
fn block_at<'a>(blocks: &'a [StoredBlock], digits: &[u8]) -> Option<&'a StoredBlock> {
    match number_of(digits) {
        Some(number) => blocks.get(number.min(1 << 30) as usize),
        None => None,
    }
}

/// The identity CID of a block of less than 128 bytes that has a CIDv1; of another block its CID.
fn identity_form(alloc: Global, stored: &StoredBlock) -> Result<Cid, AllocError> {
    let block = stored.block.as_slice();
    let named = stored.cid.to_bytes(alloc)?;
    let mut bytes = Bytes::of(alloc, named.as_slice().get(..2).unwrap_or(b""))?;
    bytes.push_all(&[0, u8::try_from(block.len()).unwrap_or(u8::MAX)])?;
    bytes.push_all(block)?;
    Ok(cid_or(stored.cid, bytes.as_slice()))
}

/// The CID of these bytes; the other one, where they are none of a CID.
pub fn cid_or(other: Cid, bytes: &[u8]) -> Cid {
    match Cid::from_bytes(bytes) {
        Ok(cid) => cid,
        Err(_) => other,
    }
}

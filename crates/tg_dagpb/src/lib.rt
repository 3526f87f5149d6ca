//! DAG-PB nodes: links to other blocks, and data.
#![tactic(auto)]

mod computed;
pub mod laws;
mod reading;
mod writing;

ghost use Rattle.std.specs.Prelude.{◌≡◌, ℕ, ◌⊎◌, [], List as Items};
ghost use Rattle.tg_dagpb.specs.Node.{NodeText, CanonicalText, DataFirstText};
ghost use Rattle.tg_dagpb.specs.Cursor.{IsBetween};
ghost use Rattle.tg_dagpb.specs.declared.Node.{Node};

pub use reading::{check, decode, link_at, link_places_at, payload_at};
use tg_bytes::{Bytes, List};
use tg_pbtable::{Place, Rule, Times, Wire};
pub use writing::encode;

/// The table of a node, of which the fields of one number stand together: 1 Data, 2 Links.
///
/// IPLD specification, DAG-PB, Serial Format: message PBNode.
pub const NODE: &[Rule; 2] = &[
    Rule {
        number: 1,
        wire: Wire::Bytes,
        times: Times::Optional,
    },
    Rule {
        number: 2,
        wire: Wire::Bytes,
        times: Times::Many,
    },
];

/// The table of a link, whose fields stand in ascending order: 1 Hash, 2 Name, 3 Tsize.
///
/// IPLD specification, DAG-PB, Serial Format: message PBLink.
pub const LINK: &[Rule; 3] = &[
    Rule {
        number: 1,
        wire: Wire::Bytes,
        times: Times::One,
    },
    Rule {
        number: 2,
        wire: Wire::Bytes,
        times: Times::Optional,
    },
    Rule {
        number: 3,
        wire: Wire::Varint,
        times: Times::Optional,
    },
];

/// A link: the bytes of the CID that it names, its name, and the size that it tells of all below it.
///
/// IPLD specification, DAG-PB, Logical Format: PBLink.
#[derive(Drop)]
pub struct Link {
    pub hash: Bytes,
    pub name: Option<Bytes>,
    pub tsize: Option<u64>,
}

/// A node: its links in order, and its data. Absent data differs from empty data.
///
/// IPLD specification, DAG-PB, Logical Format: PBNode.
#[derive(Drop)]
pub struct Node {
    pub links: List<Link>,
    pub payload: Option<Bytes>,
}

/// A link where it stands in its block.
#[derive(Clone, Copy, PartialEq, Eq)]
pub struct LinkSpan<'a> {
    pub hash: &'a [u8],
    pub name: Option<&'a [u8]>,
    pub tsize: Option<u64>,
}

/// The places of a link's parts in its block, and the size that it tells.
#[derive(Clone, Copy)]
pub struct LinkPlaces {
    pub hash: Place,
    pub name: Option<Place>,
    pub tsize: Option<u64>,
}

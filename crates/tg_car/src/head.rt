//! The length and the CID at the front of a section, refused at the first byte with which none goes on.
ghost use Rattle.std.specs.Prelude.{ℕ, List, [], ◌++◌};
ghost use Rattle.tg_varint.specs.Varint.{VarintSpelling};
ghost use Rattle.tg_car.specs.Heads.{IsInHead};
ghost use Rattle.tg_car.specs.Filling.{Fills, IsFront};

use crate::laws;
use crate::room::Room;
use tg_cid::Cid;
use tg_varint::VarintFault;

/// What a section's length and CID say: its CID and how many bytes its block has.
#[derive(Clone, Copy)]
pub(crate) struct Declared {
    pub(crate) cid: Cid,
    pub(crate) number: u64,
}

/// What bytes at the front of a section are.
#[derive(Clone, Copy)]
pub(crate) enum Front {
    /// A length and a CID go on behind them.
    Open,
    /// They are a length and a CID.
    Whole(Declared),
    /// No length and CID begin with them.
    Broken,
}

/// What the bytes are at the front of a section.
pub(crate) fn front_of(bytes: &[u8]) -> Front
    ensures { IsFront bytes.now result }
{
    laws::text_laws();
    match tg_varint::read(bytes) {
        Ok((size, at)) => behind_size(size, &bytes[at..]),
        Err(VarintFault::Short) => Front::Open,
        Err(VarintFault::TooLong) => Front::Broken,
        Err(VarintFault::NotShortest) => Front::Broken,
    }
}

/// What the bytes are behind the length of a section.
fn behind_size(size: u64, name: &[u8]) -> Front
    ensures { (spelling : List ℕ) → VarintSpelling size spelling → IsFront (spelling ++ name.now) result }
{
    laws::text_laws();
    let Some(count) = Cid::fewest(name) else {
        return Front::Broken;
    };
    if size < count as u64 {
        return Front::Broken;
    }
    if name.len() < count {
        return Front::Open;
    }
    match Cid::from_bytes(name) {
        Ok(cid) => Front::Whole(Declared {
            cid,
            number: size - count as u64,
        }),
        Err(_) => Front::Broken,
    }
}

/// Takes bytes of the piece into a section's length and CID up to their end, and says how many and what they are then.
pub(crate) fn fill(head: &mut Room, piece: &[u8]) -> (usize, Front)
    requires { IsInHead head.old }
    ensures { Fills head.old head.new piece.now result.0 result.1 }
{
    laws::text_laws();
    for (at, byte) in piece.iter().enumerate() {
        head.push(*byte);
        match front_of(head.as_slice()) {
            Front::Open => {}
            front => return (at + 1, front),
        }
    }
    (piece.len(), Front::Open)
}

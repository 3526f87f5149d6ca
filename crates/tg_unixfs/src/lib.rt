//! UnixFS data: the message in a DAG-PB node's payload.
#![tactic(auto)]

ghost use Rattle.std.specs.Prelude.{◌≡◌, ℕ, ◌<◌, ◌⊎◌, [], List as Items, length, IfOk, IfErr, IsErrOf, OnOk, OnErr};
ghost use Rattle.std.specs.Prelude.{MatchResult};
ghost use Rattle.tg_pbtable.specs.Emitted.{FieldTexts, Puts, IsSizeOf};
ghost use Rattle.tg_pbtable.specs.Place.{AreInside};
ghost use Rattle.tg_unixfs.specs.Unix.{UnixText, CanonicalText, HasContent, IsUnix};
ghost use Rattle.tg_unixfs.specs.Faults.{HasUnixCause};
ghost use Rattle.tg_unixfs.specs.Reading.{carried};
ghost use Rattle.tg_unixfs.specs.Places.{IsBetween, IsCursor, placed_unix};
ghost use Rattle.tg_unixfs.specs.Writing.{as_numbers, numbered, optional, placed, source_of};
ghost use Rattle.tg_unixfs.specs.declared.UnixFault.TheVariants.{OutOfMemory};
ghost use Rattle.tg_unixfs.specs.declared.Unix.{Unix};
ghost use Rattle.tg_unixfs.specs.declared.UnixFault.{UnixFault};

mod computed;
pub mod laws;
mod places;

pub use places::{UnixPlaces, places_of, size_at};
use std::alloc::{AllocError, Global};
use tg_bytes::{Bytes, List};
use tg_pbtable::{
    PbFault, Place, Rule, Times, Wire, copied_bytes, put_bytes, put_number, size_of_bytes,
    size_of_number,
};
use thiserror::Error;

/// The table of UnixFS data, whose fields stand in ascending order: 1 Type, 2 Data, 3 filesize, 4 blocksizes, 5
/// hashType, 6 fanout, 7 mode, 8 mtime. The last two are read and passed over.
///
/// UnixFS specification, Data Format and Metadata.
pub const DATA: &[Rule; 8] = &[
    Rule {
        number: 1,
        wire: Wire::Varint,
        times: Times::One,
    },
    Rule {
        number: 2,
        wire: Wire::Bytes,
        times: Times::Optional,
    },
    Rule {
        number: 3,
        wire: Wire::Varint,
        times: Times::Optional,
    },
    Rule {
        number: 4,
        wire: Wire::Varint,
        times: Times::Many,
    },
    Rule {
        number: 5,
        wire: Wire::Varint,
        times: Times::Optional,
    },
    Rule {
        number: 6,
        wire: Wire::Varint,
        times: Times::Optional,
    },
    Rule {
        number: 7,
        wire: Wire::Varint,
        times: Times::Optional,
    },
    Rule {
        number: 8,
        wire: Wire::Bytes,
        times: Times::Optional,
    },
];

/// The table of a modification time, whose fields stand in ascending order: 1 Seconds, 2 FractionalNanoseconds. Any
/// numbers are taken.
///
/// UnixFS specification, Metadata: message UnixTime.
pub const TIME: &[Rule; 2] = &[
    Rule {
        number: 1,
        wire: Wire::Varint,
        times: Times::One,
    },
    Rule {
        number: 2,
        wire: Wire::Fixed32,
        times: Times::Optional,
    },
];

/// The code of murmur3-x64-64, the hash of a shard.
const MURMUR: u64 = 0x22;

/// How many slots a shard has.
const FANOUT: u64 = 256;

/// UnixFS data: the type (0 Raw, 1 Directory, 2 File, 4 Symlink, 5 HAMTShard) and the other fields, absent ones being
/// none. Mode and modification time aren't kept.
///
/// UnixFS specification, Data Format.
#[derive(Drop)]
pub struct Unix {
    pub kind: u64,
    pub inline: Option<Bytes>,
    pub filesize: Option<u64>,
    pub sizes: List<u64>,
    pub hash: Option<u64>,
    pub fanout: Option<u64>,
}

/// Why a text is no UnixFS data.
#[derive(Clone, Copy, Debug, PartialEq, Eq, Error)]
pub enum UnixFault {
    /// The text is no message under the table; the fault is never want of memory.
    #[error("Pb {0}")]
    Pb(PbFault),
    /// The modification time is no message under its table; the fault is never want of memory, and its place is one of
    /// the text.
    #[error("BadTime {0}")]
    BadTime(PbFault),
    /// The type is 3, Metadata, or none that is known.
    #[error("BadKind {number}")]
    BadKind { number: u64 },
    /// The hash of a shard isn't 0x22, murmur3-x64-64; an absent one counts as 0.
    #[error("BadHash {number}")]
    BadHash { number: u64 },
    /// The fanout of a shard isn't 256; an absent one counts as 0.
    #[error("BadFanout {number}")]
    BadFanout { number: u64 },
    /// No memory was found for the data.
    #[error("OutOfMemory")]
    OutOfMemory,
}

impl From<PbFault> for UnixFault {
    ghost from_gives = { λ fault e. e ≡ carried fault };

    fn from(fault: PbFault) -> Self {
        match fault {
            PbFault::OutOfMemory => UnixFault::OutOfMemory,
            fault => UnixFault::Pb(fault),
        }
    }
}

impl From<AllocError> for UnixFault {
    ghost from_gives = { λ _ e. e ≡ OutOfMemory };

    fn from(_: AllocError) -> Self {
        UnixFault::OutOfMemory
    }
}

/// The data that a payload spells.
///
/// UnixFS specification, Data Format; fields out of ascending order and packed blocksizes are refused (this project's
/// own profile). Mode and modification time are read and passed over. Errors, in this order: `Pb` with the first fault
/// of the message, `BadTime` with the first one of the modification time, `BadKind`, `BadHash`, `BadFanout`, and
/// `OutOfMemory` for want of memory alone.
pub fn decode(alloc: Global, bytes: &[u8]) -> Result<Unix, UnixFault>
    ensures found { IfOk result (λ unix. UnixText unix bytes.now) }
    ensures only { (unix : Unix) → UnixText unix bytes.now
        → MatchResult result (λ found. found ≡ unix) (λ e. e ≡ UnixFault.OutOfMemory) }

    // Each refusal but want of memory comes exactly where its cause holds; memory is taken only for data.
    ensures cause { IfErr result (λ e. (e ≡ UnixFault.OutOfMemory) ⊎ HasUnixCause bytes.now e) }
    ensures given { (fault : UnixFault) → HasUnixCause bytes.now fault → result ≡ Err fault }
    // Memory is wanted for the inline bytes and the blocksizes of data alone.
    ensures memory { IsErrOf result UnixFault.OutOfMemory → (unix : Unix) × UnixText unix bytes.now × HasContent unix }
{
    let places = places_of(bytes)?;
    Ok(copied(alloc, bytes, places)?)
}

/// The data of which the parts lie at the places, each copied once. The error is want of memory.
fn copied(alloc: Global, bytes: &[u8], places: UnixPlaces) -> Result<Unix, AllocError>
    requires inside { AreInside bytes.now places.inline }
    requires cursor { IsCursor bytes.now 0 }
    ensures data { (sizes : Items ℕ) → IsBetween bytes.now 0 [] sizes
        → IfOk result (λ unix. unix ≡ placed_unix bytes.now places sizes) }
    ensures memory { (sizes : Items ℕ) → IsBetween bytes.now 0 [] sizes
        → OnErr result (HasContent (placed_unix bytes.now places sizes)) }
{
    Ok(Unix {
        kind: places.kind,
        inline: copied_bytes(alloc, bytes, places.inline)?,
        filesize: places.filesize,
        sizes: sizes_of(alloc, bytes)?,
        hash: places.hash,
        fanout: places.fanout,
    })
}

/// The blocksizes of the data that a payload spells, in order. The error is want of memory.
fn sizes_of(alloc: Global, bytes: &[u8]) -> Result<List<u64>, AllocError>
    requires { IsCursor bytes.now 0 }
    ensures sizes { (sizes : Items ℕ) → IsBetween bytes.now 0 [] sizes → IfOk result (λ found. found ≡ sizes) }
    ensures memory { (sizes : Items ℕ) → IsBetween bytes.now 0 [] sizes → OnErr result (0 < length sizes) }
{
    let mut sizes = List::new(alloc);
    let mut at = 0;
    while let Some((size, next)) = size_at(bytes, at) {
        sizes.push(size)?;
        at = next;
    }
    Ok(sizes)
}

/// The canonical text of data that `decode` can give, without mode and modification time. The error is want of memory.
///
/// UnixFS specification, Data Format.
pub fn encode(alloc: Global, unix: &Unix) -> Result<Bytes, AllocError>
    requires { IsUnix unix.now }
    ensures { IfOk result (λ text. CanonicalText unix.now text) }
{
    tg_pbtable::laws::table_laws();
    let mut text = Vec::with_capacity(alloc, size_of_text(unix))?;
    put_number(&mut text, 1, unix.kind)?;
    put_inline(&mut text, &unix.inline)?;
    put_optional(&mut text, 3, unix.filesize)?;
    put_sizes(&mut text, unix.sizes.as_slice())?;
    put_optional(&mut text, 5, unix.hash)?;
    put_optional(&mut text, 6, unix.fanout)?;
    Ok(Bytes::from(text))
}

/// How many bytes the text takes, which is how much is reserved for it.
fn size_of_text(unix: &Unix) -> usize {
    let inline = match &unix.inline {
        Some(inline) => size_of_bytes(2, inline.as_slice().len()),
        None => 0,
    };
    let mut size = size_of_number(1, unix.kind).saturating_add(inline);
    for blocksize in unix.sizes.as_slice() {
        size = size.saturating_add(size_of_number(4, *blocksize));
    }
    size.saturating_add(size_of_optional(3, unix.filesize))
        .saturating_add(size_of_optional(5, unix.hash))
        .saturating_add(size_of_optional(6, unix.fanout))
}

/// How many bytes a field of a number takes, where there is one.
fn size_of_optional(number: u32, value: Option<u64>) -> usize
    ensures { IsSizeOf (λ bytes. FieldTexts [] (optional number value) bytes) result }
{
    match value {
        Some(value) => size_of_number(number, value),
        None => 0,
    }
}

/// Puts the field of a number behind the text, where there is one.
fn put_optional(text: &mut Vec<u8>, number: u32, value: Option<u64>) -> Result<(), AllocError>
    ensures { (source : Items ℕ) → OnOk result (Puts (λ bytes. FieldTexts source (optional number value) bytes)
        text.old.items text.new.items) }
{
    match value {
        Some(value) => put_number(text, number, value),
        None => Ok(()),
    }
}

/// Puts the field of the inline bytes behind the text, where there are any.
fn put_inline(text: &mut Vec<u8>, inline: &Option<Bytes>) -> Result<(), AllocError>
    ensures { OnOk result (Puts (λ bytes. FieldTexts (source_of inline.now) (placed inline.now) bytes)
        text.old.items text.new.items) }
{
    match inline {
        Some(inline) => put_bytes(text, 2, inline.as_slice()),
        None => Ok(()),
    }
}

/// Puts the fields of the blocksizes behind the text.
fn put_sizes(text: &mut Vec<u8>, sizes: &[u64]) -> Result<(), AllocError>
    ensures { (source : Items ℕ)
        → OnOk result (Puts (λ bytes. FieldTexts source (numbered 4 (as_numbers sizes.now)) bytes)
        text.old.items text.new.items) }
{
    tg_pbtable::laws::table_laws();
    for size in sizes {
        put_number(text, 4, *size)?;
    }
    Ok(())
}

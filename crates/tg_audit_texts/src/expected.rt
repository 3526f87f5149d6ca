//! The expected answers, from what was drawn alone.
ghost use Rattle.std.specs.Prelude.{◌≡◌, ℕ, ◌+◌, ◌++◌, ◌<◌, ◌≤◌, All, IfOk, List as Items, OnOk, length, map};
ghost use Rattle.tg_audit_texts.specs.Expected.{AreExpected, IsBundle, IsHashOrder, IsOrder, file_record, files_bundled};
ghost use Rattle.tg_audit_texts.specs.Expected.{hashed_name, last_of, named_from, part};
ghost use Rattle.tg_audit_texts.specs.Hashing.{IsHashOf, IsHashing};
ghost use Rattle.tg_model.specs.Texts.{listing};

use crate::hashing::{Hashed, Hashing};
use itoa::Buffer;
use std::alloc::{AllocError, Global};
use tg_bytes::{Bytes, List};
use tg_cid::{Cid, Codec};
use tg_draws::{Drawn, file_name};
use tg_listing::{ListingFault, ListingLine, put_listing};
use tg_model::Entry;
use tg_murmur::hash64;

/// Above which weight, of 43 bytes a file, the folder `many` is sharded.
const SHARD_WEIGHT: usize = 16_384;

/// How many bytes a file of `many` weighs: its name's 7 and its CID's 36.
const FILE_WEIGHT: usize = 43;

/// A file of `many` by its number, with the hash of its name.
#[derive(Clone, Copy)]
struct HashedName {
    hash: u64,
    number: u32,
}

/// The expected answers to the first eight queries, by what was drawn alone, hashed. The error is want of memory.
pub fn expected_answers(alloc: Global, drawn: &Drawn) -> Result<Vec<Hashed>, AllocError>
    requires big { length drawn.now.big ≡ 10485760 }
    requires some { 0 < length drawn.now.many }
    requires few { length drawn.now.many ≤ 1000000 }
    ensures { IfOk result (λ expected. AreExpected drawn.now expected.items) }
{
    let big = drawn.big.as_slice();
    let many = drawn.many.as_slice();
    let expected = vec![in alloc;
        bundle(alloc, drawn)?,
        Hashed::of(part(big, 1_048_575, 2)),
        Hashed::of(last_of(big, 5)),
        Hashed::of(&[]),
        listing(alloc, many)?,
        Hashed::of(&[]),
        Hashed::of(b"dir /\n"),
        Hashed::of(many[0].as_slice()),
    ]?;
    Ok(expected)
}

/// So many bytes from a place on, which are there.
fn part(bytes: &[u8], from: usize, count: usize) -> &[u8]
    requires { from + count ≤ length bytes.now }
    ensures { result.now ≡ part from count bytes.now }
{
    &bytes[from..from + count]
}

/// The last bytes, so many, which are there.
fn last_of(bytes: &[u8], count: usize) -> &[u8]
    requires { count ≤ length bytes.now }
    ensures { result.now ≡ last_of count bytes.now }
{
    &bytes[bytes.len() - count..]
}

/// The bundle of all, hashed. The error is want of memory.
fn bundle(alloc: Global, drawn: &Drawn) -> Result<Hashed, AllocError>
    requires { length drawn.now.many ≤ 1000000 }
    ensures { IfOk result (λ hashed. (text : Items ℕ) × IsBundle drawn.now text × IsHashOf text hashed) }
{
    let many = drawn.many.as_slice();
    let mut hashing = Hashing::new();
    hashing.add(b"dir /\n");
    add_file(&mut hashing, b"/", b"big", drawn.big.as_slice());
    hashing.add(b"dir /empty\ndir /many\n");
    let order = order(alloc, many)?;
    add_files(alloc, &mut hashing, order.as_slice(), many)?;
    add_file(&mut hashing, b"/", b"none", &[]);
    Ok(hashing.hashed())
}

/// Adds the records of the files of `many` in an order. The error is want of memory.
fn add_files(
    alloc: Global,
    hashing: &mut Hashing,
    order: &[u32],
    many: &[Bytes],
) -> Result<(), AllocError>
    requires few { length many.now ≤ 1000000 }
    requires there { All (λ number. number < length many.now) order.now }
    ensures { OnOk result ((text : Items ℕ) → IsHashing hashing.old text
        → IsHashing hashing.new (text ++ files_bundled many.now order.now)) }
{
    for number in order {
        let name = file_name(alloc, *number)?;
        add_file(
            hashing,
            b"/many/",
            name.as_slice(),
            many[*number as usize].as_slice(),
        );
    }
    Ok(())
}

/// Adds the record of a file: its length and path on a line, and its bytes and a line feed.
fn add_file(hashing: &mut Hashing, folder: &[u8], name: &[u8], bytes: &[u8])
    ensures { (text : Items ℕ) → IsHashing hashing.old text
        → IsHashing hashing.new (text ++ file_record (folder.now ++ name.now) bytes.now) }
{
    hashing.add(b"file ");
    hashing.add(Buffer::new().format(bytes.len()).as_bytes());
    hashing.add(b" ");
    hashing.add(folder);
    hashing.add(name);
    hashing.add(b"\n");
    hashing.add(bytes);
    hashing.add(b"\n");
}

/// In which order the entries of `many` stand: that of their names; and where it is sharded, that of their names'
/// hashes. The error is want of memory.
fn order(alloc: Global, many: &[Bytes]) -> Result<Vec<u32>, AllocError>
    requires { length many.now ≤ 1000000 }
    ensures order { IfOk result (λ order. IsOrder many.now order.items) }
    ensures there { IfOk result (λ order. All (λ number. number < length many.now) order.items) }
{
    let mut order = Vec::new(alloc);
    for number in 0..many.len() {
        order.push(number as u32)?;
    }
    if SHARD_WEIGHT < FILE_WEIGHT * many.len() {
        return by_hash(alloc, order.as_slice());
    }
    Ok(order)
}

/// The listing of `many`, hashed. The error is want of memory.
fn listing(alloc: Global, many: &[Bytes]) -> Result<Hashed, AllocError>
    requires { length many.now ≤ 1000000 }
    ensures { IfOk result (λ hashed. IsHashOf (listing (named_from 0 many.now)) hashed) }
{
    let mut lines = List::new(alloc);
    for (number, bytes) in many.iter().enumerate() {
        let entry = Entry {
            name: file_name(alloc, number as u32)?,
            cid: Cid::of_block(Codec::Raw, bytes.as_slice()),
        };
        lines.push(ListingLine::of(alloc, entry)?)?;
    }
    let mut hashing = Hashing::new();
    match put_listing(alloc, lines, &mut hashing) {
        Ok(()) => Ok(hashing.hashed()),
        Err(ListingFault::SinkFault | ListingFault::OutOfMemory) => Err(AllocError),
    }
}

/// Numbers of files in the order of their names' hashes. The error is want of memory.
fn by_hash(alloc: Global, numbers: &[u32]) -> Result<Vec<u32>, AllocError>
    requires { All (λ number. number < 1000000) numbers.now }
    ensures { IfOk result (λ order. IsHashOrder numbers.now order.items) }
{
    let mut hashed = name_hashes(alloc, numbers)?;
    hashed.sort_unstable_by_key(|file| file.hash);
    let mut order = Vec::new(alloc);
    let files = hashed.as_slice();
    for file in files {
        order.push(file.number)?;
    }
    Ok(order)
}

/// Numbers of files, each with its name's hash. The error is want of memory.
fn name_hashes(alloc: Global, numbers: &[u32]) -> Result<Vec<HashedName>, AllocError>
    requires { All (λ number. number < 1000000) numbers.now }
    ensures { IfOk result (λ hashed. hashed.items ≡ map hashed_name numbers.now) }
{
    let mut hashed = Vec::new(alloc);
    for number in numbers {
        let name = file_name(alloc, *number)?;
        hashed.push(HashedName {
            hash: hash64(name.as_slice()),
            number: *number,
        })?;
    }
    Ok(hashed)
}

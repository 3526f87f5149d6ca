//! The text that an audit tells.
ghost use Rattle.std.specs.Prelude.{◌≡◌, ◌++◌, IfOk, OnOk, codes, decimal};
ghost use Rattle.tg_audit_texts.specs.Expected.{raw_cid_of};
ghost use Rattle.tg_audit_texts.specs.Summary.{hashed_line, summary_text};

use crate::hashing::Hashed;
use itoa::Buffer;
use std::alloc::{AllocError, Global};
use tg_bytes::{Bytes, fill_both};
use tg_cid::Cid;
use tg_import::Summary;

/// The bytes of a raw CIDv1 with sha2-256 before its digest (CID specification).
const RAW_FRONT: [u8; 4] = [0x01, 0x55, 0x12, 0x20];

/// What an audit tells: the root; how many files were imported, and how many bytes they have; each answer's length and
/// the raw CID of its bytes; that a name that isn't there is absent; and that all is well. The error is want of memory.
pub fn summary_text(
    alloc: Global,
    root: &Cid,
    summary: &Summary,
    found: &[Hashed],
) -> Result<Bytes, AllocError>
    ensures { IfOk result (λ text. text ≡ summary_text root.now summary.now found.now) }
{
    tg_cid::laws::one_spelling();
    tg_cid::laws::computes();
    let mut text = Bytes::new(alloc);
    text.push_all(b"root ")?;
    let cid = root.to_text(alloc)?;
    text.push_all(cid.as_slice())?;
    push_number(&mut text, b"\nfiles ", summary.files)?;
    push_number(&mut text, b" bytes ", summary.bytes)?;
    text.push_all(b"\n")?;
    for (i, hashed) in found.iter().enumerate() {
        push_line(alloc, &mut text, i as u64 + 1, hashed)?;
    }
    text.push_all(b"query 9 absent\naudit ok\n")?;
    Ok(text)
}

/// Adds the line of an answer. The error is want of memory.
fn push_line(alloc: Global, text: &mut Bytes, query: u64, hashed: &Hashed) -> Result<(), AllocError>
    ensures { OnOk result (text.new ≡ text.old ++ hashed_line query hashed.now) }
{
    tg_cid::laws::one_spelling();
    tg_cid::laws::computes();
    push_number(text, b"query ", query)?;
    push_number(text, b" ", hashed.size)?;
    text.push_all(b" ")?;
    let cid = raw_cid(&hashed.digest).to_text(alloc)?;
    text.push_all(cid.as_slice())?;
    text.push_all(b"\n")?;
    Ok(())
}

/// Adds a label and a number. The error is want of memory.
fn push_number(text: &mut Bytes, label: &[u8], number: u64) -> Result<(), AllocError>
    ensures { OnOk result (text.new ≡ text.old ++ (label.now ++ decimal number)) }
{
    text.push_all(label)?;
    text.push_all(Buffer::new().format(number).as_bytes())
}

/// The raw CIDv1 with this digest of sha2-256.
fn raw_cid(digest: &[u8; 32]) -> Cid
    ensures { result ≡ raw_cid_of digest.now }
{
    tg_cid::laws::computes();
    let mut bytes = [0; 36];
    fill_both(&mut bytes, &RAW_FRONT, digest);
    match Cid::from_bytes(&bytes) {
        Ok(cid) => cid,
        Err(_) => unreachable!(),
    }
}

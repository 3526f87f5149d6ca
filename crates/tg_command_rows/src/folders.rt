//! Folders that are too large for a row.
use std::alloc::{AllocError, Global};
use tg_bytes::Bytes;
use tg_tree::Tree;

/// The name of a folder's entry, and what it is.
type Entry = (Bytes, Tree);

/// What stands in the outermost of so many folders `d` in one another.
pub fn nested_folder(alloc: Global, levels: u64) -> Result<Vec<Entry>, AllocError> {
    let mut entries = Vec::new(alloc);
    for _ in 1..levels {
        entries = folder_of(alloc, entries)?;
    }
    Ok(entries)
}

/// A folder `d` with these entries.
fn folder_of(alloc: Global, entries: Vec<Entry>) -> Result<Vec<Entry>, AllocError> {
    let mut above = Vec::new(alloc);
    above.push((Bytes::of(alloc, b"d")?, Tree::Folder(entries)))?;
    Ok(above)
}

/// The header of a pack that isn't finished.
const UNFINISHED: &[u8] =
    b"\x3a\xa2\x65roots\x81\xd8\x2a\x58\x25\x00\x01\x55\x12\x20\x00\x00\x00\x00\x00\x00\x00\x00\x00\
        \x00\x00\x00\x00\x00\x00\x00\x00\x00\x00\x00\x00\x00\x00\x00\x00\x00\x00\x00\x00\x00\x00\x00\
        \x67version\x01";

/// What stands in the folder that `.ci/program` makes and imports: in a folder `docs` a file of 5,000,000 bytes, an empty
/// folder and 300 files, and beside it the header of the pack.
pub fn counted_folder(alloc: Global) -> Result<Vec<Entry>, AllocError> {
    let docs = counted_docs(alloc)?;
    let mut entries = Vec::new(alloc);
    entries.push((Bytes::of(alloc, b"docs")?, Tree::Folder(docs)))?;
    let header = Tree::File(Bytes::of(alloc, UNFINISHED)?);
    entries.push((Bytes::of(alloc, b"out.car")?, header))?;
    Ok(entries)
}

/// What stands in `docs`.
fn counted_docs(alloc: Global) -> Result<Vec<Entry>, AllocError> {
    let mut docs = Vec::new(alloc);
    docs.push((Bytes::of(alloc, b"big")?, Tree::File(counted(alloc)?)))?;
    docs.push((Bytes::of(alloc, b"empty")?, Tree::Folder(Vec::new(alloc))))?;
    for number in 1..301u32 {
        docs.push(numbered(alloc, number)?)?;
    }
    Ok(docs)
}

/// The numbers from 1 on, each with a line feed, as far as 5,000,000 bytes go.
fn counted(alloc: Global) -> Result<Bytes, AllocError> {
    let mut bytes = Bytes::new(alloc);
    for number in 1..800_000u32 {
        let line = format!(in alloc; "{number}\n")?;
        bytes.push_all(line.as_bytes())?;
    }
    let front = bytes.as_slice().get(..5_000_000).unwrap_or(&[]);
    Bytes::of(alloc, front)
}

/// A file whose name is `n` and the number, and whose bytes are the number.
fn numbered(alloc: Global, number: u32) -> Result<Entry, AllocError> {
    let digits = format!(in alloc; "{number}")?;
    let name = format!(in alloc; "n{number}")?;
    let file = Tree::File(Bytes::of(alloc, digits.as_bytes())?);
    Ok((Bytes::of(alloc, name.as_bytes())?, file))
}

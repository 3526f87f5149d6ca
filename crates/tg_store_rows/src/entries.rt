//! Entries of directories.
use crate::given::{cid_of, number_up_to};
use std::alloc::Global;
use tg_bytes::Bytes;
use tg_cid::{Cid, Codec};
use tg_model::NewEntry;

/// The entries of a row's fields, three by three: a name, a CID and a Tsize.
pub fn entries_of(alloc: Global, fields: &[Bytes]) -> Option<Vec<NewEntry>> {
    let mut entries = Vec::new(alloc);
    for fields in fields.chunks(3) {
        let Some(entry) = entry_of(alloc, fields) else {
            return None;
        };
        if entries.push(entry).is_err() {
            return None;
        }
    }
    Some(entries)
}

/// The entry of three fields.
fn entry_of(alloc: Global, fields: &[Bytes]) -> Option<NewEntry> {
    let [name, cid, tsize] = fields else {
        return None;
    };
    match (
        Bytes::of(alloc, name.as_slice()),
        cid_of(alloc, cid.as_slice()),
    ) {
        (Ok(name), Some(cid)) => Some(NewEntry {
            name,
            cid,
            tsize: number_up_to(tsize, 1 << 62),
        }),
        _ => None,
    }
}

/// Entries with the names `file 0.txt`, `file 1.txt` and so on, which lead to the raw block `hello world`.
pub fn numbered_entries(alloc: Global, count: u64) -> Option<Vec<NewEntry>> {
    let mut entries = Vec::new(alloc);
    for number in 0..count {
        if !push_numbered(alloc, &mut entries, number) {
            return None;
        }
    }
    Some(entries)
}

/// Adds an entry with this number, and says whether there was memory.
fn push_numbered(alloc: Global, entries: &mut Vec<NewEntry>, number: u64) -> bool {
    match format!(in alloc; "file {number}.txt") {
        Ok(name) => push_entry(alloc, entries, name.as_bytes()),
        Err(_) => false,
    }
}

fn push_entry(alloc: Global, entries: &mut Vec<NewEntry>, name: &[u8]) -> bool {
    match Bytes::of(alloc, name) {
        Ok(name) => entries
            .push(NewEntry {
                name,
                cid: Cid::of_block(Codec::Raw, b"hello world"),
                tsize: 11,
            })
            .is_ok(),
        Err(_) => false,
    }
}

//! The folder of `draws.rt`, imported and kept in a pack in memory, and what an audit tells of answers.
use crate::draws::{drawn_folder, first_number};
use std::alloc::Global;
use tg_audit::{Packed, attach, import_tree};
use tg_audit_texts::{Hashed, Hashing, summary_text};
use tg_bytes::{Bytes, number_of};
use tg_cid::Cid;
use tg_files::MemPack;
use tg_import::Summary;
use tg_model::Blocks;
use tg_rows::Answer;
use tg_store::PackStore;
use tg_streams::Sink;

/// What was imported.
pub fn packed(alloc: Global) -> Option<Packed> {
    match drawn_folder(alloc) {
        Ok(tree) => import_tree(alloc, tree).ok(),
        Err(_) => None,
    }
}

/// Says the root of what was imported, and how many files, folders, shards and bytes it has.
pub fn answer_imported(alloc: Global, answer: &mut Answer) {
    match packed(alloc) {
        Some(packed) => {
            say_cid(alloc, packed.root, answer);
            answer.number(packed.summary.files);
            answer.number(packed.summary.folders);
            answer.number(packed.summary.shards);
            answer.number(packed.summary.bytes);
        }
        None => answer.text("no import"),
    }
}

/// Says the text of a CID.
pub fn say_cid(alloc: Global, cid: Cid, answer: &mut Answer) {
    match cid.to_text(alloc) {
        Ok(text) => answer.bytes(text.as_slice()),
        Err(_) => answer.lack(),
    }
}

/// Says whether the block of a CID is kept.
pub fn answer_kept(alloc: Global, given: &[Bytes], answer: &mut Answer) {
    match given.first() {
        Some(text) => match Cid::from_text(alloc, text.as_slice()) {
            Ok(cid) => answer_cid(alloc, &cid, answer),
            Err(_) => answer.text("no CID"),
        },
        None => answer.text("no CID"),
    }
}

fn answer_cid(alloc: Global, cid: &Cid, answer: &mut Answer) {
    match packed(alloc) {
        Some(packed) => match attach(alloc, packed.pack) {
            Ok(mut store) => say_kept(&mut store, cid, answer),
            Err(_) => answer.text("no store"),
        },
        None => answer.text("no import"),
    }
}

fn say_kept(store: &mut PackStore<MemPack>, cid: &Cid, answer: &mut Answer) {
    answer.text(match store.get(cid) {
        Ok(Some(block)) => {
            if cid.holds(block.as_slice()) {
                "kept"
            } else {
                "another block"
            }
        }
        Ok(None) => "not kept",
        Err(_) => "failed",
    });
}

/// Given a root, how many files and bytes were imported, and answers, says what an audit tells of them, which is the same
/// however the answers are put in pieces.
pub fn answer_text(alloc: Global, given: &[Bytes], answer: &mut Answer) {
    let [root, files, bytes, texts @ ..] = given else {
        return answer.text("no root, files and bytes");
    };
    let summary = Summary {
        files: number_of(files.as_slice()).unwrap_or(0),
        folders: 3,
        shards: 1,
        bytes: number_of(bytes.as_slice()).unwrap_or(0),
    };
    match Cid::from_text(alloc, root.as_slice()) {
        Ok(root) => match hashed_all(alloc, texts) {
            Some(found) => say_summary(alloc, &root, &summary, found.as_slice(), answer),
            None => answer.text("hashed otherwise"),
        },
        Err(_) => answer.text("no root"),
    }
}

fn say_summary(
    alloc: Global,
    root: &Cid,
    summary: &Summary,
    found: &[Hashed],
    answer: &mut Answer,
) {
    match summary_text(alloc, root, summary, found) {
        Ok(text) => answer.bytes(text.as_slice()),
        Err(_) => answer.lack(),
    }
}

/// The texts hashed, where each is the same whole, byte by byte and in pieces of 100 bytes.
fn hashed_all(alloc: Global, texts: &[Bytes]) -> Option<Vec<Hashed>> {
    let mut found = Vec::new(alloc);
    for text in texts {
        let text = text.as_slice();
        let hashed = Hashed::of(text);
        let is_same = hashed_in_pieces(text, 1) == Some(hashed)
            && hashed_in_pieces(text, 100) == Some(hashed);
        if !is_same || found.push(hashed).is_err() {
            return None;
        }
    }
    Some(found)
}

/// A text, hashed as it is put in pieces of so many bytes.
fn hashed_in_pieces(text: &[u8], size: usize) -> Option<Hashed> {
    let mut hashing = Hashing::new();
    for piece in text.chunks(size.max(1)) {
        if hashing.put(piece) != Ok(piece.len()) {
            return None;
        }
    }
    Some(hashing.hashed())
}

/// The number of a query, counted from 0, that a row gives counted from 1.
pub fn query_number(given: &[Bytes]) -> usize {
    first_number(given).saturating_sub(1) as usize
}

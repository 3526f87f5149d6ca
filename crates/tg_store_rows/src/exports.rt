//! CARs that are written from packs and from a store in memory.
ghost use Rattle.std.specs.Prelude.{◌≤◌, length, All, IfSome};
ghost use Rattle.tg_model.specs.EntryNames.{IsGoodName};
ghost use Rattle.tg_model.specs.Queries.{IsSpan};

use crate::given::{bytes_at, cid_of, fails_at, number_at, number_up_to};
use crate::said::{say_at, say_blocks_fault, say_cid, say_otherwise, say_pack_fault};
use std::alloc::Global;
use std::str::from_utf8;
use tg_bytes::{Bytes, List};
use tg_cid::{Cid, MAX_BLOCK_LEN};
use tg_export::{ExportFault, export, write_car};
use tg_files::MemPack;
use tg_model::{Keep, Path, Query, Scope, Span, is_good_name};
use tg_rows::Answer;
use tg_store::MemStore;
use tg_streams::MemSink;
use tg_walk::{ResolveFault, WalkFault};

/// `export NAME PACK ROOT SCOPE SEGMENT ..`: how the export of what a scope has at a path ends, how many bytes are put,
/// and which. The scope `once` is all, each block once.
pub fn answer_scope(alloc: Global, given: &[Bytes], answer: &mut Answer) {
    let [_, pack, root, scope, path @ ..] = given else {
        return answer.text("a name, a pack, a root, a scope and a path");
    };
    match cid_of(alloc, root.as_slice()) {
        Some(root) => {
            let query = query_of(alloc, root, path, scope.as_slice());
            answer_query(alloc, query, pack.as_slice(), answer);
        }
        None => answer.text("no CID"),
    }
}

/// The path with these segments, which are names of entries and at most 128.
fn path_of(alloc: Global, names: &[Bytes]) -> Option<Path>
    ensures few { IfSome result (λ path. length path ≤ 128) }
    ensures good { IfSome result (λ path. All IsGoodName path) }
{
    if names.len() > 128 {
        return None;
    }
    let mut path = List::new(alloc);
    for name in names {
        let Some(name) = good_name(alloc, name.as_slice()) else {
            return None;
        };
        if path.push(name).is_err() {
            return None;
        }
    }
    Some(path)
}

/// The name of an entry with these bytes.
fn good_name(alloc: Global, name: &[u8]) -> Option<Bytes>
    ensures { IfSome result IsGoodName }
{
    if !is_good_name(name) {
        return None;
    }
    Bytes::of(alloc, name).ok()
}

/// The query of what a scope has at a path.
fn query_of(alloc: Global, root: Cid, path: &[Bytes], scope: &[u8]) -> Option<Query> {
    let (scope, dups) = match from_utf8(scope) {
        Ok("block") => (Scope::Block, true),
        Ok("entity") => (Scope::Entity, true),
        Ok("all") => (Scope::All, true),
        Ok("once") => (Scope::All, false),
        _ => return None,
    };
    match path_of(alloc, path) {
        Some(path) => Some(Query::car(root, path, scope, None, dups)),
        None => None,
    }
}

/// `range NAME PACK ROOT FROM TO`, `range NAME PACK ROOT last COUNT`: the same of a range of bytes of the root.
pub fn answer_range(alloc: Global, given: &[Bytes], answer: &mut Answer) {
    let [_, pack, root, from, to] = given else {
        return answer.text("a name, a pack, a root and a range");
    };
    let span = if from.as_slice() == b"last".as_slice() {
        Some(Span::last(number_up_to(to, 1_000_000), None))
    } else {
        span_of(number_up_to(from, 1_000_000), number_up_to(to, 1_000_000))
    };
    match (cid_of(alloc, root.as_slice()), span) {
        (Some(root), Some(span)) => {
            let query = Query::car(root, List::new(alloc), Scope::Entity, Some(span), true);
            answer_query(alloc, Some(query), pack.as_slice(), answer);
        }
        _ => answer.text("no CID, or no range"),
    }
}

/// The range from a byte up to another.
fn span_of(from: u64, to: u64) -> Option<Span>
    ensures { IfSome result IsSpan }
{
    if from <= to && to <= 1_000_000 {
        Some(Span::from_start(from, Some(to)))
    } else {
        None
    }
}

/// Says how the export of a query ends from a pack of these bytes into an out that takes 7 bytes at once.
fn answer_query(alloc: Global, query: Option<Query>, pack: &[u8], answer: &mut Answer) {
    match (query, Bytes::of(alloc, pack)) {
        (Some(query), Ok(copy)) => {
            let copy = MemPack::new(copy, List::new(alloc));
            let mut out = MemSink::new(alloc, 7, List::new(alloc));
            let back = say_export(alloc, &query, copy, &mut out, answer);
            if back.content() != Some(pack) {
                answer.text("the pack changed");
            }
        }
        _ => answer.text("no query"),
    }
}

/// Says how an export from a pack into out ends, and what out holds then. Gives the pack back.
fn say_export(
    alloc: Global,
    query: &Query,
    pack: MemPack,
    out: &mut MemSink,
    answer: &mut Answer,
) -> MemPack {
    let (back, end) = export(alloc, query, pack, out);
    say_end(alloc, end, answer);
    say_held(out, answer);
    back
}

/// Says how many bytes were put into out, and which.
fn say_held(out: &MemSink, answer: &mut Answer) {
    answer.number(out.held().len() as u64);
    answer.bytes(out.held());
}

/// Says how an export ended.
fn say_end(alloc: Global, end: Result<(), ExportFault>, answer: &mut Answer) {
    match end {
        Ok(()) => answer.text("whole"),
        Err(ExportFault::Pack(fault)) => {
            answer.text("Pack");
            say_pack_fault(fault, answer);
        }
        Err(ExportFault::Resolve(fault)) => {
            answer.text("Resolve");
            say_resolve_fault(alloc, fault, answer);
        }
        Err(ExportFault::Walk(fault)) => {
            answer.text("Walk");
            say_walk_fault(alloc, fault, answer);
        }
        Err(ExportFault::SinkFault) => answer.text("SinkFault"),
        Err(ExportFault::OutOfMemory) => answer.lack(),
    }
}

/// Says why a path doesn't lead to a block.
fn say_resolve_fault(alloc: Global, fault: ResolveFault, answer: &mut Answer) {
    match fault {
        ResolveFault::NoRoot => answer.text("NoRoot"),
        ResolveFault::NotThere { segment } => say_at("NotThere", u64::from(segment), answer),
        ResolveFault::NotFolder { segment } => say_at("NotFolder", u64::from(segment), answer),
        ResolveFault::BadBlock { cid, fault } => {
            answer.text("BadBlock");
            say_cid(alloc, cid, answer);
            answer.shown_as(&fault);
        }
        ResolveFault::Gone { cid } => {
            answer.text("Gone");
            say_cid(alloc, cid, answer);
        }
        ResolveFault::Store(fault) => {
            answer.text("Store");
            say_blocks_fault(fault, answer);
        }
        ResolveFault::OutOfMemory => answer.lack(),
    }
}

/// Says why a walk ended before its last block.
fn say_walk_fault(alloc: Global, fault: WalkFault, answer: &mut Answer) {
    match fault {
        WalkFault::BadBlock { cid, fault } => {
            answer.text("BadBlock");
            say_cid(alloc, cid, answer);
            answer.shown_as(&fault);
        }
        WalkFault::Gone { cid } => {
            answer.text("Gone");
            say_cid(alloc, cid, answer);
        }
        WalkFault::TooDeep => answer.text("TooDeep"),
        WalkFault::Store(fault) => {
            answer.text("Store");
            say_blocks_fault(fault, answer);
        }
        WalkFault::NotThere { segment } => say_at("NotThere", u64::from(segment), answer),
        WalkFault::NotFolder { segment } => say_at("NotFolder", u64::from(segment), answer),
        WalkFault::OutOfMemory => answer.lack(),
    }
}

/// `faults NAME PACK ROOT CALL PUT`: how the export of the root's entity ends into an out that takes all at once, where
/// the pack's call with this number fails and the put with that one, and `-` is none.
pub fn answer_faults(alloc: Global, given: &[Bytes], answer: &mut Answer) {
    let [_, pack, root, _, _] = given else {
        return answer.text("a name, a pack, a root, a call and a put");
    };
    let calls = fails_at(alloc, number_at(given, 3));
    let puts = fails_at(alloc, number_at(given, 4));
    match (
        entity_query(alloc, root.as_slice()),
        Bytes::of(alloc, pack.as_slice()),
    ) {
        (Some(query), Ok(pack)) => {
            let mut out = MemSink::new(alloc, 100_000, puts);
            say_export(alloc, &query, MemPack::new(pack, calls), &mut out, answer);
        }
        _ => answer.text("no query"),
    }
}

/// The query of the entity of a root.
fn entity_query(alloc: Global, root: &[u8]) -> Option<Query> {
    match cid_of(alloc, root) {
        Some(root) => Some(Query::car(root, List::new(alloc), Scope::Entity, None, true)),
        None => None,
    }
}

/// `puts NAME ROOT BLOCK MOST PUT`: how the CAR of a root that has one block ends from a store in memory, where one put
/// takes at most so many bytes and the put with this number fails.
pub fn answer_puts(alloc: Global, given: &[Bytes], answer: &mut Answer) {
    let [_, root, block, most, _] = given else {
        return answer.text("a name, a root, a block, a number and a put");
    };
    let most = number_up_to(most, 1_000_000) as usize;
    let puts = fails_at(alloc, number_at(given, 4));
    match (
        entity_query(alloc, root.as_slice()),
        store_of(alloc, root.as_slice(), block.as_slice()),
    ) {
        (Some(query), Some(mut store)) => {
            let mut out = MemSink::new(alloc, most.max(1), puts);
            let end = write_car(alloc, &query, &mut store, &mut out);
            say_end(alloc, end, answer);
            say_held(&out, answer);
        }
        _ => answer.text("no query, or no store"),
    }
}

/// A store in memory that has this block.
fn store_of(alloc: Global, cid: &[u8], block: &[u8]) -> Option<MemStore> {
    match cid_of(alloc, cid) {
        Some(cid) => store_with(alloc, cid, block),
        None => None,
    }
}

fn store_with(alloc: Global, cid: Cid, block: &[u8]) -> Option<MemStore> {
    let mut store = MemStore::new(alloc);
    if block.len() > MAX_BLOCK_LEN || !cid.holds(block) || store.keep(cid, block).is_err() {
        return None;
    }
    Some(store)
}

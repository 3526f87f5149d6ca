//! Files that are made into DAGs, over a keeper of which each call fails in turn.
use crate::given::{bytes_at, number_up_to};
use crate::importing::{ImportFault, import};
use crate::left::{log_of, say_numbers};
use crate::numbered_log::NumberedLog;
use crate::said::{say_cid, say_keep_fault, say_kept, say_made, say_otherwise};
use std::alloc::Global;
use tg_bytes::Bytes;
use tg_filedag::Balanced;
use tg_model::{KeepFault, Made};
use tg_rows::Answer;

/// A file, its chunk size and its width.
#[derive(Clone, Copy)]
struct File<'a> {
    bytes: &'a [u8],
    size: u32,
    width: u32,
}

impl<'a> File<'a> {
    /// The file of a row's fields.
    fn of(bytes: &'a Bytes, size: &Bytes, width: &Bytes) -> File<'a> {
        File {
            bytes: bytes.as_slice(),
            size: number_up_to(size, 4_000_000) as u32,
            width: number_up_to(width, 4_000_000) as u32,
        }
    }

    /// What is made of the file where at most `step` bytes are fed at once.
    fn made(self, alloc: Global, step: usize, log: &mut NumberedLog) -> Result<Made, ImportFault> {
        import(alloc, self.bytes, step, self.size, self.width, log)
    }
}

/// How many bytes are fed at once.
const STEPS: &[usize] = &[1, 3, 100];

/// `chunks NAME BYTES SIZE WIDTH`: what is made of a file in chunks of this size and nodes of this width, and how many bytes
/// each block has that is kept, which is the same by whatever steps the file is fed. Each call of the keeper ends it where
/// it fails, and what was kept before stays.
pub fn answer_chunks(alloc: Global, given: &[Bytes], answer: &mut Answer) {
    let [_, bytes, size, width] = given else {
        return answer.text("a name, bytes, a chunk size and a width");
    };
    let file = File::of(bytes, size, width);
    let mut log = log_of(alloc, None);
    match file.made(alloc, 1_000_000, &mut log) {
        Ok(made) => say_whole(alloc, file, made, &log, answer),
        Err(fault) => answer.shown_as(&fault),
    }
}

/// Says what was made of a file, where it is the same by each step, and each call fails in turn.
fn say_whole(alloc: Global, file: File<'_>, made: Made, log: &NumberedLog, answer: &mut Answer) {
    match first_wrong(alloc, file, &made, log) {
        Some(number) => say_otherwise(number, answer),
        None => say_kept_whole(alloc, &made, log, answer),
    }
}

/// Says what was made, and how many bytes each block has that was kept.
fn say_kept_whole(alloc: Global, made: &Made, log: &NumberedLog, answer: &mut Answer) {
    say_made(alloc, *made, answer);
    match log.lengths() {
        Ok(lengths) => say_numbers(lengths.as_slice(), answer),
        Err(_) => answer.lack(),
    }
}

/// The first step by which something else is made, or the first call that doesn't end it where it fails.
fn first_wrong(alloc: Global, file: File<'_>, made: &Made, log: &NumberedLog) -> Option<u64> {
    for step in STEPS {
        if !is_same(alloc, file, *step, made, log) {
            return Some(*step as u64);
        }
    }
    for number in 0..log.kept().len() {
        if !is_ended(alloc, file, number, log) {
            return Some(number as u64);
        }
    }
    None
}

/// Whether the same is made of a file where at most `step` bytes are fed at once, and the same kept.
fn is_same(alloc: Global, file: File<'_>, step: usize, made: &Made, log: &NumberedLog) -> bool {
    let mut again = log_of(alloc, None);
    file.made(alloc, step, &mut again) == Ok(*made)
        && again.faults() == 0
        && again.kept().len() == log.kept().len()
        && has_first(log, &again)
}

/// Whether the keeper's fault is given where the call with this number fails, and what was kept before it stays.
fn is_ended(alloc: Global, file: File<'_>, number: usize, log: &NumberedLog) -> bool {
    let mut failing = log_of(alloc, Some(number as u64));
    file.made(alloc, 1, &mut failing) == Err(ImportFault::Keep(KeepFault::Failed))
        && failing.kept().len() == number
        && failing.faults() == 1
        && has_first(log, &failing)
}

/// Whether a log has at its front what was kept in a log.
fn has_first(log: &NumberedLog, front: &NumberedLog) -> bool {
    for (one, other) in log.kept().iter().zip(front.kept()) {
        if one.cid != other.cid || one.block != other.block {
            return false;
        }
    }
    front.kept().len() <= log.kept().len()
}

/// `blocks NAME BYTES SIZE WIDTH STEP`: the CID and the block of all that is kept, where so many bytes are fed at once.
pub fn answer_blocks(alloc: Global, given: &[Bytes], answer: &mut Answer) {
    let [_, bytes, size, width, step] = given else {
        return answer.text("a name, bytes, a chunk size, a width and a step");
    };
    let file = File::of(bytes, size, width);
    let mut log = log_of(alloc, None);
    match file.made(alloc, number_up_to(step, 1_000_000) as usize, &mut log) {
        Ok(_) => say_log(alloc, &log, answer),
        Err(fault) => answer.shown_as(&fault),
    }
}

/// Says the CID and the block of all that was kept.
fn say_log(alloc: Global, log: &NumberedLog, answer: &mut Answer) {
    for kept in log.kept() {
        say_cid(alloc, kept.cid, answer);
        answer.bytes(kept.block.as_slice());
    }
}

/// `leaf NAME CHUNK`: whether the leaf of this chunk is kept by a keeper whose first call fails, what is made of the file
/// then, how many blocks were kept, and how many calls failed.
pub fn answer_leaf(alloc: Global, given: &[Bytes], answer: &mut Answer) {
    let chunk = bytes_at(given, 1);
    let mut log = log_of(alloc, Some(0));
    let mut file = Balanced::new(alloc, 2);
    if chunk.len() > 1_000 {
        return answer.text("a long chunk");
    }
    say_kept(file.leaf(chunk, &mut log), answer);
    match file.finish(&mut log) {
        Ok(made) => say_made(alloc, made, answer),
        Err(fault) => say_keep_fault(fault, answer),
    }
    answer.number(log.kept().len() as u64);
    answer.number(log.faults());
}

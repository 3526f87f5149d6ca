//! What is said of CIDs, of what was made, and of faults.
use std::alloc::Global;
use tg_cid::Cid;
use tg_faults::Failed;
use tg_model::{BlocksFault, KeepFault, Made};
use tg_rows::Answer;
use tg_store::PackFault;

/// Says a CID: the text of a CIDv1, and the bytes of a CIDv0.
pub fn say_cid(alloc: Global, cid: Cid, answer: &mut Answer) {
    let spelled = if cid.version() == 1 {
        cid.to_text(alloc)
    } else {
        cid.to_bytes(alloc)
    };
    match spelled {
        Ok(text) => answer.bytes(text.as_slice()),
        Err(_) => answer.lack(),
    }
}

/// Says the CID, the content and the Tsize of what was made.
pub fn say_made(alloc: Global, made: Made, answer: &mut Answer) {
    say_cid(alloc, made.cid, answer);
    answer.number(made.content);
    answer.number(made.tsize);
}

/// Says why a pack is refused, and where.
pub fn say_pack_fault(fault: PackFault, answer: &mut Answer) {
    match fault {
        PackFault::NotCar { at } => say_at("NotCar", at, answer),
        PackFault::BadDigest { at } => say_at("BadDigest", at, answer),
        PackFault::Truncated { at } => say_at("Truncated", at, answer),
        PackFault::BlockLimit { at } => say_at("BlockLimit", at, answer),
        PackFault::Unfinished => answer.text("Unfinished"),
        PackFault::Failed => answer.text("Failed"),
        PackFault::OutOfMemory => answer.lack(),
    }
}

/// Says a fault by its name and its number.
pub fn say_at(name: &str, at: u64, answer: &mut Answer) {
    answer.text(name);
    answer.number(at);
}

/// Says why a look-up gives nothing.
pub fn say_blocks_fault(fault: BlocksFault, answer: &mut Answer) {
    match fault {
        BlocksFault::Changed { want, got } => {
            answer.text("Changed");
            answer.bytes(&want);
            answer.bytes(&got);
        }
        BlocksFault::Failed => answer.text("Failed"),
        BlocksFault::OutOfMemory => answer.lack(),
    }
}

/// Says whether a block was kept.
pub fn say_kept(kept: Result<(), KeepFault>, answer: &mut Answer) {
    match kept {
        Ok(()) => answer.text("kept"),
        Err(fault) => say_keep_fault(fault, answer),
    }
}

/// Says why a block isn't kept.
pub fn say_keep_fault(fault: KeepFault, answer: &mut Answer) {
    match fault {
        KeepFault::Failed => answer.text("Failed"),
        KeepFault::OutOfMemory => answer.lack(),
    }
}

/// Says how many calls failed, where one did.
pub fn say_count(count: u64, answer: &mut Answer) {
    if count > 0 {
        say_at("failed", count, answer);
    }
}

/// Says that it goes otherwise at this number.
pub fn say_otherwise(number: u64, answer: &mut Answer) {
    say_at("otherwise", number, answer);
}

/// Says whether a call did what it does.
pub fn say_done(done: Result<(), Failed>, answer: &mut Answer) {
    match done {
        Ok(()) => answer.text("done"),
        Err(Failed) => answer.text("Failed"),
    }
}

//! How a client ends.
use std::alloc::Global;
use tg_cid::Cid;
use tg_fetch::FetchFault;
use tg_rows::Answer;
use tg_verify::Refusal;

/// Says how a client ends: with the answer, or with a fault as it is printed and with the CIDs that it names.
pub fn say_end(alloc: Global, end: Result<(), FetchFault>, answer: &mut Answer) {
    match end {
        Ok(()) => answer.text("answer"),
        // whichever fault of a CAR it is
        Err(FetchFault::BadCar(_)) => answer.text("BadCar"),
        Err(fault) => {
            answer.shown_as(&fault);
            if let FetchFault::Refused(refusal) = fault {
                say_cids(alloc, refusal, answer);
            }
        }
    }
}

/// Says the CIDs that a refusal names: the one that is wanted, or that came, or both.
fn say_cids(alloc: Global, refusal: Refusal, answer: &mut Answer) {
    match refusal {
        Refusal::WrongBlock { want, got } => {
            say_cid(alloc, want, answer);
            say_cid(alloc, got, answer);
        }
        Refusal::Truncated { want, .. } => say_cid(alloc, want, answer),
        Refusal::BadDigest { cid } | Refusal::BadBlock { cid, .. } => say_cid(alloc, cid, answer),
        _ => {}
    }
}

/// Says the text of a CID.
pub fn say_cid(alloc: Global, cid: Cid, answer: &mut Answer) {
    match cid.to_text(alloc) {
        Ok(text) => answer.bytes(text.as_slice()),
        Err(_) => answer.lack(),
    }
}

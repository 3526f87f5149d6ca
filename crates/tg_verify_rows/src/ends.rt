//! How a verifier ends, and what it puts.
use crate::dags::Dag;
use sha2::{Digest, Sha256};
use tg_cid::Cid;
use tg_model::BlockFault;
use tg_rows::Answer;
use tg_verify::Refusal;

/// The CID that is wanted at the end, or none where all came; or why a section was refused.
pub type VerifyEnd = Result<Option<Cid>, Refusal>;

/// Says how a verifier ends: `done`, or the number of the block that is wanted, or a refusal.
pub fn say_end(dag: &Dag, end: VerifyEnd, answer: &mut Answer) {
    match end {
        Ok(None) => answer.text("done"),
        Ok(Some(want)) => {
            answer.text("wants");
            say_number(dag, want, answer);
        }
        Err(refusal) => say_refusal(dag, refusal, answer),
    }
}

/// Says a refusal as it is printed, and the numbers of the blocks under the CIDs that it names: the one that is wanted, or
/// that came, or both; and why a block can't stand there.
pub fn say_refusal(dag: &Dag, refusal: Refusal, answer: &mut Answer) {
    answer.shown_as(&refusal);
    match refusal {
        Refusal::WrongBlock { want, got } => {
            say_number(dag, want, answer);
            say_number(dag, got, answer);
        }
        Refusal::Truncated { want, .. } => say_number(dag, want, answer),
        Refusal::BadDigest { cid } => say_number(dag, cid, answer),
        Refusal::BadBlock { cid, fault } => {
            say_number(dag, cid, answer);
            say_fault(fault, answer);
        }
        _ => {}
    }
}

/// Says why a block can't stand there, and the slot of an entry.
fn say_fault(fault: BlockFault, answer: &mut Answer) {
    answer.shown_as(&fault);
    if let BlockFault::Misplaced { at } = fault {
        answer.number(at);
    }
}

/// Says the number of the first block of the DAG under this CID.
pub fn say_number(dag: &Dag, cid: Cid, answer: &mut Answer) {
    let mut number: u64 = 0;
    for block in dag.blocks.as_slice() {
        if block.cid == cid {
            return answer.number(number);
        }
        number = number.saturating_add(1);
    }
    answer.text("no block");
}

/// How many bytes of a text are said.
const MOST_SAID: usize = 5_000;

/// Says what is put; of a long text how many bytes it has, and the digits of its SHA2-256.
pub fn say_put(put: &[u8], answer: &mut Answer) {
    if put.len() <= MOST_SAID {
        return answer.bytes(put);
    }
    answer.number(put.len() as u64);
    let mut digits = [0; 64];
    for (at, byte) in Sha256::digest(put).iter().enumerate() {
        write_digits(&mut digits, at.saturating_mul(2), *byte);
    }
    answer.bytes(&digits);
}

/// The hexadecimal digits.
const DIGITS: &[u8; 16] = b"0123456789abcdef";

/// Writes the two digits of a byte at this place.
fn write_digits(digits: &mut [u8], at: usize, byte: u8) {
    if let Some(high) = digits.get_mut(at) {
        *high = DIGITS[usize::from(byte >> 4)];
    }
    if let Some(low) = digits.get_mut(at.saturating_add(1)) {
        *low = DIGITS[usize::from(byte & 15)];
    }
}

//! Sizes of CARs.
use crate::evaluation::Sent;

/// How many bytes a CAR with one root, whose CIDv1 has 36 bytes, and these sections has; it stands still at 2^64 - 1.
///
/// CARv1 specification.
pub fn car_size(sent: &[Sent]) -> u64 {
    let mut size: u64 = 59;
    for section in sent {
        let (_, name) = section.cid.spelling();
        let body = section.size.saturating_add(name as u64);
        size = size.saturating_add(varint_size(body)).saturating_add(body);
    }
    size
}

/// How many bytes spell a number as a varint: one for each seven bits, and one for zero.
fn varint_size(number: u64) -> u64 {
    let bits = u64::BITS.saturating_sub(number.leading_zeros());
    u64::from(bits.div_ceil(7).max(1))
}

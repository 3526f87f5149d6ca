//! The room that a CID keeps its digest in, and that its bytes are written in.
ghost use Rattle.std.specs.Prelude.{◌≡◌, ◌+◌, ◌-◌, ◌<◌, ◌≤◌, ◌++◌, length, take, drop, replicate, All};
ghost use Rattle.tg_cid.specs.Limits.{max_cid_len, max_digest_len};

use crate::limits::{MAX_CID_LEN, MAX_DIGEST_LEN};
use tg_bytes::fill_front;

/// The digest in the front of a room whose other bytes are zero.
pub fn in_room(digest: &[u8]) -> [u8; MAX_DIGEST_LEN]
    requires { length digest.now ≤ max_digest_len }
    ensures { result ≡ digest.now ++ replicate (128 - length digest.now) 0 }
{
    let mut room = [0; MAX_DIGEST_LEN];
    fill_front(&mut room, digest);
    room
}

/// The codes, the digest's length and the digest of a CID in the front of an array whose other bytes are zero, and how
/// many bytes they are.
pub fn in_longest(codes: &[u8], size: &[u8], digest: &[u8]) -> ([u8; MAX_CID_LEN], usize)
    requires { length codes.now + length size.now + length digest.now ≤ max_cid_len }
    ensures fits { result.1 ≤ max_cid_len }
    ensures front { take result.1 result.0 ≡ codes.now ++ (size.now ++ digest.now) }
    ensures rest { drop result.1 result.0 ≡ replicate (133 - result.1) 0 }
    ensures are_bytes { All (λ b. b < 256) digest.now }
{
    let mut room = [0; MAX_CID_LEN];
    fill_parts(&mut room, codes, size, digest);
    (room, codes.len() + size.len() + digest.len())
}

/// Copies the three into the front of the room, one behind another.
fn fill_parts(room: &mut [u8], codes: &[u8], size: &[u8], digest: &[u8])
    requires { length codes.now + length size.now + length digest.now ≤ length room.old }
    ensures { room.new
        ≡ codes.now ++ (size.now ++ (digest.now
        ++ drop (length digest.now) (drop (length size.now) (drop (length codes.now) room.old)))) }
{
    let (front, rest) = room.split_at_mut(codes.len());
    front.copy_from_slice(codes);
    let (front, rest) = rest.split_at_mut(size.len());
    front.copy_from_slice(size);
    fill_front(rest, digest);
}

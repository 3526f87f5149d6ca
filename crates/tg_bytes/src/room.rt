//! Room for bytes: made to be read into, and filled from the front.
ghost use Rattle.std.specs.Prelude.{◌≡◌, ◌+◌, ◌≤◌, ◌++◌, length, drop, replicate, IfOk};

use std::alloc::{AllocError, Global};

/// So many zero bytes, as room to read into. The error is want of memory.
pub fn zeros(alloc: Global, size: usize) -> Result<Vec<u8>, AllocError>
    ensures size { IfOk result (λ room. length room.items ≡ size) }
    ensures zeros { IfOk result (λ room. room.items ≡ replicate size 0) }
{
    vec![in alloc; 0u8; size]
}

/// Copies the bytes into the front of the room, and leaves what is behind them.
pub fn fill_front(room: &mut [u8], bytes: &[u8])
    requires { length bytes.now ≤ length room.old }
    ensures { room.new ≡ bytes.now ++ drop (length bytes.now) room.old }
{
    room[..bytes.len()].copy_from_slice(bytes);
}

/// Copies the one bytes and then the others into the front of the room, and leaves what is behind them.
pub fn fill_both(room: &mut [u8], first: &[u8], second: &[u8])
    requires { length first.now + length second.now ≤ length room.old }
    ensures { room.new ≡ first.now ++ (second.now ++ drop (length first.now + length second.now) room.old) }
{
    let (head, rest) = room.split_at_mut(first.len());
    head.copy_from_slice(first);
    fill_front(rest, second);
}

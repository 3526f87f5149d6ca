//! The bytes of a section's length and CID that came.
ghost use Rattle.std.specs.Prelude.{◌≡◌, ◌<◌, List, [], ◌∷◌, ◌++◌, length};

use crate::section::MAX_HEAD_LEN;
use arrayvec::ArrayVec;
use std::marker::Model;

/// At most 142 bytes, which contracts see as their list.
#[derive(Drop)]
pub(crate) struct Room {
    bytes: ArrayVec<u8, MAX_HEAD_LEN>,
}

impl Model for Room {
    ghost use Rattle.std.specs.Prelude.{ℕ, List};

    ghost Value = { List ℕ };

    ghost view = { λ room. room.bytes.items };
}

impl Room {
    /// No bytes.
    pub(crate) fn new() -> Room
        ensures { result ≡ [] }
    {
        Room {
            bytes: ArrayVec::new(),
        }
    }

    /// Adds a byte at the end.
    pub(crate) fn push(&mut self, byte: u8)
        requires { length self.old < 142 }
        ensures { self.new ≡ self.old ++ byte ∷ [] }
    {
        self.bytes.push(byte);
    }

    /// Forgets the bytes.
    pub(crate) fn clear(&mut self)
        ensures { self.new ≡ [] }
    {
        self.bytes.clear();
    }

    /// The bytes in order.
    pub(crate) fn as_slice(&self) -> &[u8]
        ensures { result.now ≡ self.now }
    {
        self.bytes.as_slice()
    }
}

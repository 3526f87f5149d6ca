//! Blocks that several hold.
ghost use Rattle.std.specs.Prelude.{◌≡◌, IfOk};

use std::alloc::{AllocError, Global};
use std::marker::Model;
use std::rc::Rc;
use tg_bytes::Bytes;

/// A block that never changes, and of which whoever holds it has the same bytes, so that they stand once in memory.
/// Contracts see the bytes.
#[derive(Drop)]
pub struct SharedBlock {
    block: Rc<Bytes>,
}

impl Model for SharedBlock {
    ghost use Rattle.std.specs.Prelude.{ℕ, List};

    ghost Value = { List ℕ };

    ghost view = { λ s. s.block.value };
}

impl SharedBlock {
    /// The block, moved and not copied. The error is want of memory.
    pub fn new(alloc: Global, block: Bytes) -> Result<SharedBlock, AllocError>
        ensures { IfOk result (λ shared. shared ≡ block) }
    {
        match Rc::new(alloc, block) {
            Ok(block) => Ok(SharedBlock { block }),
            Err(_) => Err(AllocError),
        }
    }

    /// A copy of the bytes. The error is want of memory.
    pub fn of(alloc: Global, bytes: &[u8]) -> Result<SharedBlock, AllocError>
        ensures { IfOk result (λ shared. shared ≡ bytes.now) }
    {
        SharedBlock::new(alloc, Bytes::of(alloc, bytes)?)
    }

    /// The bytes in order.
    pub fn as_slice(&self) -> &[u8]
        ensures { result.now ≡ self.now }
    {
        self.block.as_ref().as_slice()
    }
}

impl Clone for SharedBlock {
    ghost use Rattle.std.specs.Prelude.{◌≡◌};

    ghost is_clone = { λ shared copy. copy ≡ shared };

    /// One more holder of the same bytes, which takes no memory. The error comes where there are as many as can be
    /// counted.
    fn clone(&self) -> Result<SharedBlock, AllocError> {
        Ok(SharedBlock {
            block: self.block.clone()?,
        })
    }
}

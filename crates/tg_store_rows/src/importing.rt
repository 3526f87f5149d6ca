//! A whole file, fed to a chunker in pieces and linked.
use std::alloc::{AllocError, Global};
use tg_filedag::{Balanced, Chunker};
use tg_model::{Keep, KeepFault, Made};
use thiserror::Error;

/// Why a file wasn't made.
#[derive(Clone, Copy, Debug, PartialEq, Eq, Error)]
pub enum ImportFault {
    /// There are more than 1,048,576 bytes, none is fed at once, a chunk has no byte or more than 2,097,152, or a node
    /// has fewer than 2 links or more than 4,096.
    #[error("OutOfRange")]
    OutOfRange,
    /// No memory was found for the chunks.
    #[error("OutOfMemory")]
    OutOfMemory,
    /// The keeper failed.
    #[error("Keep {0}")]
    Keep(KeepFault),
}

impl From<AllocError> for ImportFault {
    fn from(_: AllocError) -> Self {
        ImportFault::OutOfMemory
    }
}

impl From<KeepFault> for ImportFault {
    fn from(fault: KeepFault) -> Self {
        ImportFault::Keep(fault)
    }
}

/// The file with these bytes, of which at most `step` are fed at once, in chunks of `size` bytes and nodes of at most
/// `width` links.
pub fn import<K: Keep>(
    alloc: Global,
    bytes: &[u8],
    step: usize,
    size: u32,
    width: u32,
    keep: &mut K,
) -> Result<Made, ImportFault> {
    if bytes.len() > 1_048_576 || step == 0 || size == 0 || size > 2_097_152 {
        return Err(ImportFault::OutOfRange);
    }
    if width < 2 || width > 4_096 {
        return Err(ImportFault::OutOfRange);
    }
    let mut chunker = Chunker::new(alloc, size)?;
    let mut file = Balanced::new(alloc, width);
    let mut rest = bytes;
    while !rest.is_empty() {
        let (taken, full) = chunker.feed(&rest[..rest.len().min(step)]);
        rest = &rest[taken..];
        if full {
            file.leaf(chunker.chunk(), keep)?;
            chunker.clear();
        }
    }
    if !chunker.chunk().is_empty() {
        file.leaf(chunker.chunk(), keep)?;
    }
    Ok(file.finish(keep)?)
}

//! What follows from the definitions, for the proofs of those who call this crate.
ghost use Rattle.tg_filedag.specs.Chunks.{FullAreChunks, KeepsBytes, LastIsChunk};
ghost use Rattle.tg_filedag.specs.State.{KeptInOrder};

/// Over any calls of a chunker, the chunks that it was cleared of, with the one at hand behind them, are the bytes that
/// it took. It does nothing.
pub fn kept_bytes()
    ensures { KeepsBytes }
{}

/// Chunks that all have one size, a byte at least, are chunks of that size, and so are they with a last one behind them
/// that has a byte and at most that size. It does nothing.
pub fn cut_chunks()
    ensures full { FullAreChunks }
    ensures last { LastIsChunk }
{}

/// The blocks of a file stand behind those to which they link, as they are kept, also those that were kept before a
/// fault. It does nothing.
///
/// UnixFS specification, File.
pub fn kept_in_order()
    ensures { KeptInOrder }
{
    tg_model::laws::readings();
}

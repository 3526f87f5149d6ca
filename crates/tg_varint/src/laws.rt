//! The laws of the spelling of varints, for proofs.
ghost use Rattle.tg_varint.specs.Laws.{SpellingLaws};

/// A number has one spelling, no spelling begins another, and of bytes exactly one holds: a spelling stands at their
/// front, they end inside one, nine of them go on, or their spelling isn't the shortest.
///
/// Multiformats, unsigned-varint.
pub fn spelling_laws()
    ensures { SpellingLaws }
{}

//! The laws of the base 32 of bytes, for proofs.
ghost use Rattle.tg_base32.specs.Laws.{TextLaws};

/// A text spells one list of bytes, and bytes have one text, which `base32` computes: `decode` and `encode` are
/// inverse.
///
/// RFC 4648, section 6, in lower case and without padding.
pub fn text_laws()
    ensures { TextLaws }
{}

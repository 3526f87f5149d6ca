//! The laws of the texts of CARs and of what a reader gives of them, for proofs.
ghost use Rattle.std.specs.Prelude.{[]};
ghost use Rattle.tg_car.specs.Laws.{CarLaws};
ghost use Rattle.tg_car.specs.Heads.{IsInHead};
ghost use Rattle.tg_car.specs.TextLaws.{TextLaws};

/// A list of roots has one header and a section has one text, none begins another, and what a reader gives and refuses
/// is determined by the bytes, however they are cut.
///
/// CARv1 specification, Header and Data.
pub fn car_laws()
    ensures { CarLaws }
{
    text_laws();
}

/// The laws of the varints and of the CIDs of which a CAR's text is made.
pub(crate) fn text_laws()
    ensures { TextLaws }
{
    tg_varint::laws::spelling_laws();
    tg_cid::laws::one_spelling();
    tg_cid::laws::length_laws();
}

/// Nothing is a front of a section's length and CID.
pub(crate) fn nothing_in_head()
    ensures { IsInHead [] }
{
    text_laws();
}

//! What follows from the definitions, for the proofs of those who call this crate.
ghost use Rattle.tg_pbtable.specs.Laws.{PlaceLaws, TableLaws};

pub use crate::computed::computes;

/// A text has one list of fields, or one fault; fields have one text; and the values of each number are those of the
/// fields, one behind another. It does nothing: a caller's proof takes the laws from it.
pub fn table_laws()
    ensures { TableLaws }
{}

/// The bytes at a place of a part of a text are those of the whole text at that place, counted from the text's first
/// byte instead of the part's. It does nothing: a caller's proof takes the law from it.
pub fn place_laws()
    ensures { PlaceLaws }
{}

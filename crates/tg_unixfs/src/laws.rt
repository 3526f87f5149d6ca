//! The laws of UnixFS texts, each the contract of a function that does nothing.
ghost use Rattle.std.specs.Prelude.{◌≡◌, ℕ, List as Items};
ghost use Rattle.tg_unixfs.specs.Unix.{UnixText, CanonicalText};
ghost use Rattle.tg_unixfs.specs.declared.Unix.{Unix};

pub use crate::computed::computes;

/// Data has one canonical text.
pub fn one_text()
    ensures { (unix : Unix) (s t : Items ℕ) → CanonicalText unix s → CanonicalText unix t → s ≡ t }
{
    tg_pbtable::laws::table_laws();
}

/// A text is of one data.
pub fn one_data()
    ensures { (a b : Unix) (text : Items ℕ) → UnixText a text → UnixText b text → a ≡ b }
{
    tg_pbtable::laws::table_laws();
}

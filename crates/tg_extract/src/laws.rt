//! What was made of a text, as laws, each the contract of a function that does nothing.
ghost use Rattle.tg_extract.specs.Laws.{FileIsMade, FrontIsMade, WholeIsMade};

/// What is made of a bundle's text is what the bundle says: of a whole bundle just its records, in order, and of a front of one the first of
/// them, of the last of which there may be a file's first bytes alone. Of any other text it is one file.
///
/// Bundles are this project's own.
pub fn made_records()
    ensures whole { WholeIsMade }
    ensures front { FrontIsMade }
    ensures file { FileIsMade }
{
    tg_bundles::decoded();
    tg_bundles::read_back();
}

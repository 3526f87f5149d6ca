//! The parts of a file, each asked for by its range of bytes. Each law is the contract of a function that does nothing.
#![tactic(auto)]

ghost use Rattle.tg_parts.specs.PartLaws.{AcceptedStay, AllSlicesJoin, OpenedAreBlocks, OwnAreBlocks, PartIsSlice, PartsAreContent, RootIsRead, RootsStay, SlicesJoin, TotalIsTold, TotalsStay};

/// The slices of the first parts of bytes, one behind another, are a front of them, and those of all parts all of them.
///
/// Trustless Gateway specification, entity-bytes.
pub fn slices_join()
    ensures front { SlicesJoin }
    ensures all { AllSlicesJoin }
{}

/// The answer to the query for a part of a sound file is its slice.
///
/// Trustless Gateway specification, entity-bytes.
pub fn file_parts()
    ensures { PartIsSlice }
{}

/// The block that was accepted for a root's is the root's of each sound DAG, read as its kind, and the number of bytes that it
/// declares is the file's; or a received block and one of the DAG are different bytes with one SHA-256.
///
/// UnixFS specification, File.
pub fn accepted_roots()
    ensures read { RootIsRead }
    ensures total { TotalIsTold }
    ensures block_stays { RootsStay }
    ensures total_stays { TotalsStay }
{
    tg_model::laws::readings();
    tg_model_laws::file_sizes();
}

/// Parts that were accepted, each in some connection, are one behind another a front of the content of each sound DAG of the
/// root, and all of it once all parts are; or a received block and one of the DAG are different bytes with one SHA-256.
///
/// Trustless Gateway specification, entity-bytes.
pub fn accepted_parts()
    ensures content { PartsAreContent }
    ensures stay { AcceptedStay }
{
    slices_join();
    file_parts();
    accepted_roots();
}

/// The sections that a sound DAG's own traversal opens are blocks of it, and so are those that it sends.
///
/// UnixFS specification; Trustless Gateway specification, CAR responses.
pub fn own_blocks()
    ensures opened { OpenedAreBlocks }
    ensures sent { OwnAreBlocks }
{}

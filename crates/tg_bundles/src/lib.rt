//! The records of bundles, and how a bundle is read back, as laws. Each is the contract of a function that does nothing.
#![tactic(auto)]

ghost use Rattle.tg_bundles.specs.Laws.{AnswersHaveRecords, BundlesHaveRecords, RecordsAreTree};
ghost use Rattle.tg_bundles.specs.Reading.{BundlesDiffer, FrontsAreFiles, FrontsAreLinks, FrontsAreRecords, PathsDiffer};
ghost use Rattle.tg_bundles.specs.Reading.{EscapedDiffer, EscapedIsPlain, RecordsAreProper, RecordsHaveNames};

/// The bundle of a sound DAG is the text of its records.
///
/// UnixFS specification, Directory and HAMTDirectory; Trustless Gateway specification, dag-scope.
pub fn bundle_records()
    ensures at { BundlesHaveRecords }
    ensures answer { AnswersHaveRecords }
{
    tg_model_laws::file_sizes();
}

/// The records of a DAG are just the folders, the files and the symbolic links of the tree of files that it shows.
///
/// UnixFS specification, File, Directory, HAMTDirectory and Symlink.
pub fn shown_records()
    ensures { RecordsAreTree }
{}

/// What a percent-decoder needs: different names are escaped as different texts, which have neither `/` nor a line feed.
///
/// RFC 3986, sections 2.1 and 2.3.
pub fn decoded()
    ensures names { EscapedDiffer }
    ensures plain { EscapedIsPlain }
{}

/// A bundle is read back in one way, and so is each front of it, whether that ends at a record's end, within a first line, within the
/// bytes of a file, or behind a symbolic link's first line: of records that are proper, whose sizes have at most 64 digits.
///
/// Bundles are this project's own.
pub fn read_back()
    ensures paths { PathsDiffer }
    ensures lines { FrontsAreRecords }
    ensures contents { FrontsAreFiles }
    ensures links { FrontsAreLinks }
    ensures whole { BundlesDiffer }
{}

/// No name in the records of a sound DAG is empty, and they are proper where the length of each block has at most 64 digits.
///
/// UnixFS specification, Directory and HAMTDirectory.
pub fn proper_records()
    ensures names { RecordsHaveNames }
    ensures proper { RecordsAreProper }
{
    tg_model_laws::file_sizes();
}

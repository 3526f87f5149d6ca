//! Laws of the walk along a path.
ghost use Rattle.tg_model_laws.specs.PathStages.{ResolveLaws};

/// The walk along a query's path over what a store shows: each of its ends is the path walk's, and its terminal is
/// stored, and isn't read. A path of at most 128 segments passes at most 1,025 blocks.
///
/// Path Gateway specification, Path Resolution; UnixFS specification, HAMTDirectory.
pub fn resolved_paths()
    ensures { ResolveLaws }
{
    crate::placed_shards();
}

//! What commands say together, as a law, which is the contract of a function that does nothing.
ghost use Rattle.tg_app.specs.RoundTrips.{ComesBack, FrontComesBack};

/// The tree of files that an import read is the one that `fetch` or `verify` with `--into` makes of its root, and a front of what they make stands
/// in that tree, whoever sent the blocks.
///
/// UnixFS specification, File, Directory and HAMTDirectory.
pub fn round_trip()
    ensures whole { ComesBack }
    ensures front { FrontComesBack }
{}

//! Laws of the sizes of files.
ghost use Rattle.tg_model_laws.specs.FileSizes.{TotalIsLength};

/// The content of a sound file has as many bytes as its root declares.
///
/// UnixFS specification, File.
pub fn file_sizes()
    ensures { TotalIsLength }
{}

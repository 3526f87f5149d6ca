//! The bytes of ASCII that the texts and paths of this work have in common, once, with their names.
ghost use Rattle.std.specs.Prelude.{◌≡◌};
ghost use Rattle.tg_bytes.specs.Ascii.{line_feed, slash, space};

/// The byte that ends a line.
///
/// RFC 20, LF.
pub const LINE_FEED: u8 = b'\n';

/// The byte between the names of a path.
///
/// RFC 20, `/`.
pub const SLASH: u8 = b'/';

/// The byte between the words of a line.
///
/// RFC 20, SP.
pub const SPACE: u8 = b' ';

/// The constants are the bytes that the definitions name.
pub fn named_bytes() -> (u8, u8, u8)
    ensures { result ≡ (line_feed, slash, space) }
{
    (LINE_FEED, SLASH, SPACE)
}

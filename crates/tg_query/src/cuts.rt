//! Texts that are cut at a byte.
ghost use Rattle.std.specs.Prelude.{◌≡◌, option_copied};
ghost use Rattle.tg_query.specs.Cuts.{cut_first};

/// What stands before the first place of a byte, and what stands behind it where there is one.
pub fn cut_first(text: &[u8], byte: u8) -> (&[u8], Option<&[u8]>)
    ensures { (result.0.now, option_copied result.1) ≡ cut_first byte text.now }
{
    match text.iter().position(|b| *b == byte) {
        Some(at) => (&text[..at], Some(&text[at + 1..])),
        None => (text, None),
    }
}

//! The texts of listings and bundles.
use std::alloc::{AllocError, Global};

/// The name with each byte but ASCII letters, ASCII digits, `-`, `.`, `_` and `~` as `%` and two upper-case hexadecimal
/// digits.
pub fn escaped(alloc: Global, name: &[u8]) -> Result<String, AllocError> {
    let mut text = String::new(alloc);
    for byte in name {
        push_escaped(alloc, &mut text, *byte)?;
    }
    Ok(text)
}

/// Adds a byte of a name in this form.
fn push_escaped(alloc: Global, text: &mut String, byte: u8) -> Result<(), AllocError> {
    match byte {
        b'A'..=b'Z' | b'a'..=b'z' | b'0'..=b'9' | b'-' | b'.' | b'_' | b'~' => {
            text.push(char::from(byte))
        }
        other => text.push_str(format!(in alloc; "%{other:02X}")?.as_str()),
    }
}

/// The path of an entry with this name of the directory at a path.
pub fn joined(alloc: Global, path: &str, name: &[u8]) -> Result<String, AllocError> {
    let folder = if path == "/" { "" } else { path };
    let name = escaped(alloc, name)?;
    format!(in alloc; "{folder}/{name}")
}

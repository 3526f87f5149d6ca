//! Names in percent-encoding, as texts and targets show them.
#![tactic(auto)]

ghost use Rattle.std.specs.Prelude.{◌≡◌, ◌++◌, OnErr, OnOk};
ghost use Rattle.tg_model.specs.Texts.{escaped};

use percent_encoding::{AsciiSet, NON_ALPHANUMERIC, ascii_set, percent_encode};
use std::alloc::{AllocError, Global};
use tg_bytes::Bytes;

/// The bytes of ASCII that are escaped: all but the unreserved characters of RFC 3986, section 2.3. Bytes outside of
/// ASCII are escaped besides.
const ESCAPED: AsciiSet = ascii_set!(
    NON_ALPHANUMERIC
        .remove(b'-')
        .remove(b'.')
        .remove(b'_')
        .remove(b'~')
);

/// Adds the escaped name at the end of a text. The error is want of memory, with which the text stays as it was.
///
/// RFC 3986, section 2.1.
pub fn push_escaped(text: &mut Bytes, alloc: Global, name: &[u8]) -> Result<(), AllocError>
    ensures ok { OnOk result (text.new ≡ text.old ++ escaped name.now) }
    ensures err { OnErr result (text.new ≡ text.old) }
{
    let mut shown = String::new(alloc);
    percent_encode(name, ESCAPED).append_to(&mut shown)?;
    text.push_all(shown.as_bytes())?;
    Ok(())
}

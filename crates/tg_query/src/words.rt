//! Words of the command line that name a place below a root.
ghost use Rattle.std.specs.Prelude.{◌≡◌, codes, option_copied};
ghost use Rattle.tg_cid.specs.Cid.{CidParts};
ghost use Rattle.tg_query.specs.Answers.{Gives};
ghost use Rattle.tg_query.specs.CidAnswers.{root_of};
ghost use Rattle.tg_query.specs.Cuts.{behind_front};
ghost use Rattle.tg_query.specs.WordTexts.{ipfs, rooted_of, word_of};

use crate::cuts::cut_first;
use crate::fault::QueryFault;
use crate::paths::parse_behind;
use std::alloc::Global;
use tg_bytes::SLASH;
use tg_cid::Cid;
use tg_model::Path;

/// The root and the path of a word ROOT/PATH, with or without `/ipfs/` before it. `?` and `#` are bytes like others.
///
/// Path Gateway specification. Errors: `BadCid` where ROOT is no CID, then `BadPath`, and `OutOfMemory`.
pub fn parse_word(alloc: Global, word: &[u8]) -> Result<(Cid, Path), QueryFault>
    ensures { Gives (word_of word.now) result }
{
    match behind_front(word) {
        Some(text) => parse_rooted(alloc, text),
        None => parse_rooted(alloc, word),
    }
}

/// The root and the path of a text ROOT or ROOT/PATH.
///
/// Path Gateway specification. Errors: `BadCid` where ROOT is no CID, then `BadPath`, and `OutOfMemory`.
pub fn parse_rooted(alloc: Global, text: &[u8]) -> Result<(Cid, Path), QueryFault>
    ensures { Gives (rooted_of text.now) result }
{
    let (root, rest) = cut_first(text, SLASH);
    let root = root_of(alloc, root)?;
    let path = parse_behind(alloc, rest)?;
    Ok((root, path))
}

/// What stands behind the front `/ipfs/`, where the text begins with it.
///
/// Path Gateway specification.
pub fn behind_front(text: &[u8]) -> Option<&[u8]>
    ensures { option_copied result ≡ behind_front ipfs text.now }
{
    text.strip_prefix(b"/ipfs/".as_slice())
}

/// The CID that a text spells.
fn root_of(alloc: Global, text: &[u8]) -> Result<Cid, QueryFault>
    ensures { Gives (root_of text.now) result }
{
    tg_varint::laws::spelling_laws();
    tg_base32::laws::text_laws();
    Ok(Cid::from_text(alloc, text)?)
}

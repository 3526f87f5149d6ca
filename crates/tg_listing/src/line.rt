//! The line of an entry in a listing.
ghost use Rattle.std.specs.Prelude.{◌≡◌, ◌++◌, IfOk, OnOk, length};
ghost use Rattle.tg_listing.specs.Listings.{line_of, named_entry};
ghost use Rattle.tg_model.specs.Texts.{listing_line};

use std::alloc::{AllocError, Global};
use tg_bytes::Bytes;
use tg_escape::push_escaped;
use tg_model::Entry;

/// The line of an entry in a listing, with the name that orders it.
#[derive(Drop)]
pub struct ListingLine {
    pub(crate) name: Bytes,
    pub(crate) text: Bytes,
}

impl ListingLine {
    /// The line of an entry: the CID's text in version 1, a space, the name in percent-encoding, and a line feed.
    ///
    /// This project's own text. The error is want of memory.
    pub fn of(alloc: Global, entry: Entry) -> Result<ListingLine, AllocError>
        ensures { IfOk result (λ line. line ≡ line_of (named_entry entry)) }
    {
        let mut text = Bytes::new(alloc);
        push_line(alloc, &entry, &mut text)?;
        Ok(ListingLine {
            name: entry.name,
            text,
        })
    }

    /// How many bytes the line has, with its line feed.
    pub fn len(&self) -> u64
        ensures { result ≡ length self.now.text }
    {
        self.text.as_slice().len() as u64
    }
}

/// Adds the line of an entry at the end of the lines. The error is want of memory.
fn push_line(alloc: Global, entry: &Entry, lines: &mut Bytes) -> Result<(), AllocError>
    ensures { OnOk result (lines.new ≡ lines.old ++ listing_line (named_entry entry.now)) }
{
    tg_cid::laws::one_spelling();
    tg_cid::laws::computes();
    let cid = entry.cid.to_text(alloc)?;
    lines.push_all(cid.as_slice())?;
    lines.push_all(b" ")?;
    push_escaped(lines, alloc, entry.name.as_slice())?;
    lines.push_all(b"\n")?;
    Ok(())
}

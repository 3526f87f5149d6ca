//! Lines of a directory's entries, sorted and put.
ghost use Rattle.std.specs.Prelude.{◌≡◌, ◌++◌, List as Items, IfErr, IfOk, OnErr, OnOk, map};
ghost use Rattle.tg_listing.specs.Listings.{HasListingCause, PutBut, StopsListing, line_of, lines_text};
ghost use Rattle.tg_model.specs.Texts.{Named, listing, sorted};
ghost use Rattle.tg_streams.specs.Streams.{OutputQuiet, Put, PutFront, into};

use crate::fault::ListingFault;
use crate::line::ListingLine;
use std::alloc::{AllocError, Global};
use tg_bytes::{Bytes, List};
use tg_faults::Failed;
use tg_streams::{Sink, put_all, put_pieces};

/// Gathered lines are put once they have more bytes than this.
const GATHERED: usize = 32 * 1024;

/// Puts the listing of a directory whose entries have these lines, in the order of the names' bytes.
///
/// This project's own text. Errors: `SinkFault` where out failed, which then has a front of the listing; and
/// `OutOfMemory`, with which nothing is put.
pub fn put_listing<S: Sink>(
    alloc: Global,
    lines: List<ListingLine>,
    out: &mut S,
) -> Result<(), ListingFault>
    ensures put { (entries : Items Named) → lines ≡ map line_of entries
        → OnOk result (Put (listing entries) (into S.sink out.old out.new)) }
    ensures quiet { OnOk result (OutputQuiet (into S.sink out.old out.new)) }
    ensures err { (entries : Items Named) → lines ≡ map line_of entries
        → IfErr result (λ fault. StopsListing fault (listing entries) (into S.sink out.old out.new)) }
    ensures cause { IfErr result (λ fault. HasListingCause fault (into S.sink out.old out.new)) }
{
    let sorted = sorted_by_name(lines)?;
    put_lines(alloc, sorted.as_slice(), out)?;
    Ok(())
}

/// The lines in the order of their names' bytes, those of one name in the order that they had. The error is want of
/// memory.
fn sorted_by_name(lines: List<ListingLine>) -> Result<Vec<ListingLine>, AllocError>
    ensures { (entries : Items Named) → lines ≡ map line_of entries
        → IfOk result (λ list. list.items ≡ map line_of (sorted entries)) }
{
    let mut sorted = lines.into_vec();
    sorted.sort_by(|a, b| a.name.cmp(&b.name))?;
    Ok(sorted)
}

/// Puts the lines in their order. It wants no memory: where none is found to gather lines in, they are put one by one.
/// The error is a fault of out, which then has a front of them.
fn put_lines<S: Sink>(alloc: Global, lines: &[ListingLine], out: &mut S) -> Result<(), Failed>
    ensures put { OnOk result (Put (lines_text lines.now) (into S.sink out.old out.new)) }
    ensures quiet { OnOk result (OutputQuiet (into S.sink out.old out.new)) }
    ensures err { OnErr result (PutFront (lines_text lines.now) (into S.sink out.old out.new)) }
{
    let mut gathered = Bytes::new(alloc);
    for line in lines {
        put_line(line.text.as_slice(), &mut gathered, out)?;
    }
    put_all(out, gathered.as_slice())?;
    Ok(())
}

/// Adds a line to the gathered ones; and puts these and forgets them once they are many, or, with the line, where no
/// memory is found for it. The error is a fault of out, which then has a front of them.
fn put_line<S: Sink>(line: &[u8], lines: &mut Bytes, out: &mut S) -> Result<(), Failed>
    ensures put { OnOk result (PutBut lines.new (lines.old ++ line.now) (into S.sink out.old out.new)) }
    ensures err { OnErr result (PutFront (lines.old ++ line.now) (into S.sink out.old out.new)) }
{
    if lines.push_all(line).is_err() {
        put_pieces(out, &[lines.as_slice(), line])?;
        lines.clear();
        return Ok(());
    }
    if lines.as_slice().len() > GATHERED {
        put_all(out, lines.as_slice())?;
        lines.clear();
    }
    Ok(())
}

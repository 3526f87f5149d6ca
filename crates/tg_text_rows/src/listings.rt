//! Names that are escaped, and listings of directories, whole and stopped by the sink.
ghost use Rattle.std.specs.Prelude.{◌<◌};

use std::alloc::{AllocError, Global};
use std::str::from_utf8;
use tg_bytes::{Bytes, List, number_of};
use tg_cid::{Cid, Codec};
use tg_escape::push_escaped;
use tg_listing::{ListingFault, ListingLine, put_listing};
use tg_model::Entry;
use tg_rows::Answer;
use tg_streams::MemSink;

/// Says how a name is escaped.
pub fn answer_escaped(alloc: Global, given: &[Bytes], answer: &mut Answer) {
    let [name] = given else {
        return answer.text("one name");
    };
    let mut text = Bytes::new(alloc);
    match push_escaped(&mut text, alloc, name.as_slice()) {
        Ok(()) => answer.bytes(text.as_slice()),
        Err(_) => answer.lack(),
    }
}

/// The codec with this name.
pub fn codec_of(name: &[u8]) -> Option<Codec> {
    match from_utf8(name) {
        Ok("raw") => Some(Codec::Raw),
        Ok("dag-pb") => Some(Codec::DagPb),
        _ => None,
    }
}

/// The line of a name for a block with this codec.
fn line_of(
    alloc: Global,
    name: &[u8],
    codec: Codec,
    block: &[u8],
) -> Result<ListingLine, AllocError> {
    let entry = Entry {
        name: Bytes::of(alloc, name)?,
        cid: Cid::of_block(codec, block),
    };
    ListingLine::of(alloc, entry)
}

/// The lines of entries, each of which is a name, a codec and a block.
fn lines_of(alloc: Global, entries: &[Bytes]) -> Result<List<ListingLine>, AllocError> {
    let mut lines = List::new(alloc);
    for entry in entries.chunks(3) {
        if let [name, codec, block] = entry {
            if let Some(codec) = codec_of(codec.as_slice()) {
                lines.push(line_of(alloc, name.as_slice(), codec, block.as_slice())?)?;
            }
        }
    }
    Ok(lines)
}

/// The call that is to fail, by its number, or none where it is no number.
fn fails_of(alloc: Global, call: &[u8]) -> Result<List<u64>, AllocError> {
    let mut fails = List::new(alloc);
    if let Some(number) = number_of(call) {
        fails.push(number)?;
    }
    Ok(fails)
}

/// A sink that takes so many bytes in a call, and fails at this call.
fn sink_of(alloc: Global, most: usize, call: &[u8]) -> Result<MemSink, AllocError>
    requires { 0 < most }
{
    Ok(MemSink::new(alloc, most, fails_of(alloc, call)?))
}

/// Says how the listing of entries ends in a sink that takes 100 bytes in a call and fails at this one, and what the
/// sink holds.
pub fn answer_listing(alloc: Global, given: &[Bytes], answer: &mut Answer) {
    let Some((call, entries)) = given.split_first() else {
        return answer.text("a call and entries");
    };
    match (
        lines_of(alloc, entries),
        sink_of(alloc, 100, call.as_slice()),
    ) {
        (Ok(lines), Ok(mut out)) => {
            say_end(put_listing(alloc, lines, &mut out), answer);
            answer.bytes(out.held());
        }
        _ => answer.lack(),
    }
}

fn say_end(end: Result<(), ListingFault>, answer: &mut Answer) {
    match end {
        Ok(()) => answer.text("listed"),
        Err(fault) => say_listing_fault(fault, answer),
    }
}

/// Says why a listing isn't put to its end.
fn say_listing_fault(fault: ListingFault, answer: &mut Answer) {
    let name = match fault {
        ListingFault::SinkFault => "SinkFault",
        ListingFault::OutOfMemory => "OutOfMemory",
    };
    answer.text(name);
    answer.printed(&fault, name);
}

/// The last digit of a number.
fn digit(number: usize) -> u8 {
    b'0' + (number % 10) as u8
}

/// A space, the last four digits of a number, and a line feed.
fn tail(number: usize) -> [u8; 6] {
    [
        b' ',
        digit(number / 1000),
        digit(number / 100),
        digit(number / 10),
        digit(number),
        b'\n',
    ]
}

/// 2,000 lines for a raw block, in falling order of their names.
fn many_lines(alloc: Global, block: &[u8]) -> Result<List<ListingLine>, AllocError> {
    let mut lines = List::new(alloc);
    for number in (0..2000).rev() {
        lines.push(line_of(alloc, &tail(number)[1..5], Codec::Raw, block)?)?;
    }
    Ok(lines)
}

/// Whether the text is lines of those entries from the first one on, of 65 bytes each, where the CID has this text.
fn are_lines(text: &[u8], cid: &[u8]) -> bool {
    for (number, line) in text.chunks(65).enumerate() {
        if line.get(..59) != Some(cid) || line.get(59..) != Some(tail(number).as_slice()) {
            return false;
        }
    }
    true
}

/// Says how the listing of 2,000 entries for a raw block ends in a sink that takes any number of bytes and fails at this
/// call, and of how many entries it holds the lines, in the order of the names.
pub fn answer_many(alloc: Global, given: &[Bytes], answer: &mut Answer) {
    let [block, cid, call] = given else {
        return answer.text("a block, the text of its CID and a call");
    };
    match (
        many_lines(alloc, block.as_slice()),
        sink_of(alloc, 1 << 30, call.as_slice()),
    ) {
        (Ok(lines), Ok(mut out)) => {
            say_end(put_listing(alloc, lines, &mut out), answer);
            say_lines(out.held(), cid.as_slice(), answer);
        }
        _ => answer.lack(),
    }
}

/// Says how many lines a text has, if they are those of the first entries.
fn say_lines(text: &[u8], cid: &[u8], answer: &mut Answer) {
    if are_lines(text, cid) {
        answer.number(text.len() as u64 / 65);
    } else {
        answer.text("other lines");
    }
}

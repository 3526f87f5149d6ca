//! Parts of a CAR, in chunks or as they are.
ghost use Rattle.std.specs.Prelude.{◌≡◌, ◌≤◌, [], ◌++◌, length};
ghost use Rattle.tg_cid.specs.Limits.{max_block_len};
ghost use Rattle.tg_reply.specs.CarBytes.{chunk_bytes, section_bytes};
ghost use Rattle.tg_replying.specs.Bodies.{GiveEnds, end_bytes, giving_in, part_bytes};
ghost use Rattle.tg_model_laws.specs.StoreWalks.{section_of};

use tg_cid::Cid;
use tg_faults::Failed;
use tg_http::chunk_head;
use tg_reply_writing::section_front;
use tg_streams::{Gathering, Sink};

/// Gives the section of a block, in a chunk or as it is to a request of HTTP/1.0.
pub(crate) fn give_section<S: Sink>(
    minor: u8,
    cid: &Cid,
    block: &[u8],
    gathering: &mut Gathering,
    out: &mut S,
) -> Result<(), Failed>
    requires { length block.now ≤ max_block_len }
    ensures { GiveEnds (giving_in S.sink gathering.old gathering.new out.old out.new)
        (part_bytes minor (section_bytes (section_of cid.now block.now))) result }
{
    let (front, size) = section_front(cid, block.len() as u64);
    give_part(minor, &front[..size], block, gathering, out)
}

/// Gives a part that is in two pieces, in a chunk or as it is to a request of HTTP/1.0.
pub(crate) fn give_part<S: Sink>(
    minor: u8,
    front: &[u8],
    back: &[u8],
    gathering: &mut Gathering,
    out: &mut S,
) -> Result<(), Failed>
    requires { length front.now ≤ 16384 }
    ensures { GiveEnds (giving_in S.sink gathering.old gathering.new out.old out.new)
        (part_bytes minor (front.now ++ back.now)) result }
{
    if minor == 0 {
        give_both(front, back, gathering, out)
    } else {
        give_chunk(front, back, gathering, out)
    }
}

/// Gives a chunk whose bytes are in two pieces: the line of its size, its bytes, CR LF.
///
/// RFC 9112, section 7.1.
fn give_chunk<S: Sink>(
    front: &[u8],
    back: &[u8],
    gathering: &mut Gathering,
    out: &mut S,
) -> Result<(), Failed>
    requires { length front.now ≤ 16384 }
    ensures { GiveEnds (giving_in S.sink gathering.old gathering.new out.old out.new)
        (chunk_bytes (front.now ++ back.now)) result }
{
    let (line, size) = chunk_head(front.len() as u64 + back.len() as u64);
    gathering.give(out, &line[..size])?;
    give_both(front, back, gathering, out)?;
    gathering.give(out, b"\r\n")
}

/// Gives two pieces.
fn give_both<S: Sink>(
    front: &[u8],
    back: &[u8],
    gathering: &mut Gathering,
    out: &mut S,
) -> Result<(), Failed>
    ensures { GiveEnds (giving_in S.sink gathering.old gathering.new out.old out.new) (front.now ++ back.now) result }
{
    gathering.give(out, front)?;
    gathering.give(out, back)
}

/// Gives the end of a body: the last chunk, or nothing where the body is cut or goes on until the connection closes.
///
/// RFC 9112, section 7.1.
pub(crate) fn give_end<S: Sink>(
    minor: u8,
    cut: bool,
    gathering: &mut Gathering,
    out: &mut S,
) -> Result<(), Failed>
    ensures { GiveEnds (giving_in S.sink gathering.old gathering.new out.old out.new) (end_bytes minor cut) result }
{
    if minor == 0 || cut {
        gathering.give(out, &[])
    } else {
        gathering.give(out, b"0\r\n\r\n")
    }
}

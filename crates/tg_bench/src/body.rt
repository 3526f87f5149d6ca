//! The reader of bodies over 256 MB in pieces of 65,536 bytes, of stated length and in chunks, beside a copy of the
//! same memory.
use crate::speeds::{filled, print_copy, speed};
use std::alloc::{AllocError, Global};
use std::io;
use std::rt::Clock;
use std::time::Instant;
use tg_body::{Body, BodyReader};
use tg_http::{Framing, chunk_head};

// How many bytes a chunk has, as most chunks of a CAR have.
const CHUNK: usize = 262_144;

const CHUNKS: usize = 1024;

const ALL: usize = CHUNK * CHUNKS;

const PIECE: usize = 65_536;

/// Prints the speeds in MB/s. The bytes of one chunk, 256 KiB, are fed and copied again and again.
pub fn run(rt: &(impl Clock + Print + AllocGlobal)) -> io::Result<()> {
    let data = vec![in rt.alloc(); 7u8; CHUNK]?;
    let chunk = chunk_of(rt.alloc(), data.as_slice())?;
    report(rt, data.as_slice(), chunk.as_slice())
}

/// The same of these bytes and the chunk that has them.
fn report(rt: &(impl Clock + Print + AllocGlobal), data: &[u8], chunk: &[u8]) -> io::Result<()> {
    print_body(rt, "of a length", Framing::Length(ALL as u64), data)?;
    print_body(rt, "in chunks", Framing::Chunked, chunk)?;
    print_copy(rt, data, CHUNKS)
}

/// Prints how fast a body is read.
fn print_body(
    rt: &(impl Clock + Print + AllocGlobal),
    name: &str,
    framing: Framing,
    bytes: &[u8],
) -> io::Result<()> {
    let begin = Instant::now(rt)?;
    let given = read(rt.alloc(), framing, bytes);
    let speed = speed(ALL, begin.elapsed(rt)?);
    println!(rt; "body {name} {speed} MB/s ({given} bytes)")
}

/// The bytes as a chunk: its line, the bytes, CR LF.
fn chunk_of(alloc: Global, data: &[u8]) -> Result<Vec<u8>, AllocError> {
    let (head, size) = chunk_head(data.len() as u64);
    let mut chunk = filled(alloc, &head[..size], 1, data)?;
    chunk.extend_from_slice(b"\r\n")?;
    Ok(chunk)
}

/// How many bytes the parts that a reader gives have together.
fn read(alloc: Global, framing: Framing, bytes: &[u8]) -> usize {
    let mut reader = BodyReader::new(alloc, framing);
    let mut given: usize = 0;
    for _ in 0..CHUNKS {
        given = given.saturating_add(feed_all(&mut reader, bytes));
    }
    given
}

/// Feeds the bytes in pieces. What is refused counts as nothing.
fn feed_all(reader: &mut BodyReader, bytes: &[u8]) -> usize {
    let mut given: usize = 0;
    for piece in bytes.chunks(PIECE) {
        let mut rest = piece;
        for _ in 0..piece.len() {
            let Ok((taken, told)) = reader.feed(rest) else {
                return given;
            };
            if let Body::Part { start, end } = told {
                given = given.saturating_add(end.saturating_sub(start));
            }
            rest = &rest[taken..];
            if rest.is_empty() {
                break;
            }
        }
    }
    given
}

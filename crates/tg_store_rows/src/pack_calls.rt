//! Packs in memory and of the system that are read and written, and what generic code knows of any pack.
ghost use Rattle.std.specs.Prelude.{◌≡◌, ◌++◌, ◌∷◌, [], true, Some, IfOk, IfSome, OnOk};
ghost use Rattle.std.specs.Io.Cursor.{cursor_inner};
ghost use Rattle.tg_files.specs.Packs.{Did, ReadAt, pack_step};
ghost use Rattle.tg_files.specs.Packs.PackWrite.{append as added, attach as attached};

use crate::folder_calls::{offset_at, say_read};
use crate::given::{bytes_at, fails_at, number_at};
use crate::said::say_done;
use std::alloc::Global;
use std::io;
use std::io::Cursor;
use std::rt::Files;
use tg_bytes::Bytes;
use tg_faults::Failed;
use tg_files::{HostPack, MemPack, Pack, read_from};
use tg_rows::Answer;

/// Makes any pack fresh and puts bytes into it in two pieces.
fn begin<P: Pack>(pack: &mut P, path: &str, head: &[u8], body: &[u8]) -> Result<(), Failed>
    ensures { OnOk result (Did (attached path.now true ∷ added head.now ∷ added body.now
        ∷ []) (pack_step P.pack pack.old pack.new)) }
{
    pack.attach(path, true)?;
    pack.append(head)?;
    pack.append(body)
}

/// What is known of a pack in memory once generic code has begun it: its bytes, and that its calls fail as before.
fn begin_in_memory(pack: &mut MemPack, path: &str, head: &[u8], body: &[u8]) -> Result<(), Failed>
    ensures content { OnOk result (IfSome pack.old.content (λ _. pack.new.content ≡ Some (head.now ++ body.now))) }
    ensures fails { OnOk result (pack.new.fails ≡ pack.old.fails) }
{
    begin(pack, path, head, body)
}

/// The pack with these bytes, whose call with this number fails.
pub fn pack_with(alloc: Global, given: &[Bytes]) -> Option<MemPack> {
    match Bytes::of(alloc, bytes_at(given, 0)) {
        Ok(bytes) => Some(MemPack::new(bytes, fails_at(alloc, number_at(given, 1)))),
        Err(_) => None,
    }
}

/// A call to a pack in memory: those of any pack, `write OFFSET BYTES` within its bytes, `begin HEAD BODY`, `count`, or
/// `content`, which says all bytes if they are told.
pub fn answer_memory(pack: &mut MemPack, verb: &str, given: &[Bytes], answer: &mut Answer) {
    match verb {
        "write" => say_written(pack, offset_at(given, 0), bytes_at(given, 1), answer),
        "begin" => {
            let (head, body) = (bytes_at(given, 0), bytes_at(given, 1));
            say_done(begin_in_memory(pack, "anywhere", head, body), answer);
        }
        "count" => answer.number(pack.count()),
        "content" => match pack.content() {
            Some(bytes) => answer.bytes(bytes),
            None => answer.text("untold"),
        },
        _ => answer_any(pack, verb, "anywhere", given, answer),
    }
}

/// Says whether bytes are put in place of others.
fn say_written(pack: &mut MemPack, offset: u64, bytes: &[u8], answer: &mut Answer) {
    let size = match pack.content() {
        Some(content) => content.len() as u64,
        None => return answer.text("untold"),
    };
    let count = bytes.len() as u64;
    if offset > size || count > size - offset {
        return answer.text("beyond");
    }
    say_done(pack.write_at(offset, bytes), answer);
}

/// A call to a pack of the system: those of any pack, `write OFFSET BYTES`, or `count`.
pub fn answer_host<R: Files + AllocGlobal + Clone + Drop>(
    pack: &mut HostPack<R>,
    verb: &str,
    path: &str,
    given: &[Bytes],
    answer: &mut Answer,
) {
    match verb {
        "write" => {
            let done = pack.write_at(offset_at(given, 0), bytes_at(given, 1));
            say_done(done, answer);
        }
        "count" => answer.number(pack.count()),
        _ => answer_any(pack, verb, path, given, answer),
    }
}

/// A call that any pack takes: `attach PATH`, `fresh PATH`, `begin PATH HEAD BODY`, of which the path of the system is given,
/// `append BYTES`, `size`, or `read OFFSET`.
fn answer_any<P: Pack>(pack: &mut P, verb: &str, path: &str, given: &[Bytes], answer: &mut Answer) {
    match verb {
        "attach" => say_done(pack.attach(path, false), answer),
        "fresh" => say_done(pack.attach(path, true), answer),
        "begin" => say_done(
            begin(pack, path, bytes_at(given, 1), bytes_at(given, 2)),
            answer,
        ),
        "append" => say_done(pack.append(bytes_at(given, 0)), answer),
        "size" => match pack.size() {
            Ok(size) => answer.number(size),
            Err(Failed) => answer.text("Failed"),
        },
        "read" => {
            let mut buf = [0; 8];
            let read = pack.read_at(offset_at(given, 0), &mut buf);
            say_read(read, &buf, answer);
        }
        _ => answer.text("an unknown call"),
    }
}

/// One read of a reader that tells its bytes.
fn read_told(file: &mut Cursor<Vec<u8>>, offset: u64, buf: &mut [u8]) -> io::Result<usize>
    ensures { IfOk result (λ n. ReadAt (Some (cursor_inner file.old).items) offset n buf.new) }
{
    read_from(file, offset, buf)
}

/// `reader BYTES OFFSET`: what one read of a reader with these bytes gives from an offset on.
pub fn answer_reader(alloc: Global, given: &[Bytes], answer: &mut Answer) {
    let mut buf = [0; 8];
    match Vec::from_slice(alloc, bytes_at(given, 0)) {
        Ok(bytes) => match read_told(&mut Cursor::new(bytes), offset_at(given, 1), &mut buf) {
            Ok(count) => answer.bytes(buf.get(..count).unwrap_or(&buf)),
            Err(_) => answer.text("Failed"),
        },
        Err(_) => answer.lack(),
    }
}

//! Bytes read at an offset, from memory and from readers that are sought.
ghost use Rattle.std.specs.Prelude.{◌≡◌, ◌-◌, ◌+◌, ◌<◌, ◌≤◌, min, length, take, drop, Some, IfOk};
ghost use Rattle.std.specs.Io.{ReadsAtMost};
ghost use Rattle.std.specs.Io.KnownBytes.{ReadConsumes};
ghost use Rattle.tg_bytes.specs.Told.{after_front};
ghost use Rattle.tg_files.specs.Packs.{ReadAt, rest_at};
ghost use Rattle.tg_files.specs.Readers.{StandsFrom};

use std::io;
use std::io::{ErrorKind, Read, Seek, SeekFrom};

/// Copies what stands from `offset` on into the front of the buffer and says how many bytes that is.
pub(crate) fn read_front(content: &[u8], offset: u64, buf: &mut [u8]) -> usize
    ensures amount { result ≡ min (length buf.new) (length content.now - offset) }
    ensures read { ReadAt (Some content.now) offset result buf.new }
    ensures others { drop result buf.new ≡ drop result buf.old }
{
    let at = content.len().min(offset as usize);
    let rest = &content[at..];
    let n = buf.len().min(rest.len());
    buf[..n].copy_from_slice(&rest[..n]);
    n
}

/// One read of a file from an offset on, as far as its first `size` bytes go. It is an error where the file ends before
/// them.
pub(crate) fn read_within<F: Read + Seek>(
    file: &mut F,
    size: u64,
    offset: u64,
    buf: &mut [u8],
) -> io::Result<usize>
    ensures within { IfOk result (λ n. n ≤ min (length buf.new) (size - offset)) }
    ensures end { IfOk result (λ n. n ≡ 0 → 0 < length buf.new → size ≤ offset) }

    // A reader that tells its bytes.
    ensures told { ((s : F) → StandsFrom (F.Seek.stream_position s) (F.Seek.stream_bytes s) (F.Read.remaining s))
        → let held = F.Seek.stream_bytes file.old in
        IfOk result (λ n. rest_at held offset ≡ after_front (take n buf.new) (rest_at held (offset + n))) }
{
    let room = buf.len().min(size.saturating_sub(offset) as usize);
    if room == 0 {
        return Ok(0);
    }
    let n = read_from(file, offset, &mut buf[..room])?;
    if n == 0 {
        return Err(io::Error::from(ErrorKind::UnexpectedEof));
    }
    Ok(n)
}

/// One read of a file from an offset on, in bytes, which is begun anew where it is interrupted; 0 bytes say that the
/// file ends there or that the buffer has no room. Errors: those of the file (POSIX.1-2017, `lseek` and `read`).
pub fn read_from<F: Read + Seek>(file: &mut F, offset: u64, buf: &mut [u8]) -> io::Result<usize>
    ensures within { ReadsAtMost result buf.new }

    // A reader that tells its bytes.
    ensures told { ((s : F) → StandsFrom (F.Seek.stream_position s) (F.Seek.stream_bytes s) (F.Read.remaining s))
        → IfOk result (λ n. ReadAt (F.Seek.stream_bytes file.old) offset n buf.new) }
{
    file.seek(SeekFrom::Start(offset))?;
    read_on(file, buf)
}

/// One read, which is begun anew where it is interrupted.
fn read_on<F: Read>(file: &mut F, buf: &mut [u8]) -> io::Result<usize>
    ensures within { ReadsAtMost result buf.new }
    ensures bytes { ReadConsumes (F.remaining file.old) (F.remaining file.new) result buf.new }
{
    for _ in 0..u64::MAX {
        match file.read(buf) {
            Err(e) if e.kind() == ErrorKind::Interrupted => {}
            read => return read,
        }
    }
    Err(io::Error::from(ErrorKind::Interrupted))
}

//! A file system for tests, whose calls are interrupted, move few bytes and fail as it is told.
ghost use Rattle.std.specs.Prelude.{◌≤◌, length};

use std::alloc::{Allocator, Global};
use std::fs::{FileTimes, Metadata, OpenFile, OpenOptions, Permissions};
use std::io;
use std::io::{Cursor, ErrorKind, Read, Seek, SeekFrom, Write};
use std::rt::Files;
use std::str::from_utf8;
use tg_bytes::{Bytes, number_of};

/// How the calls go. Each file holds the bytes `hello world`, and the one folder that there is holds the file `f`, and,
/// where the listing goes on, `g` and one more.
#[derive(Clone, Copy)]
pub struct Plan {
    /// How many reads or writes of an opened file are interrupted before the first that isn't.
    pub interrupted: u8,
    /// The place from which on reads and writes fail.
    pub fails_at: u64,
    /// How many bytes a file has by what the system says of its path.
    pub size: u64,
    /// How many bytes it has by what the system says of it once it is open.
    pub opened_size: u64,
    /// Whether it is another thing once it is open.
    pub is_replaced: bool,
    /// Whether a listing fails after the first name.
    pub breaks_off: bool,
    /// How many bytes the name has that is listed last, each of them `x`, or none where there are just two names.
    pub last: usize,
    /// Whether what was written to a file can't be made to last.
    pub is_lost: bool,
    /// Whether no file can be renamed.
    pub is_unmoved: bool,
}

/// Two reads or writes are interrupted, none fails, there are two names, what is written lasts, and a file is renamed.
pub const PLAIN: Plan = Plan {
    interrupted: 2,
    fails_at: u64::MAX,
    size: 11,
    opened_size: 11,
    is_replaced: false,
    breaks_off: false,
    last: 0,
    is_lost: false,
    is_unmoved: false,
};

/// The plan of a row's fields, two by two: what is otherwise than in the plain plan, and a number, which is 1 where it only
/// is so.
pub fn plan_of(fields: &[Bytes]) -> Plan {
    let mut plan = PLAIN;
    for pair in fields.chunks(2) {
        if let [what, number] = pair {
            change(
                &mut plan,
                what.as_slice(),
                number_of(number.as_slice()).unwrap_or(0),
            );
        }
    }
    plan
}

/// Changes what a plan has.
fn change(plan: &mut Plan, what: &[u8], number: u64) {
    match from_utf8(what) {
        Ok("fails") => plan.fails_at = number,
        Ok("size") => plan.size = number,
        Ok("opened") => plan.opened_size = number,
        Ok("last") => plan.last = number as usize,
        Ok("replaced") => plan.is_replaced = number == 1,
        Ok("breaks") => plan.breaks_off = number == 1,
        Ok("lost") => plan.is_lost = number == 1,
        Ok("unmoved") => plan.is_unmoved = number == 1,
        _ => plan.interrupted = u8::MAX,
    }
}

/// The file system of a plan.
#[derive(Clone, Copy)]
pub struct RoughFiles {
    pub alloc: Global,
    pub plan: Plan,
}

/// An opened file.
#[derive(Drop)]
pub struct RoughFile {
    bytes: Cursor<Vec<u8>>,
    plan: Plan,
}

/// A name of 255 bytes, which is the most that a file system takes.
const LONG_NAME: &str =
    "xxxxxxxxxxxxxxxxxxxxxxxxxxxxxxxxxxxxxxxxxxxxxxxxxxxxxxxxxxxxxxxxxxxxxxxxxxxxxxxxxxxxxxxxxxxxxxxxxxxxxxxxxx\
        xxxxxxxxxxxxxxxxxxxxxxxxxxxxxxxxxxxxxxxxxxxxxxxxxxxxxxxxxxxxxxxxxxxxxxxxxxxxxxxxxxxxxxxxxxxxxxxxxxxxxx\
        xxxxxxxxxxxxxxxxxxxxxxxxxxxxxxxxxxxxxxxxxxxxxxx";

/// An opened folder, and how many of its names were read.
#[derive(Drop)]
pub struct RoughFolder {
    plan: Plan,
    reads: u8,
}

impl RoughFile {
    /// Whether a read or a write goes wrong here, which is an interruption first.
    fn goes_wrong(&mut self) -> io::Result<()> {
        if self.plan.interrupted > 0 {
            self.plan.interrupted -= 1;
            return Err(io::Error::from(ErrorKind::Interrupted));
        }
        if self.bytes.position() >= self.plan.fails_at {
            return Err(io::Error::from(ErrorKind::BrokenPipe));
        }
        Ok(())
    }
}

impl Read for RoughFile {
    fn read(&mut self, buf: &mut [u8]) -> io::Result<usize> {
        self.goes_wrong()?;
        let n = buf.len().min(3);
        self.bytes.read(&mut buf[..n])
    }
}

impl Write for RoughFile {
    fn write(&mut self, buf: &[u8]) -> io::Result<usize> {
        self.goes_wrong()?;
        let n = buf.len().min(3);
        self.bytes.write(&buf[..n])
    }

    fn flush(&mut self) -> io::Result<()> {
        Ok(())
    }
}

impl Seek for RoughFile {
    fn seek(&mut self, to: SeekFrom) -> io::Result<u64> {
        self.bytes.seek(to)
    }
}

impl OpenFile for RoughFile {
    fn metadata(&self) -> io::Result<Metadata> {
        let size = self.plan.opened_size;
        Ok(if self.plan.is_replaced {
            Metadata::of_symlink(size)
        } else {
            Metadata::of_file(size)
        })
    }

    fn set_len(&self, _size: u64) -> io::Result<()> {
        unsupported()
    }

    fn sync_all(&self) -> io::Result<()> {
        if self.plan.is_lost {
            Err(io::Error::from(ErrorKind::BrokenPipe))
        } else {
            Ok(())
        }
    }

    fn sync_data(&self) -> io::Result<()> {
        unsupported()
    }

    fn set_permissions(&self, _perm: Permissions) -> io::Result<()> {
        Ok(())
    }
}

impl Read for RoughFolder {
    fn read(&mut self, buf: &mut [u8]) -> io::Result<usize> {
        let name = match self.reads {
            0 => "f",
            1 if self.plan.breaks_off => return Err(io::Error::from(ErrorKind::BrokenPipe)),
            1 => "g",
            2 => LONG_NAME.get(..self.plan.last).unwrap_or(""),
            _ => "",
        };
        self.reads = self.reads.saturating_add(1);
        Ok(put_name(name.as_bytes(), buf))
    }
}

/// Puts a name with a NUL behind it into the front of the buffer and says how many bytes that is: none for an empty
/// name, or where there is no room.
fn put_name(name: &[u8], buf: &mut [u8]) -> usize
    ensures { result ≤ length buf.new }
{
    let n = name.len();
    if n == 0 || n >= buf.len() {
        return 0;
    }
    buf[..n].copy_from_slice(name);
    buf[n] = 0;
    n + 1
}

impl Alloc for RoughFiles {
    type A = Global;

    fn alloc(&self) -> Global {
        self.alloc
    }
}

impl Files for RoughFiles {
    type File = RoughFile;

    type Dir = RoughFolder;

    fn open_file(&self, _how: &OpenOptions, _path: &str) -> io::Result<RoughFile> {
        Ok(RoughFile {
            bytes: Cursor::new(Vec::from_slice(self.alloc, b"hello world")?),
            plan: self.plan,
        })
    }

    fn open_dir(&self, _path: &str) -> io::Result<RoughFolder> {
        Ok(RoughFolder {
            plan: self.plan,
            reads: 0,
        })
    }

    /// A file stands at each path that ends with `pack`, and a folder at any other.
    fn metadata(&self, path: &str) -> io::Result<Metadata> {
        Ok(if path.ends_with("pack") {
            Metadata::of_file(self.plan.size)
        } else {
            Metadata::of_dir()
        })
    }

    fn symlink_metadata(&self, _path: &str) -> io::Result<Metadata> {
        Ok(Metadata::of_file(self.plan.size))
    }

    fn copy(&self, _from: &str, _to: &str) -> io::Result<u64> {
        unsupported()
    }

    fn rename(&self, _from: &str, _to: &str) -> io::Result<()> {
        if self.plan.is_unmoved {
            unsupported()
        } else {
            Ok(())
        }
    }

    fn remove_file(&self, _path: &str) -> io::Result<()> {
        unsupported()
    }

    fn create_dir(&self, _path: &str) -> io::Result<()> {
        unsupported()
    }

    fn remove_dir(&self, _path: &str) -> io::Result<()> {
        unsupported()
    }

    fn remove_dir_all<B: Allocator>(&self, _alloc: B, _path: &str) -> io::Result<()> {
        unsupported()
    }
}

/// What the tests have no use for.
fn unsupported<T>() -> io::Result<T> {
    Err(io::Error::from(ErrorKind::Unsupported))
}

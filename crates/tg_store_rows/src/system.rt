//! A folder of the system for rows alone, which they make, change and remove.
use crate::given::{bytes_at, number_at};
use std::fs::File;
use std::io::{Seek, SeekFrom, Write};
use std::os::unix::fs::symlink;
use std::rt::HostRuntime;
use std::str::from_utf8;
use std::{env, fs, io, process};
use tg_bytes::Bytes;
use tg_rows::Answer;

/// The path of the system of the rows' own folder.
pub fn top_of(rt: &HostRuntime) -> Option<String> {
    made_top(rt).ok()
}

fn made_top(rt: &HostRuntime) -> io::Result<String> {
    let id = process::id(rt.process());
    let temp = env::temp_dir(rt)?;
    Ok(format!(in rt.alloc(); "{}/tg_store_rows_{id}", temp.as_str())?)
}

/// The path of the system of a path in the folder at `top`, or of one that begins with a slash.
pub fn path_in(rt: &HostRuntime, top: &str, path: &[u8]) -> Option<String> {
    let Ok(path) = from_utf8(path) else {
        return None;
    };
    let made = if path.starts_with('/') {
        String::from_str(rt.alloc(), path)
    } else {
        format!(in rt.alloc(); "{top}/{path}")
    };
    made.ok()
}

/// What is done with the rows' own folder: `make`, `remove`, `folder NAME`, `file NAME BYTES`, `sparse NAME OFFSET BYTES`,
/// which has zeros up to the offset, `link NAME TARGET`, or `rename NAME NAME`. A link whose target is `.` leads to the
/// folder itself.
pub fn answer(rt: &HostRuntime, given: &[Bytes], answer: &mut Answer) {
    let Some(top) = top_of(rt) else {
        return answer.text("no folder");
    };
    let top = top.as_str();
    match (
        from_utf8(bytes_at(given, 0)),
        path_in(rt, top, bytes_at(given, 1)),
    ) {
        (Ok(verb), Some(path)) => say_io(act(rt, top, verb, path.as_str(), given), answer),
        _ => answer.text("no call"),
    }
}

/// Says whether the system did so.
fn say_io(done: io::Result<()>, answer: &mut Answer) {
    match done {
        Ok(()) => answer.text("done"),
        Err(_) => answer.text("failed"),
    }
}

/// Does this with the name at this path.
fn act(rt: &HostRuntime, top: &str, verb: &str, path: &str, given: &[Bytes]) -> io::Result<()> {
    match verb {
        "make" => make_empty(rt, top),
        "remove" => fs::remove_dir_all(rt, top),
        "folder" => fs::create_dir(rt, path),
        "file" => fs::write(rt, path, bytes_at(given, 2)),
        "sparse" => write_sparse(
            rt,
            path,
            number_at(given, 2).unwrap_or(0),
            bytes_at(given, 3),
        ),
        _ => act_with_two(rt, top, verb, path, bytes_at(given, 2)),
    }
}

/// Does this with the name at this path and another.
fn act_with_two(
    rt: &HostRuntime,
    top: &str,
    verb: &str,
    path: &str,
    other: &[u8],
) -> io::Result<()> {
    let Some(to) = path_in(rt, top, other) else {
        return Err(io::Error::from(io::ErrorKind::InvalidInput));
    };
    match (verb, from_utf8(other)) {
        ("link", Ok(".")) => symlink(rt, top, path),
        ("link", Ok(target)) => symlink(rt, target, path),
        ("rename", Ok(_)) => fs::rename(rt, path, to.as_str()),
        _ => Err(io::Error::from(io::ErrorKind::InvalidInput)),
    }
}

/// Makes an empty folder at a path, also where there is one.
fn make_empty(rt: &HostRuntime, path: &str) -> io::Result<()> {
    if fs::exists(rt, path)? {
        fs::remove_dir_all(rt, path)?;
    }
    fs::create_dir(rt, path)
}

/// A file of zeros up to an offset, and bytes behind them.
fn write_sparse(rt: &HostRuntime, path: &str, offset: u64, bytes: &[u8]) -> io::Result<()> {
    let mut file = File::create(rt, path)?;
    file.seek(SeekFrom::Start(offset))?;
    file.write_all(bytes)
}

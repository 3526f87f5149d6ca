//! Runs all rows of some files.
use crate::answer::Answer;
use crate::reader::{Reader, Row, RowsFault};
use std::io::Write;
use std::process::ExitCode;
use std::rt::HostRuntime;
use std::str::from_utf8;
use std::{env, fs, io};
use tg_bytes::{Bytes, List};

/// What asks what a row asks.
pub trait Judge {
    /// Answers what is given.
    fn answer(&mut self, given: &[Bytes], answer: &mut Answer);
}

/// How many rows were asked, and how many answers differ.
#[derive(Clone, Copy)]
struct Tally {
    rows: u64,
    differ: u64,
}

/// Asks the rows of the files that the arguments name. For each whose answer differs it prints a line, and at last how
/// many rows there are. The status is 1 where one differs or a file can't be read.
pub fn run<J: Judge>(rt: &HostRuntime, judge: &mut J) -> ExitCode {
    let mut tally = Tally { rows: 0, differ: 0 };
    match run_files(rt, judge, &mut tally) {
        Ok(()) => {}
        Err(_) => return ExitCode::from(2),
    }
    ExitCode::from(u8::from(tally.differ > 0))
}

fn run_files<J: Judge>(rt: &HostRuntime, judge: &mut J, tally: &mut Tally) -> io::Result<()> {
    let mut words = env::args(rt)?;
    let _program = words.next();
    for word in words {
        run_file(rt, word.as_str(), judge, tally)?;
    }
    println!(rt; "{} rows", tally.rows)
}

/// Asks the rows of a file, which knows its own names and those of the files that it names by `with`, and no others.
fn run_file<J: Judge>(
    rt: &HostRuntime,
    name: &str,
    judge: &mut J,
    tally: &mut Tally,
) -> io::Result<()> {
    let text = fs::read(rt, name)?;
    let mut reader = Reader::new(rt.alloc(), text.as_slice(), List::new(rt.alloc()));
    for _ in 0..text.len() {
        match reader.next_row() {
            Some(row) => run_row(rt, name, &row, &mut reader, judge, tally)?,
            None => break,
        }
    }
    tell_fault(rt, name, reader.fault(), tally)
}

/// Has the reader know the names of a file that stands beside that with this name. A row in it is told, and not asked.
fn read_names(
    rt: &HostRuntime,
    name: &str,
    file: &[u8],
    reader: &mut Reader<'_>,
    tally: &mut Tally,
) -> io::Result<()> {
    let Ok(file) = from_utf8(file) else {
        return tell_fault(rt, name, Some(RowsFault::Bad { line: 0 }), tally);
    };
    let folder = match name.rfind('/') {
        Some(at) => name.get(..at).unwrap_or("."),
        None => ".",
    };
    let path = format!(in rt.alloc(); "{folder}/{file}")?;
    let text = fs::read(rt, path.as_str())?;
    let mut names = Reader::new(rt.alloc(), text.as_slice(), reader.take_names());
    if let Some(row) = names.next_row() {
        tell_fault(
            rt,
            path.as_str(),
            Some(RowsFault::Bad { line: row.line }),
            tally,
        )?;
    }
    reader.give_names(names.take_names());
    tell_fault(rt, path.as_str(), names.fault(), tally)
}

fn tell_fault(
    rt: &HostRuntime,
    name: &str,
    fault: Option<RowsFault>,
    tally: &mut Tally,
) -> io::Result<()> {
    let Some(fault) = fault else {
        return Ok(());
    };
    tally.differ = tally.differ.saturating_add(1);
    match fault {
        RowsFault::Bad { line } => println!(rt; "{name}:{line}: this is no row"),
        RowsFault::OutOfMemory => println!(rt; "{name}: out of memory"),
    }
}

fn run_row<J: Judge>(
    rt: &HostRuntime,
    name: &str,
    row: &Row,
    reader: &mut Reader<'_>,
    judge: &mut J,
    tally: &mut Tally,
) -> io::Result<()> {
    if let Some(file) = row.names_of() {
        return read_names(rt, name, file, reader, tally);
    }
    tally.rows = tally.rows.saturating_add(1);
    let mut answer = Answer::new(rt.alloc());
    judge.answer(row.given.as_slice(), &mut answer);
    if answer.is(row.wanted.as_slice()) {
        return Ok(());
    }
    tally.differ = tally.differ.saturating_add(1);
    tell(rt, name, row.line, answer.shown().as_slice())
}

fn tell(rt: &HostRuntime, name: &str, line: u64, shown: &[u8]) -> io::Result<()> {
    print!(rt; "{name}:{line}: the answer is")?;
    io::writer(rt).write_all(shown)?;
    println!(rt; "")
}

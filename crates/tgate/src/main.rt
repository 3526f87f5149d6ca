//! The program `tgate`: trees of files as DAGs of blocks, which it imports, exports and serves as a trustless gateway of
//! the InterPlanetary File System, and fetches and verifies from servers that nobody has to trust.
#![tactic(auto)]

mod exchange;
mod heads;
mod noted;
mod progress;

ghost use Rattle.std.specs.Prelude.{◌≡◌, ◌⊎◌, [], pos, ◌≤ℤ◌, drop, false, map, string_bytes, IsSome, IsTrue, IfErr, IfOk};
ghost use Rattle.std.specs.Fd.{file_raw_fd};
ghost use Rattle.std.specs.Vec.Iter.{into_iter_items};
ghost use Rattle.tg_app.specs.Objects.{objects_between};
ghost use Rattle.tg_app.specs.Runs.{IsUnrun, Run, Runs};
ghost use Rattle.tg_streams.specs.Streams.{into};

use crate::exchange::{Exchange, NotedNet};
use crate::heads::{redirect_line, type_line};
use crate::noted::{FailedEntry, Noted};
use crate::progress::{Clearing, Counted, Progress, Shown, Watching};
use std::alloc::{AllocError, Global};
use std::env::Args;
use std::fs::File;
use std::io::ErrorKind;
use std::os::fd::{AsFd, AsRawFd, IntoRawFd, RawFd};
use std::process::ExitCode;
use std::{env, io};
use tg_app::{SwarmWatch, Watch, no_streams, out_of_memory, run};
use tg_dials::{Dial, TcpDial};
use tg_doors::{Door, TcpDoor};
use tg_extract::Extract;
use tg_files::{Folder, HostFolder, HostPack, Pack, TempNames};
use tg_new_tree::{HostNewTree, NewTree};
use tg_streams::{Sink, Source, StdSink, StdSource};

/// How many standard streams there are: 0 is input, 1 out and 2 err.
const STREAMS: RawFd = 3;

/// The exit status of words that are no command.
const NO_COMMAND: u8 = 2;

/// The exit status of a block, a CAR or a reply that isn't what is asked for.
const NOT_ASKED: u8 = 3;

/// The exit status of a reply with another status than 200.
const OTHER_STATUS: u8 = 4;

/// The exit status of a fault of the door, of the dial or of a link.
const PEER_FAILED: u8 = 5;

/// The exit status of a fault of the folder, among others.
const OBJECT_FAILED: u8 = 6;

fn main(rt: HostRuntime) -> ExitCode {
    let progress = Progress::new(rt, env::args(&rt));
    let names = TempNames::drawn(&rt);
    let unread = FailedEntry::new(rt.alloc());
    let mut folder = Noted {
        inner: HostFolder::new(rt, names),
        failed: &unread,
    };
    let unmade = FailedEntry::new(rt.alloc());
    let tree = Noted {
        inner: HostNewTree::new(rt),
        failed: &unmade,
    };
    let mut making = Extract::new(rt.alloc(), tree);
    let mut pack = Some(Shown::new(HostPack::new(rt, names), &progress, Counted::Packed));
    let mut door = TcpDoor::new(rt);
    let exchange = Exchange::new(rt, env::args(&rt));
    let mut dial = TcpDial::new(NotedNet {
        inner: rt,
        exchange: &exchange,
    });
    let mut input = Shown::new(StdSource::new(rt.stdin()), &progress, Counted::Taken);
    let mut out = Shown::new(StdSink::new(rt.stdout()), &progress, Counted::Put);
    let mut err = Clearing {
        inner: StdSink::new(rt.stderr()),
        progress: &progress,
    };
    let status = answer(
        rt.alloc(),
        holds_streams(&rt),
        env::args(&rt),
        &mut folder,
        &mut pack,
        &mut making,
        &mut door,
        &mut dial,
        &mut input,
        &mut out,
        &mut err,
        &mut Watching {
            progress: &progress,
        },
    );
    progress.clear();
    match status {
        NO_COMMAND => progress.hint(),
        NOT_ASKED => progress.tell(type_line(rt.alloc(), &exchange)),
        OTHER_STATUS => progress.tell(redirect_line(rt.alloc(), &exchange)),
        PEER_FAILED => progress.tell_why(dial.why(), exchange.broken()),
        OBJECT_FAILED => {
            progress.tell_entry(unread.take(), b"read");
            progress.tell_entry(unmade.take(), b"made");
        }
        _ => {}
    }
    ExitCode::from(status)
}

/// Does what the arguments behind the first ask for, over these objects, and answers the exit status: that of `run`; or 6
/// where a standard stream is missing and isn't `held`, and only there, or 8 where no memory is found for the words, and
/// then all objects are as they were. Arguments that aren't UTF-8 are no command. A status other than 0 puts one line on
/// err, and a fault of err changes nothing else. The line of progress isn't put into `err`: it goes straight to the host's err,
/// and no clause speaks of it.
fn answer<
    F: Folder,
    P: Pack,
    N: NewTree + Drop,
    L: Door,
    D: Dial,
    I: Source,
    O: Sink,
    E: Sink,
    W: Watch + SwarmWatch,
>(
    alloc: Global,
    held: bool,
    args: io::Result<Args>,
    folder: &mut F,
    pack: &mut Option<P>,
    making: &mut Extract<N>,
    door: &mut L,
    dial: &mut D,
    input: &mut I,
    out: &mut O,
    err: &mut E,
    watch: &mut W,
) -> u8
where
    D::Link: Drop,
    requires { IsSome pack.old }
    ensures ran { IsTrue held → IfOk args (λ given. Runs (record {
      words = map string_bytes (drop 1 (into_iter_items given));
      objects = objects_between F.folder P.pack N.new_tree L.door L.Link.link D.dial I.source O.sink
          folder.old folder.new pack.old pack.new making.old making.new door.old door.new dial.old dial.new input.old input.new out.old out.new;
      err = into E.sink err.old err.new;
      status = result;
    }) ⊎ ((result ≡ 8) × IsUnrun (objects_between F.folder P.pack N.new_tree L.door L.Link.link D.dial I.source O.sink
        folder.old folder.new pack.old pack.new making.old making.new door.old door.new dial.old dial.new input.old input.new out.old out.new)
        (into E.sink err.old err.new) result)) }
    ensures no_words { IsTrue held → IfErr args (λ fault. Runs (record {
      words = [];
      objects = objects_between F.folder P.pack N.new_tree L.door L.Link.link D.dial I.source O.sink
          folder.old folder.new pack.old pack.new making.old making.new door.old door.new dial.old dial.new input.old input.new out.old out.new;
      err = into E.sink err.old err.new;
      status = result;
    }) ⊎ ((result ≡ 8) × IsUnrun (objects_between F.folder P.pack N.new_tree L.door L.Link.link D.dial I.source O.sink
        folder.old folder.new pack.old pack.new making.old making.new door.old door.new dial.old dial.new input.old input.new out.old out.new)
        (into E.sink err.old err.new) result)) }
    ensures unheld { held ≡ false → (result ≡ 6) × IsUnrun (objects_between F.folder P.pack N.new_tree L.door L.Link.link D.dial I.source
        O.sink folder.old folder.new pack.old pack.new making.old making.new door.old door.new dial.old dial.new input.old input.new out.old out.new)
        (into E.sink err.old err.new) result }
{
    if !held {
        return no_streams(err);
    }
    match words(alloc, args) {
        Ok(words) => run(
            alloc,
            words.as_slice(),
            folder,
            pack,
            making,
            door,
            dial,
            input,
            out,
            err,
            watch,
        ),
        Err(AllocError) => out_of_memory(err),
    }
}

/// The words behind the first argument, which is the program's name, and none where the arguments aren't UTF-8: neither
/// is a command. The error is want of memory.
fn words(alloc: Global, args: io::Result<Args>) -> Result<Vec<String>, AllocError>
    ensures words { IfOk args (λ given. IfOk result (λ words. words.items ≡ drop 1 (into_iter_items given))) }
    ensures none { IfErr args (λ fault. IfOk result (λ words. words.items ≡ [])) }
{
    match args {
        Ok(args) => behind_first(alloc, args),
        Err(fault) if fault.kind() == ErrorKind::OutOfMemory => Err(AllocError),
        Err(_) => Ok(Vec::new(alloc)),
    }
}

/// The arguments behind the first. The error is want of memory.
fn behind_first(alloc: Global, args: Args) -> Result<Vec<String>, AllocError>
    ensures { IfOk result (λ words. words.items ≡ drop 1 (into_iter_items args)) }
{
    args.skip(1).collect(alloc)
}

/// Sees to it that no file which the program opens is taken for a standard stream: where the program was started
/// without one, its number is held from now to the program's end. `false` where one is missing and can't be held.
fn holds_streams(rt: &HostRuntime) -> bool {
    match file_above_streams(rt) {
        Ok(_above) => true,
        Err(_) => is_open(&rt.stdin()) && is_open(&rt.stdout()) && is_open(&rt.stderr()),
    }
}

/// A file whose number is above those of the standard streams. An opened file gets the lowest number that is free
/// (POSIX.1-2017, 2.14), so none of theirs is free then. The number of one that was missing is held by the root folder,
/// open for reading, so that a write there fails, and so does a read, since it is a folder. Errors: those of opening
/// the root folder.
fn file_above_streams(rt: &HostRuntime) -> io::Result<File>
    ensures above { IfOk result (λ file. pos 3 ≤ℤ file_raw_fd file) }
{
    for _ in 0..=STREAMS {
        let file = File::open(rt, "/")?;
        if file.as_raw_fd() >= STREAMS {
            return Ok(file);
        }
        let _held = file.into_raw_fd();
    }
    Err(io::Error::from(ErrorKind::Unsupported))
}

/// Whether the stream's number is one of an open file: only then it can be doubled.
fn is_open<S: AsFd>(stream: &S) -> bool {
    stream.as_fd().try_clone_to_owned().is_ok()
}

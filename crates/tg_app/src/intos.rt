//! `fetch` and `verify` with `--into`.
ghost use Rattle.std.specs.Prelude.{◌≡◌, ◌≢◌, ◌⊎◌, None};
ghost use Rattle.tg_app.specs.Intos.{FetchIntoAnswers, IntoEnds, IsStopRefusal, VerifyIntoAnswers, counts_line};
ghost use Rattle.tg_app.specs.Makings.{making_between};
ghost use Rattle.tg_app.specs.Objects.{dial_between};
ghost use Rattle.tg_commands.specs.Imports.{path_text};
ghost use Rattle.tg_commands.specs.Lines.{PutEnds, end_of};
ghost use Rattle.tg_commands.specs.declared.fault.CommandFault.{CommandFault};
ghost use Rattle.tg_query.specs.Requests.{IsAddr};
ghost use Rattle.tg_streams.specs.Streams.{into, through};

use crate::fetching::refusal_of_fetch;
use itoa::Buffer;
use std::alloc::{AllocError, Global};
use tg_bytes::Bytes;
use tg_client::verify_car_telling;
use tg_commands::CommandFault;
use tg_commands::import::path_text;
use tg_commands::verify::refusal_of;
use tg_dials::Dial;
use tg_extract::{Counts, Extract, ExtractFault, TellExtract};
use tg_faults::Failed;
use tg_fetch::{Watch, fetch_telling};
use tg_model::{DropKeep, Limits};
use tg_new_tree::NewTree;
use tg_streams::{Sink, Source, put_pieces};
use tg_words::{FetchInto, VerifyInto};

/// `fetch` with `--into`: all below a path is fetched from a gateway, and made into a folder, or a file, as it comes; and out is told what
/// was made. `watch` is told how far it has come.
pub fn fetch_into<D: Dial, N: NewTree + Drop, O: Sink, W: Watch>(
    alloc: Global,
    asked: &FetchInto,
    dial: &mut D,
    making: &mut Extract<N>,
    out: &mut O,
    watch: &mut W,
) -> Result<(), CommandFault>
    requires { IsAddr asked.now.addr }
    ensures { FetchIntoAnswers asked.now (dial_between D.dial dial.old dial.new)
        (making_between N.new_tree making.old making.new) (into O.sink out.old out.new) (end_of result) }
{
    let Ok(()) = making.begin(asked.folder.as_str()) else {
        return Err(CommandFault::FolderFault);
    };
    let fetched = fetch_telling(
        alloc,
        &asked.query,
        Limits::standard(),
        asked.addr.as_str(),
        dial,
        &mut DropKeep::new(),
        making,
        &TellExtract,
        watch,
    );
    let finished = making.finish();
    match fetched {
        Ok(()) => tell_made(alloc, finished, making, out),
        Err(fault) => Err(refusal_into(alloc, refusal_of_fetch(alloc, fault), making)),
    }
}

/// `verify` with `--into`: the input is verified to be a CAR of all below a path, which is made into a folder, or a file, as it comes; and
/// out is told what was made.
pub fn verify_into<I: Source, N: NewTree + Drop, O: Sink>(
    alloc: Global,
    asked: &VerifyInto,
    input: &mut I,
    making: &mut Extract<N>,
    out: &mut O,
) -> Result<(), CommandFault>
    ensures { VerifyIntoAnswers asked.now (through I.source input.old input.new)
        (making_between N.new_tree making.old making.new) (into O.sink out.old out.new) (end_of result) }
{
    let Ok(()) = making.begin(asked.folder.as_str()) else {
        return Err(CommandFault::FolderFault);
    };
    let verified = verify_car_telling(
        alloc,
        &asked.query,
        Limits::standard(),
        input,
        making,
        &TellExtract,
    );
    let finished = making.finish();
    match verified {
        Ok(()) => tell_made(alloc, finished, making, out),
        Err(fault) => Err(refusal_into(alloc, refusal_of(alloc, fault), making)),
    }
}

/// Tells out what was made, where nothing stopped it. Errors: that of `stop_refusal`; `SinkFault`, of out.
fn tell_made<N: NewTree + Drop, O: Sink>(
    alloc: Global,
    finished: Result<(), Failed>,
    making: &Extract<N>,
    out: &mut O,
) -> Result<(), CommandFault>
    ensures { IntoEnds N.new_tree making.now None finished (into O.sink out.old out.new) (end_of result) }
{
    match finished {
        Ok(()) => put_counts(making.counts(), out),
        Err(Failed) => Err(stop_refusal(alloc, making)),
    }
}

/// The refusal where an answer was refused by this one: where out, which was the extract, failed, why that stopped.
fn refusal_into<N: NewTree + Drop>(
    alloc: Global,
    refusal: CommandFault,
    making: &Extract<N>,
) -> CommandFault
    ensures stopped { refusal ≡ CommandFault.SinkFault → IsStopRefusal making.now.stage making.now.refused result }
    ensures other { refusal ≢ CommandFault.SinkFault → result ≡ refusal }
{
    match refusal {
        CommandFault::SinkFault => stop_refusal(alloc, making),
        refusal => refusal,
    }
}

/// Why an extract stopped. `OutOfMemory` also for want of memory for the text of a path.
fn stop_refusal<N: NewTree + Drop>(alloc: Global, making: &Extract<N>) -> CommandFault
    ensures { IsStopRefusal making.now.stage making.now.refused result }
{
    match making.refusal() {
        Some(ExtractFault::Tree) => CommandFault::FolderFault,
        Some(ExtractFault::NotPlain) => match making.link() {
            Some(path) => link_refusal(alloc, path),
            None => unreachable!(),
        },
        Some(ExtractFault::BadText) => CommandFault::TooDeep,
        Some(ExtractFault::OutOfMemory) => CommandFault::OutOfMemory,
        None => CommandFault::SinkFault,
    }
}

/// The refusal of a symbolic link at a path, or want of memory for its text.
fn link_refusal(alloc: Global, path: &[Bytes]) -> CommandFault
    ensures { (result ≡ CommandFault.NotPlain (path_text path.now)) ⊎ (result ≡ CommandFault.OutOfMemory) }
{
    match path_text(alloc, path) {
        Ok(path) => CommandFault::NotPlain { path },
        Err(AllocError) => CommandFault::OutOfMemory,
    }
}

/// Puts the line that tells how much was made. The error is `SinkFault`.
fn put_counts<O: Sink>(counts: Counts, out: &mut O) -> Result<(), CommandFault>
    ensures { PutEnds (counts_line counts) (into O.sink out.old out.new) (end_of result) }
{
    let mut files = Buffer::new();
    let mut folders = Buffer::new();
    let mut bytes = Buffer::new();
    let put = put_pieces(
        out,
        &[
            b"files ",
            files.format(counts.files).as_bytes(),
            b" folders ",
            folders.format(counts.folders).as_bytes(),
            b" bytes ",
            bytes.format(counts.bytes).as_bytes(),
            b"\n",
        ],
    );
    match put {
        Ok(()) => Ok(()),
        Err(Failed) => Err(CommandFault::SinkFault),
    }
}

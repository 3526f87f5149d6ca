//! The top call.
ghost use Rattle.std.specs.Prelude.{◌≡◌, IsSome, map, string_bytes};
ghost use Rattle.tg_streams.specs.Streams.{into};
ghost use Rattle.tg_app.specs.Commands.{Ends};
ghost use Rattle.tg_commands.specs.Lines.{Says, end_of, exit_status};
ghost use Rattle.tg_app.specs.Objects.{objects_between};
ghost use Rattle.tg_app.specs.Runs.{Run, Runs};
ghost use Rattle.tg_commands.specs.declared.fault.CommandFault.{CommandFault};

use crate::audit::audit_build;
use crate::fetching::fetch_answer;
use crate::intos::{fetch_into, verify_into};
use crate::mirroring::mirror_dag;
use crate::serve::serve;
use crate::swarming::swarm_file;
use std::alloc::Global;
use tg_commands::CommandFault;
use tg_commands::check::check;
use tg_commands::cid::{cid_to_hex, cid_to_text};
use tg_commands::export::export;
use tg_commands::help::{help, version};
use tg_commands::import::import;
use tg_commands::node::node;
use tg_commands::verify::verify;
use tg_dials::Dial;
use tg_doors::Door;
use tg_extract::Extract;
use tg_fetch::Watch;
use tg_files::{Folder, Pack};
use tg_new_tree::NewTree;
use tg_streams::{Sink, Source};
use tg_swarming::SwarmWatch;
use tg_words::Command;

/// Does what the words ask for, the words being those after the program's name, and answers the exit status.
///
/// 0 the command is done; 2 the words are no command; 3 the block on input isn't the CID's, or `node` finds a fault in
/// it, or the CAR on input isn't what `verify` asks for, or a reply isn't what `fetch` or `mirror` asks for, or the root of
/// `swarm` has no kind, or `audit` has another answer than it expects; 4 the reply to `fetch` or `mirror` has another status than
/// 200; 5 a fault of the door, of the dial or of a link was counted; 6 a fault of the folder, of the pack, of the input or of out was counted,
/// or the pack's or the folder's content is refused, or a stored block has changed, or of a tree that `--into` makes a symbolic link comes; 7 a limit is passed: a block of more
/// than 2,097,152 bytes, a block more than 512 deep, an input or a link of more than 2^40 bytes, one of `verify`'s other
/// limits, a folder on level 33, a name of more than 255 bytes, a file or a folder that is too large, or of a tree that `--into` makes a path
/// of more than 128 names; 8 want of memory;
/// 9 the path of an `export` or of a `verify` leads nowhere, or that of a `fetch`, or the root of `swarm` is no file. A `swarm` of which
/// each gateway was refused has the status of `fetch` for the first refusal. A status other than 6 says that no
/// fault of the input or of out was counted. A status other than 0 puts one line on err, and a fault of err changes
/// nothing else.
///
/// `watch` is told how far a `fetch`, a `mirror` or a `swarm` has come, that one of the first two has ended before its line is put,
/// and which gateway a `swarm` refused; it has no part in what is said here.
///
/// `making` is an extract into a tree, which `fetch` and `verify` with `--into` begin and make; every other command leaves it as it was.
///
/// What each status says stands in `Runs`: a record for the words, and one for each command, whose last field for
/// `verify` and for `fetch` is the answer that every sound DAG vouches for.
pub fn run<
    F: Folder,
    P: Pack,
    N: NewTree + Drop,
    L: Door,
    D: Dial,
    I: Source,
    O: Sink,
    E: Sink,
    W: Watch + SwarmWatch,
>(
    alloc: Global,
    words: &[String],
    folder: &mut F,
    pack: &mut Option<P>,
    making: &mut Extract<N>,
    door: &mut L,
    dial: &mut D,
    input: &mut I,
    out: &mut O,
    err: &mut E,
    watch: &mut W,
) -> u8
where
    D::Link: Drop,
    // The pack is there, and is given back, as the command left it.
    requires pack { IsSome pack.old }
    ensures back { IsSome pack.new }

    ensures runs { Runs (record {
      words = map string_bytes words.now;
      objects = objects_between F.folder P.pack N.new_tree L.door L.Link.link D.dial I.source O.sink
          folder.old folder.new pack.old pack.new making.old making.new door.old door.new dial.old dial.new input.old input.new out.old out.new;
      err = into E.sink err.old err.new;
      status = result;
    }) }
{
    tg_client::laws::received_sections();
    tg_extract::made_answers();
    tg_model::laws::readings();
    tg_model_laws::cut_traversals();
    tg_model_laws::one_fit();
    tg_model_laws::own_sections();
    tg_model_laws::paths();
    tg_model_laws::traversals();
    tg_store::laws::finished_packs::<P>();
    tg_store::laws::one_cause();
    tg_model_laws::beside_dags();
    tg_parts::own_blocks();
    tg_model_laws::store_walks();
    tg_model_laws::verified_sections();
    tg_verify::laws::verified_answers();
    let end = command(
        alloc, words, folder, pack, making, door, dial, input, out, watch,
    );
    tell(&end, err)
}

/// Does what the words ask for.
fn command<
    F: Folder,
    P: Pack,
    N: NewTree + Drop,
    L: Door,
    D: Dial,
    I: Source,
    O: Sink,
    W: Watch + SwarmWatch,
>(
    alloc: Global,
    words: &[String],
    folder: &mut F,
    pack: &mut Option<P>,
    making: &mut Extract<N>,
    door: &mut L,
    dial: &mut D,
    input: &mut I,
    out: &mut O,
    watch: &mut W,
) -> Result<(), CommandFault>
where
    D::Link: Drop,
    requires { IsSome pack.old }
    ensures back { IsSome pack.new }
    ensures ends { Ends (map string_bytes words.now)
        (objects_between F.folder P.pack N.new_tree L.door L.Link.link D.dial I.source O.sink
        folder.old folder.new pack.old pack.new making.old making.new door.old door.new dial.old dial.new input.old input.new out.old out.new)
        (end_of result) }
{
    match tg_words::read(alloc, words)? {
        Command::Check(cid) => check(alloc, &cid, input, out),
        Command::Node(cid) => node(alloc, &cid, input, out),
        Command::CidToHex(cid) => cid_to_hex(alloc, &cid, out),
        Command::CidToText(cid) => cid_to_text(alloc, &cid, out),
        Command::Export(asked) => export(alloc, &asked, pack, out),
        Command::Import(asked) => import(alloc, &asked, folder, pack, out),
        Command::Verify(query) => verify(alloc, &query, input, out),
        Command::VerifyInto(asked) => verify_into(alloc, &asked, input, making, out),
        Command::Serve(asked) => serve(alloc, &asked, pack, door, out),
        Command::Fetch(asked) => fetch_answer(alloc, &asked, dial, out, watch),
        Command::FetchInto(asked) => fetch_into(alloc, &asked, dial, making, out, watch),
        Command::Mirror(asked) => mirror_dag(alloc, &asked, pack, dial, out, watch),
        Command::Swarm(asked) => swarm_file(alloc, &asked, dial, out, watch),
        Command::Audit(asked) => audit_build(alloc, &asked, out),
        Command::Help(topic) => help(alloc, topic, out),
        Command::Version => version(out),
    }
}

/// Says on err why a command was refused, and answers the exit status. A fault of err changes nothing.
fn tell<E: Sink>(end: &Result<(), CommandFault>, err: &mut E) -> u8
    ensures status { result ≡ exit_status (end_of end.now) }
    ensures line { Says (end_of end.now) (into E.sink err.old err.new) }
{
    match end {
        Ok(()) => 0,
        Err(refusal) => {
            let _ = refusal.report(err);
            refusal.status()
        }
    }
}

/// Says on err that no memory was found for the words, and answers the exit status 8.
pub fn out_of_memory<E: Sink>(err: &mut E) -> u8
    ensures status { result ≡ 8 }
    ensures line { Says (Some CommandFault.OutOfMemory) (into E.sink err.old err.new) }
{
    let _ = CommandFault::OutOfMemory.report(err);
    CommandFault::OutOfMemory.status()
}

/// Says on err that a standard stream is missing and can't be held, and answers the exit status 6.
pub fn no_streams<E: Sink>(err: &mut E) -> u8
    ensures status { result ≡ 6 }
    ensures line { Says (Some CommandFault.FolderFault) (into E.sink err.old err.new) }
{
    let fault = CommandFault::FolderFault;
    let _ = fault.report(err);
    fault.status()
}

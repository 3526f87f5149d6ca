//! The program's top call over streams, a folder, a pack, a tree, a door and a dial in memory.
ghost use Rattle.std.specs.Option.{IsSome};
ghost use Rattle.std.specs.Prelude.{◌<◌};

use crate::setup::{Object, Setup};
use crate::waiting::WaitingDial;
use std::alloc::Global;
use tg_app::run;
use tg_bytes::{Bytes, List};
use tg_dials::MemDial;
use tg_doors::MemDoor;
use tg_extract::Extract;
use tg_fetch::Unwatched;
use tg_files::{MemFolder, MemPack, Pack};
use tg_links::Call;
use tg_new_tree::{Made, MemNewTree};
use tg_streams::{MemSink, MemSource};
use tg_test_packs::ChangingPack;
use tg_tree::{Sort, Tree};

/// How many bytes a pack that changes gives at once, at most.
const MOST_AT_ONCE: usize = 65_536;

/// The door, the dial and the streams of a run.
#[derive(Drop)]
struct Streams {
    door: MemDoor,
    dial: WaitingDial,
    input: MemSource,
    out: MemSink,
    err: MemSink,
}

/// What a run left: its status, its objects as they are then, what the pack held before, and how many calls of the
/// folder failed.
#[derive(Drop)]
pub struct Ran {
    pub alloc: Global,
    pub status: u8,
    pub before: Bytes,
    streams: Streams,
    pack: Option<MemPack>,
    making: Extract<MemNewTree>,
    folder_faults: u64,
}

impl Ran {
    /// What stands on out.
    pub fn out(&self) -> &[u8] {
        self.streams.out.held()
    }

    /// What stands on err.
    pub fn err(&self) -> &[u8] {
        self.streams.err.held()
    }

    /// What the pack holds; none where that isn't told.
    pub fn pack(&self) -> Option<&[u8]> {
        match &self.pack {
            Some(pack) => pack.content(),
            None => None,
        }
    }

    /// What was made in the tree, in order.
    pub fn made(&self) -> &[Made] {
        self.making.tree().made()
    }

    /// What went through the links of the door that were given back; none where that isn't told.
    pub fn served(&self) -> Option<&List<Call>> {
        self.streams.door.served()
    }

    /// What went through the links of the dial that were given back; none where that isn't told.
    pub fn dialled(&self) -> Option<&List<Call>> {
        self.streams.dial.inner.calls()
    }

    /// How many calls of an object failed, of the door and of the dial those of their links too.
    pub fn faults(&self, object: Object) -> u64 {
        match object {
            Object::Folder => self.folder_faults,
            Object::Pack => self.pack_faults(),
            Object::Tree => self.making.tree().count(),
            Object::Input => self.streams.input.count(),
            Object::Out => self.streams.out.count(),
            Object::Err => self.streams.err.count(),
            Object::Door => self.streams.door.count(),
            Object::Dial => self.streams.dial.inner.count(),
        }
    }

    fn pack_faults(&self) -> u64 {
        match &self.pack {
            Some(pack) => pack.count(),
            None => 0,
        }
    }
}

/// Runs what is given, by pieces of this size, and takes it. There is nothing where two names in a folder are the same, or
/// for want of memory.
pub fn run_setup(alloc: Global, setup: &mut Setup, piece: usize) -> Option<Ran> {
    let tree = setup.take_folder();
    let fails = setup.numbers(Object::Folder);
    match folder_of(alloc, tree, fails) {
        Some(mut folder) => run_over(alloc, setup, &mut folder, piece.max(1)),
        None => None,
    }
}

/// The same over a pack that tells nothing, of which the byte at this place changes once it was read to its end.
pub fn run_changing(alloc: Global, setup: &mut Setup, place: u64, piece: usize) -> Option<Ran> {
    let tree = setup.take_folder();
    let fails = setup.numbers(Object::Folder);
    match folder_of(alloc, tree, fails) {
        Some(mut folder) => change_under(alloc, setup, place, &mut folder, piece.max(1)),
        None => None,
    }
}

/// The folder of a tree whose names differ.
fn folder_of(alloc: Global, tree: Tree, fails: List<u64>) -> Option<MemFolder> {
    if tree.sort() != Sort::Folder || !tree.names_differ() {
        return None;
    }
    Some(MemFolder::new(alloc, tree, fails))
}

/// The extract into a tree in memory, whose calls that are given fail.
fn making_of(alloc: Global, setup: &mut Setup) -> Extract<MemNewTree> {
    let fails = setup.numbers(Object::Tree);
    Extract::new(alloc, MemNewTree::new(alloc, fails))
}

/// The door, the dial and the streams that are given.
fn streams_of(alloc: Global, setup: &mut Setup, piece: usize) -> Streams
    requires { 0 < piece }
{
    let links = setup.take_links();
    let door_fails = setup.numbers(Object::Door);
    let replies = setup.take_replies();
    let dial_fails = setup.numbers(Object::Dial);
    let input = setup.take_input();
    let input_fails = setup.numbers(Object::Input);
    let out_fails = setup.numbers(Object::Out);
    let err_fails = setup.numbers(Object::Err);
    Streams {
        door: MemDoor::new(alloc, links, piece, door_fails),
        dial: WaitingDial {
            inner: MemDial::new(alloc, replies, piece, dial_fails),
            ready: setup.is_ready(),
        },
        input: MemSource::new(input, piece, input_fails),
        out: MemSink::new(alloc, piece, out_fails),
        err: MemSink::new(alloc, piece, err_fails),
    }
}

/// Runs what is given over a folder.
fn run_over(alloc: Global, setup: &mut Setup, folder: &mut MemFolder, piece: usize) -> Option<Ran>
    requires { 0 < piece }
{
    let mut streams = streams_of(alloc, setup, piece);
    let content = setup.take_pack();
    let pack_fails = setup.numbers(Object::Pack);
    let Ok(before) = Bytes::of(alloc, content.as_slice()) else {
        return None;
    };
    let mut pack = Some(MemPack::new(content, pack_fails));
    let mut making = making_of(alloc, setup);
    let status = status_of(
        alloc,
        setup.words(),
        folder,
        &mut pack,
        &mut making,
        &mut streams,
    );
    if setup.fault().is_some() {
        return None;
    }
    Some(Ran {
        alloc,
        status,
        before,
        streams,
        pack,
        making,
        folder_faults: folder.count(),
    })
}

/// Runs what is given over a folder and a pack that changes.
fn change_under(
    alloc: Global,
    setup: &mut Setup,
    place: u64,
    folder: &mut MemFolder,
    piece: usize,
) -> Option<Ran>
    requires { 0 < piece }
{
    let mut streams = streams_of(alloc, setup, piece);
    let content = setup.take_pack();
    let mut pack = Some(ChangingPack::new(alloc, content, place, MOST_AT_ONCE));
    let mut making = making_of(alloc, setup);
    let status = status_of(
        alloc,
        setup.words(),
        folder,
        &mut pack,
        &mut making,
        &mut streams,
    );
    if setup.fault().is_some() {
        return None;
    }
    Some(Ran {
        alloc,
        status,
        before: Bytes::new(alloc),
        streams,
        pack: None,
        making,
        folder_faults: folder.count(),
    })
}

/// The status of a run of these words.
fn status_of<P: Pack>(
    alloc: Global,
    words: &[String],
    folder: &mut MemFolder,
    pack: &mut Option<P>,
    making: &mut Extract<MemNewTree>,
    streams: &mut Streams,
) -> u8
    requires { IsSome pack.old }
{
    run(
        alloc,
        words,
        folder,
        pack,
        making,
        &mut streams.door,
        &mut streams.dial,
        &mut streams.input,
        &mut streams.out,
        &mut streams.err,
        &mut Unwatched,
    )
}

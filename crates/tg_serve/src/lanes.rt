//! Links that come through a door, served side by side over one store, each in a lane.
ghost use Rattle.std.specs.Prelude.{◌≡◌, ◌<◌, ◌≤◌, ◌⊎◌, [], IfOk, IsTrue, false, length, replicate, slice_get, slice_set, true, ℕ};
ghost use Rattle.tg_doors.specs.Doors.{IsDone, KeepsComing, KeepsPort, KeepsShut, at_door};
ghost use Rattle.tg_links.specs.Views.{view_of};
ghost use Rattle.tg_model.specs.Stores.{looked_in};
ghost use Rattle.tg_serve.specs.Serving.{HasHappened, LinksTell};
ghost use Rattle.tg_serve.specs.SideBySide.{ServesLanes};
ghost use Rattle.tg_serve.specs.Turns.{AreLanes, AreNew, GoOn, HappensWith, MayGoOn, busy_in, moment_of};
ghost use Rattle.tg_walk.specs.Walks.{HaveLookedUp};

use crate::Happened;
use std::alloc::{AllocError, Global};
use tg_bytes::zeros;
use tg_doors::Door;
use tg_gateway::{GatewayFault, Next, Served};
use tg_lanes::{Lanes, hear};
use tg_model::Blocks;

/// How many bytes are taken from a link at once: 16 KiB.
const PIECE: usize = 16_384;

/// What lanes hold while links are served in them.
#[derive(Drop)]
pub struct Turns<K> {
    /// The link of each lane that has one.
    pub(crate) links: Vec<Option<K>>,
    /// Which lanes the door marked last.
    pub(crate) ready: Vec<bool>,
    /// Where pieces are taken into.
    pub(crate) room: Vec<u8>,
    /// How many lanes have a link.
    pub(crate) busy: usize,
    /// How many links may still be admitted.
    pub(crate) left: u32,
    /// What happened so far.
    pub(crate) happened: Happened,
}

impl<K: Drop> Turns<K> {
    /// So many lanes without a link, 1 to 64, into which so many links may be admitted. The error is want of memory.
    pub fn new(alloc: Global, lanes: u32, count: u32) -> Result<Turns<K>, AllocError>
        ensures links { IfOk result (λ turns. turns.links.items ≡ replicate lanes None) }
        ensures ready { IfOk result (λ turns. length turns.ready.items ≡ lanes) }
        ensures room { IfOk result (λ turns. 0 < length turns.room.items) }
        ensures busy { IfOk result (λ turns. turns.busy ≡ 0) }
        ensures left { IfOk result (λ turns. turns.left ≡ count) }
        ensures happened { IfOk result (λ turns. HasHappened [] false turns.happened) }
    {
        let ready = vec![in alloc; false; lanes as usize]?;
        let room = zeros(alloc, PIECE)?;
        Ok(Turns {
            links: free_lanes(alloc, lanes)?,
            ready,
            room,
            busy: 0,
            left: count,
            happened: Happened::nothing(),
        })
    }

    /// Whether the lane, which is there, has no link.
    fn is_free(&self, lane: usize) -> bool
        requires { lane < length self.now.links.items }
        ensures free { IsTrue result → slice_get self.now.links.items lane ≡ Some None }
        ensures busy { result ≡ false → slice_get self.now.links.items lane ≡ Some None → ⊥ }
    {
        self.links[lane].is_none()
    }

    /// The link of the lane, which has none behind it.
    fn take_link(&mut self, lane: usize) -> Option<K>
        requires lane { lane < length self.old.links.items }
        requires busy { self.old.busy ≡ busy_in self.old.links.items }
        ensures taken { slice_get self.old.links.items lane ≡ Some result }
        ensures links { self.new.links.items ≡ slice_set self.old.links.items lane None }
        ensures none { result ≡ None → self.new.links.items ≡ self.old.links.items }
        ensures others { self.new ≡ record self.old { links = self.new.links; busy = self.new.busy } }
        ensures busy { self.new.busy ≡ busy_in self.new.links.items }
    {
        let link = self.links[lane].take();
        if link.is_some() {
            self.busy -= 1;
        }
        link
    }

    /// Gives a link to the lane, which has none.
    fn put_link(&mut self, lane: usize, link: K)
        requires free { slice_get self.old.links.items lane ≡ Some None }
        requires most { length self.old.links.items ≤ 64 }
        requires busy { self.old.busy ≡ busy_in self.old.links.items }
        ensures links { self.new.links.items ≡ slice_set self.old.links.items lane (Some link) }
        ensures others { self.new ≡ record self.old { links = self.new.links; busy = self.new.busy } }
        ensures busy { self.new.busy ≡ busy_in self.new.links.items }
    {
        self.links[lane] = Some(link);
        self.busy += 1;
    }
}

/// So many lanes without a link. The error is want of memory.
fn free_lanes<K: Drop>(alloc: Global, lanes: u32) -> Result<Vec<Option<K>>, AllocError>
    ensures { IfOk result (λ links. links.items ≡ replicate lanes None) }
{
    let mut links = Vec::new(alloc);
    for _ in 0..lanes {
        links.push(None)?;
    }
    Ok(links)
}

/// Serves so many links in lanes, or fewer where the door gives no more or fails: each by a session of its own, behind
/// which it is given back. A link's fault, or what its session refuses, ends that link alone. Links are admitted into free
/// lanes, in the order of these; of the links that the door marks a piece is taken in each turn, and of all links where it
/// marks none.
///
/// RFC 9112, section 9.3.
pub fn serve_lanes<B: Blocks, L: Door>(
    lanes: &mut Lanes<B>,
    turns: Turns<L::Link>,
    door: &mut L,
) -> Happened
    requires { AreNew lanes.old.sessions lanes.old.most turns.links.items turns.busy (length turns.ready.items)
        (length turns.room.items) turns.happened }
    ensures serves { ServesLanes (B.blocks.stored lanes.old.blocks) lanes.old.most turns.left (length lanes.old.sessions)
        (LinksTell L.Link.link) (B.blocks.faults lanes.old.blocks) (B.blocks.faults lanes.new.blocks)
        (at_door L.door door.old door.new) result }
    ensures asks { (before : L) (asked : ℕ) → L.door.asked before door.old asked → L.door.asked before door.new asked }
    ensures looked { HaveLookedUp (looked_in B.blocks lanes.old.blocks lanes.new.blocks) }
{
    tg_lanes::laws::lanes_begin();
    let mut turns = turns;
    while turns.left > 0 || turns.busy > 0 {
        turn(lanes, &mut turns, door);
    }
    turns.happened
}

/// One turn: the door is waited for; links that come are admitted into free lanes, one at least where no lane has a link;
/// and of each link that the door marked a piece is taken, or of all links where nothing came and none was marked.
fn turn<B: Blocks, L: Door>(lanes: &mut Lanes<B>, turns: &mut Turns<L::Link>, door: &mut L)
    requires lanes { AreLanes turns.old.links.items (length lanes.old.sessions) turns.old.busy (length turns.old.ready.items)
        (length turns.old.room.items) }
    requires going { (0 < turns.old.left) ⊎ (0 < turns.old.busy) }
    ensures lanes { AreLanes turns.new.links.items (length lanes.new.sessions) turns.new.busy (length turns.new.ready.items)
        (length turns.new.room.items) }
    ensures number { length turns.new.links.items ≡ length turns.old.links.items }
    ensures most { lanes.new.most ≡ lanes.old.most }
    ensures goes { GoOn L.door L.Link.link L.Link.Source.source (B.blocks.stored lanes.old.blocks) lanes.old.most
        (moment_of B.blocks lanes.old turns.old.links.items turns.old.left turns.old.happened door.old)
        (moment_of B.blocks lanes.new turns.new.links.items turns.new.left turns.new.happened door.new) }
    ensures asks { (before : L) (asked : ℕ) → L.door.asked before door.old asked → L.door.asked before door.new asked }
    ensures looked { HaveLookedUp (looked_in B.blocks lanes.old.blocks lanes.new.blocks) }
{
    let admits = turns.left > 0 && turns.busy < turns.links.len();
    let coming = door.wait(turns.links.as_slice(), admits, turns.ready.as_mut_slice());
    let least = usize::from(turns.busy == 0);
    let came = admit_links(lanes, turns, door, coming.max(least));
    let heard = hear_links(lanes, turns, door, false);
    let went_on = came | heard;
    if !went_on {
        hear_links(lanes, turns, door, true);
    }
}

/// Admits at most so many links into free lanes, in the order of these, and says whether it tried.
fn admit_links<B: Blocks, L: Door>(
    lanes: &mut Lanes<B>,
    turns: &mut Turns<L::Link>,
    door: &mut L,
    most: usize,
) -> bool
    requires lanes { AreLanes turns.old.links.items (length lanes.old.sessions) turns.old.busy (length turns.old.ready.items)
        (length turns.old.room.items) }
    ensures lanes { AreLanes turns.new.links.items (length lanes.new.sessions) turns.new.busy (length turns.new.ready.items)
        (length turns.new.room.items) }
    ensures number { length turns.new.links.items ≡ length turns.old.links.items }
    ensures most { lanes.new.most ≡ lanes.old.most }
    ensures blocks { lanes.new.blocks ≡ lanes.old.blocks }
    ensures goes { MayGoOn L.door L.Link.link L.Link.Source.source (B.blocks.stored lanes.old.blocks) lanes.old.most result
        (moment_of B.blocks lanes.old turns.old.links.items turns.old.left turns.old.happened door.old)
        (moment_of B.blocks lanes.new turns.new.links.items turns.new.left turns.new.happened door.new) }
    ensures tries { 0 < most → 0 < turns.old.left → turns.old.busy < length turns.old.links.items → result ≡ true }
    ensures busy { result ≡ false → turns.new.busy ≡ turns.old.busy }
    ensures asks { (before : L) (asked : ℕ) → L.door.asked before door.old asked → L.door.asked before door.new asked }
{
    let mut came = false;
    let mut left = most;
    for lane in 0..turns.links.len() {
        if left == 0 || turns.left == 0 {
            return came;
        }
        if turns.is_free(lane) {
            admit_into(lanes, turns, door, lane);
            came = true;
            left -= 1;
        }
    }
    came
}

/// Takes a piece of each link that the door marked, or of `all` links, in the order of their lanes, and says whether there
/// was one.
fn hear_links<B: Blocks, L: Door>(
    lanes: &mut Lanes<B>,
    turns: &mut Turns<L::Link>,
    door: &mut L,
    all: bool,
) -> bool
    requires lanes { AreLanes turns.old.links.items (length lanes.old.sessions) turns.old.busy (length turns.old.ready.items)
        (length turns.old.room.items) }
    ensures lanes { AreLanes turns.new.links.items (length lanes.new.sessions) turns.new.busy (length turns.new.ready.items)
        (length turns.new.room.items) }
    ensures number { length turns.new.links.items ≡ length turns.old.links.items }
    ensures most { lanes.new.most ≡ lanes.old.most }
    ensures goes { MayGoOn L.door L.Link.link L.Link.Source.source (B.blocks.stored lanes.old.blocks) lanes.old.most result
        (moment_of B.blocks lanes.old turns.old.links.items turns.old.left turns.old.happened door.old)
        (moment_of B.blocks lanes.new turns.new.links.items turns.new.left turns.new.happened door.new) }
    ensures hears { all ≡ true → 0 < turns.old.busy → result ≡ true }
    ensures busy { result ≡ false → turns.new.busy ≡ turns.old.busy }
    ensures asks { (before : L) (asked : ℕ) → L.door.asked before door.old asked → L.door.asked before door.new asked }
    ensures looked { HaveLookedUp (looked_in B.blocks lanes.old.blocks lanes.new.blocks) }
{
    let mut heard = false;
    for lane in 0..turns.links.len() {
        heard |= hear_link(lanes, turns, door, lane, all);
    }
    heard
}

/// Admits a link into a free lane, which gets a new session. Where no memory is found for that, the link is given back
/// unheard.
fn admit_into<B: Blocks, L: Door>(
    lanes: &mut Lanes<B>,
    turns: &mut Turns<L::Link>,
    door: &mut L,
    lane: usize,
)
    requires lanes { AreLanes turns.old.links.items (length lanes.old.sessions) turns.old.busy (length turns.old.ready.items)
        (length turns.old.room.items) }
    requires free { slice_get turns.old.links.items lane ≡ Some None }
    requires left { 0 < turns.old.left }
    ensures lanes { AreLanes turns.new.links.items (length lanes.new.sessions) turns.new.busy (length turns.new.ready.items)
        (length turns.new.room.items) }
    ensures number { length turns.new.links.items ≡ length turns.old.links.items }
    ensures most { lanes.new.most ≡ lanes.old.most }
    ensures blocks { lanes.new.blocks ≡ lanes.old.blocks }
    ensures goes { GoOn L.door L.Link.link L.Link.Source.source (B.blocks.stored lanes.old.blocks) lanes.old.most
        (moment_of B.blocks lanes.old turns.old.links.items turns.old.left turns.old.happened door.old)
        (moment_of B.blocks lanes.new turns.new.links.items turns.new.left turns.new.happened door.new) }
    ensures asks { (before : L) (asked : ℕ) → L.door.asked before door.old asked → L.door.asked before door.new asked }
{
    match door.admit() {
        Ok(Some(link)) => {
            turns.left -= 1;
            match lanes.renew(lane as u32) {
                Ok(()) => turns.put_link(lane, link),
                Err(AllocError) => {
                    let wanting = Err(GatewayFault::OutOfMemory);
                    turns.happened = turns.happened.with(Served::none(), wanting);
                    door.done(link);
                }
            }
        }
        Ok(None) => turns.left = 0,
        Err(_) => {
            turns.left = 0;
            turns.happened.fault = true;
        }
    }
}

/// Takes a piece of the link of a lane, which the door marked or where `all` links are heard, and hands it to its session;
/// where that ends the link is given back. `false` where the lane has no such link.
fn hear_link<B: Blocks, L: Door>(
    lanes: &mut Lanes<B>,
    turns: &mut Turns<L::Link>,
    door: &mut L,
    lane: usize,
    all: bool,
) -> bool
    requires lanes { AreLanes turns.old.links.items (length lanes.old.sessions) turns.old.busy (length turns.old.ready.items)
        (length turns.old.room.items) }
    requires lane { lane < length turns.old.links.items }
    ensures lanes { AreLanes turns.new.links.items (length lanes.new.sessions) turns.new.busy (length turns.new.ready.items)
        (length turns.new.room.items) }
    ensures number { length turns.new.links.items ≡ length turns.old.links.items }
    ensures most { lanes.new.most ≡ lanes.old.most }
    ensures goes { MayGoOn L.door L.Link.link L.Link.Source.source (B.blocks.stored lanes.old.blocks) lanes.old.most result
        (moment_of B.blocks lanes.old turns.old.links.items turns.old.left turns.old.happened door.old)
        (moment_of B.blocks lanes.new turns.new.links.items turns.new.left turns.new.happened door.new) }
    ensures none { all ≡ true → result ≡ false → slice_get turns.old.links.items lane ≡ Some None }
    ensures busy { result ≡ false → turns.new.busy ≡ turns.old.busy }
    ensures asks { (before : L) (asked : ℕ) → L.door.asked before door.old asked → L.door.asked before door.new asked }
    ensures looked { HaveLookedUp (looked_in B.blocks lanes.old.blocks lanes.new.blocks) }
{
    tg_reply::sessions_go_on();
    if !all && !turns.ready[lane] {
        return false;
    }
    let Some(link) = turns.take_link(lane) else {
        return false;
    };
    let mut link = link;
    match hear(lanes, lane as u32, &mut link, turns.room.as_mut_slice()) {
        Ok(Next::More) => turns.put_link(lane, link),
        Ok(Next::Close) => give_back(lanes, turns, door, lane, link, Ok(())),
        Err(fault) => give_back(lanes, turns, door, lane, link, Err(fault)),
    }
    true
}

/// Gives a link back, whose lane's session ended so.
fn give_back<B: Blocks, L: Door>(
    lanes: &Lanes<B>,
    turns: &mut Turns<L::Link>,
    door: &mut L,
    lane: usize,
    link: L::Link,
    end: Result<(), GatewayFault>,
)
    requires lane { lane < length lanes.now.sessions }
    requires few { lane < 64 }
    ensures happened { HappensWith lanes.now.sessions lane turns.old.happened turns.new.happened end }
    ensures others { turns.new ≡ record turns.old { happened = turns.new.happened } }
    ensures done { IsDone (view_of L.Link.link L.Link.Source.source link) (at_door L.door door.old door.new) }
    ensures coming { KeepsComing (at_door L.door door.old door.new) }
    ensures port { KeepsPort (at_door L.door door.old door.new) }
    ensures shut { KeepsShut (at_door L.door door.old door.new) }
    ensures asks { (before : L) (asked : ℕ) → L.door.asked before door.old asked → L.door.asked before door.new asked }
{
    let served = lanes.served(lane as u32);
    turns.happened = turns.happened.with(served, end);
    door.done(link);
}

//! A swarm that runs over a dial.
ghost use Rattle.std.specs.List.{slice_get};
ghost use Rattle.std.specs.Prelude.{◌≡◌, ◌<◌, All, IfOk, IsTrue, List as Items, None, OnOk, Some, length, map, replicate, slice_set, string_bytes, ℕ};
ghost use Rattle.tg_dials.specs.Dials.{DialRose, at_dial};
ghost use Rattle.tg_links.specs.Views.{view_of};
ghost use Rattle.tg_model.specs.Dag.{Dag, root_cid};
ghost use Rattle.tg_model.specs.Sound.{IsSound};
ghost use Rattle.tg_query.specs.Requests.{IsAddr};
ghost use Rattle.tg_streams.specs.Streams.{into};
ghost use Rattle.tg_swarm.specs.Swarms.{TellsSome, left_to_do};
ghost use Rattle.tg_swarming.specs.Counts.{AllBack, KeepsCount, open_count};
ghost use Rattle.tg_swarming.specs.Rounds.{AreLeft, AreLinked, DialTells, EndsSo, GoSo, GoesShorter, HasAddr, HasAddrs, HasHungUp, HasLink, IsAny, IsHeard, IsNewSwarm, IsRunning, IsUnended, IsWhole, Over, Setup, SwarmEnds, WentSo, meanings, moment_of, setup_of};
ghost use Rattle.tg_swarming.specs.Sound.{IsDoneFor, IsServed, IsServedAt, IsntRefused, SoundRun};
ghost use Rattle.tg_swarming.specs.declared.rounds.Went.TheVariants as wents;
ghost use Rattle.tg_verify.specs.declared.verifier.Progress.TheVariants as progresses;

use crate::watch::SwarmWatch;
use std::alloc::{AllocError, Global};
use std::marker::Model;
use tg_bytes::zeros;
use tg_dials::Dial;
use tg_links::Link;
use tg_query::print_request;
use tg_streams::{Sink, Source, put_all};
use tg_swarm::{PeerEvent, Swarm, SwarmFault};
use tg_verify::Progress;

/// How many bytes are taken from a link at once, at most.
const PIECE_LEN: usize = 65_536;

/// The links of the peers that have one, and the room into which pieces are taken, which isn't empty. Contracts see the links alone.
#[derive(Drop)]
struct Lines<L> {
    links: Vec<Option<L>>,
    room: Vec<u8>,
}

impl<L> Model for Lines<L> {
    ghost use Rattle.std.specs.Prelude.{◌<◌, List as Items, Option, length};

    ghost Value = { Items (Option L) };

    ghost view = { λ lines. lines.links.items };

    ghost invariant = { λ lines. 0 < length lines.room.items };
}

/// Runs a new swarm, which has a peer for each of these addresses of gateways, 1 to 16, each of the form HOST:PORT, until its file is
/// put. A round goes through the peers in order: one that has no job is asked for the lowest that waits, dialled, and given the
/// request; and of one whose link is ready a piece is taken. A round in which nothing was done takes a piece of the link for which
/// the dial waited. All links are given back, whatever came. `watch` is told how far it has come, and of each peer that is refused.
///
/// RFC 9112; Trustless Gateway specification, entity-bytes; UnixFS specification, File. Errors: those of `Swarm::event`.
pub fn run_swarm<D: Dial, S: Sink, W: SwarmWatch>(
    alloc: Global,
    swarm: &mut Swarm,
    addrs: &[String],
    dial: &mut D,
    out: &mut S,
    watch: &mut W,
) -> Result<(), SwarmFault>
where
    D::Link: Drop,
    requires new { IsNewSwarm swarm.old (map string_bytes addrs.now) }
    requires addrs { All IsAddr (map string_bytes addrs.now) }
    requires part { 0 < swarm.old.part }
    requires some { 0 < length addrs.now }
    // What was asked of whom, what came of it, and why it ends.
    ensures ends { SwarmEnds (setup_of swarm.old (map string_bytes addrs.now)) swarm.new
        (at_dial D.dial dial.old dial.new) (into S.sink out.old out.new) result }
    // What that says of each sound DAG with the root, whatever was heard, from whomever, however it was cut.
    ensures sound { (d : Dag) → IsSound d → root_cid d ≡ swarm.old.root
        → SoundRun (setup_of swarm.old (map string_bytes addrs.now)) (at_dial D.dial dial.old dial.new) (into S.sink out.old out.new) result d }
    // Where all peers serve such a DAG rightly, and no fault of the dial is counted, the file is put.
    ensures own { (d : Dag) → IsServed (setup_of swarm.old (map string_bytes addrs.now)) d (at_dial D.dial dial.old dial.new)
        → (DialRose (at_dial D.dial dial.old dial.new) → ⊥) → IsDoneFor d (into S.sink out.old out.new) result }
    // Each link that was made was given back, as far as the dial tells.
    ensures back { AllBack (at_dial D.dial dial.old dial.new) }
    // A peer that does so isn't refused, whatever the others say.
    ensures right { (d : Dag) (addr : Items ℕ) → IsServedAt (setup_of swarm.old (map string_bytes addrs.now)) d addr (at_dial D.dial dial.old dial.new)
        → (DialRose (at_dial D.dial dial.old dial.new) → ⊥) → IsntRefused (setup_of swarm.old (map string_bytes addrs.now)) swarm.new addr result }
{
    tg_swarm::laws::sound_swarms();
    tg_parts::accepted_roots();
    tg_parts::own_blocks();
    tg_fetch::laws::carried_replies();
    tg_fetch::laws::refused_replies();
    tg_model_laws::own_sections();
    tg_model_laws::against_every_peer();
    dial.hurry();
    let mut lines = Lines::new(alloc, addrs.len())?;
    let end = rounds(alloc, swarm, addrs, &mut lines, dial, out, watch);
    hang_up(&mut lines, dial);
    end
}

impl<L: Drop> Lines<L> {
    /// No link for so many peers. The error is want of memory.
    fn new(alloc: Global, peers: usize) -> Result<Lines<L>, AllocError>
        ensures { IfOk result (λ lines. lines ≡ replicate peers None) }
    {
        let mut links = Vec::new(alloc);
        for _ in 0..peers {
            links.push(None)?;
        }
        Ok(Lines {
            links,
            room: zeros(alloc, PIECE_LEN)?,
        })
    }

    /// Takes the link of a peer, where it has one.
    fn take_link(&mut self, peer: usize) -> Option<L>
        requires { peer < length self.old }
        ensures taken { slice_get self.old peer ≡ Some result }
        ensures links { self.new ≡ slice_set self.old peer None }
    {
        self.links[peer].take()
    }

    /// Gives a peer this link.
    fn put_link(&mut self, peer: usize, link: L)
        requires { peer < length self.old }
        ensures { self.new ≡ slice_set self.old peer (Some link) }
    {
        self.links[peer] = Some(link);
    }
}

/// Whether a peer, which is there, has a link that is ready.
fn is_ready<D: Dial>(links: &[Option<D::Link>], peer: usize, dial: &mut D) -> bool
    requires { peer < length links.now }
    ensures same { dial.new ≡ dial.old }
    ensures link { IsTrue result → HasLink links.now peer }
{
    match &links[peer] {
        Some(link) => dial.is_ready(link),
        None => false,
    }
}

/// Goes through the peers, again and again, until the file is whole. Errors: those of `run_swarm`.
fn rounds<D: Dial, S: Sink, W: SwarmWatch>(
    alloc: Global,
    swarm: &mut Swarm,
    addrs: &[String],
    lines: &mut Lines<D::Link>,
    dial: &mut D,
    out: &mut S,
    watch: &mut W,
) -> Result<(), SwarmFault>
where
    D::Link: Drop,
    requires addrs { All IsAddr (map string_bytes addrs.now) }
    requires runs { IsRunning (meanings D.dial D.Link.link D.Link.Source.source S.sink) (HasAddrs (map string_bytes addrs.now))
        (moment_of swarm.old lines.old dial.old out.old) }
    requires unended { IsUnended swarm.old }
    requires linked { AreLinked swarm.old lines.old }
    ensures ends { EndsSo (meanings D.dial D.Link.link D.Link.Source.source S.sink) (HasAddrs (map string_bytes addrs.now))
        (moment_of swarm.old lines.old dial.old out.old) (moment_of swarm.new lines.new dial.new out.new) result }
    ensures count { KeepsCount D.dial dial.old (open_count lines.old) dial.new (open_count lines.new) }
{
    loop {
        if round(alloc, swarm, addrs, lines, dial, out, watch)? == Progress::Done {
            return Ok(());
        }
        watch.went(swarm.told());
    }
}

/// What a round did at a peer.
#[derive(Clone, Copy, Debug, PartialEq, Eq)]
enum Went {
    /// Nothing: it has no job and none waits, or its link isn't ready.
    Nowhere,
    /// It was asked or heard, and more is wanted.
    On,
    /// The file is whole.
    Done,
}

impl Went {
    /// What was done where a peer was told of.
    fn of(progress: Progress) -> Went
        ensures done { result ≡ wents.Done → progress ≡ progresses.Done }
        ensures on { result ≡ wents.On → progress ≡ progresses.More }
        ensures nowhere { result ≡ wents.Nowhere → ⊥ }
    {
        match progress {
            Progress::More => Went::On,
            Progress::Done => Went::Done,
        }
    }
}

/// Goes through the peers once, and where nothing was done takes from the link for which the dial waits. Errors: those of `run_swarm`.
fn round<D: Dial, S: Sink, W: SwarmWatch>(
    alloc: Global,
    swarm: &mut Swarm,
    addrs: &[String],
    lines: &mut Lines<D::Link>,
    dial: &mut D,
    out: &mut S,
    watch: &mut W,
) -> Result<Progress, SwarmFault>
where
    D::Link: Drop,
    requires addrs { All IsAddr (map string_bytes addrs.now) }
    requires runs { IsRunning (meanings D.dial D.Link.link D.Link.Source.source S.sink) (HasAddrs (map string_bytes addrs.now))
        (moment_of swarm.old lines.old dial.old out.old) }
    requires unended { IsUnended swarm.old }
    requires linked { AreLinked swarm.old lines.old }
    ensures goes { GoSo (meanings D.dial D.Link.link D.Link.Source.source S.sink) (HasAddrs (map string_bytes addrs.now))
        (moment_of swarm.old lines.old dial.old out.old) (moment_of swarm.new lines.new dial.new out.new) result }
    ensures whole { IfOk result (λ progress. progress ≡ progresses.Done → IsWhole swarm.new) }
    ensures count { KeepsCount D.dial dial.old (open_count lines.old) dial.new (open_count lines.new) }
    ensures linked { OnOk result (AreLinked swarm.new lines.new) }
    ensures steps { IfOk result (λ progress. progress ≡ progresses.More → GoesShorter swarm.old swarm.new) }
{
    tg_swarm::laws::each_job();
    let mut waits = true;
    for (peer, addr) in addrs.iter().enumerate() {
        match go_on(alloc, swarm, peer, addr.as_str(), lines, dial, out, watch)? {
            Went::Nowhere => {}
            Went::On => waits = false,
            Went::Done => return Ok(Progress::Done),
        }
    }
    if !waits {
        return Ok(Progress::More);
    }
    wait(swarm, addrs, lines, dial, out, watch)
}

/// Hears the peer for whose link the dial waits. Errors: those of `run_swarm`.
fn wait<D: Dial, S: Sink, W: SwarmWatch>(
    swarm: &mut Swarm,
    addrs: &[String],
    lines: &mut Lines<D::Link>,
    dial: &mut D,
    out: &mut S,
    watch: &mut W,
) -> Result<Progress, SwarmFault>
where
    D::Link: Drop,
    requires runs { IsRunning (meanings D.dial D.Link.link D.Link.Source.source S.sink) (HasAddrs (map string_bytes addrs.now))
        (moment_of swarm.old lines.old dial.old out.old) }
    requires linked { AreLinked swarm.old lines.old }
    requires link { (peer : ℕ) × HasLink lines.old peer }
    ensures goes { GoSo (meanings D.dial D.Link.link D.Link.Source.source S.sink) (HasAddrs (map string_bytes addrs.now))
        (moment_of swarm.old lines.old dial.old out.old) (moment_of swarm.new lines.new dial.new out.new) result }
    ensures whole { IfOk result (λ progress. progress ≡ progresses.Done → IsWhole swarm.new) }
    ensures count { KeepsCount D.dial dial.old (open_count lines.old) dial.new (open_count lines.new) }
    ensures linked { OnOk result (AreLinked swarm.new lines.new) }
    ensures steps { IfOk result (λ progress. progress ≡ progresses.More → GoesShorter swarm.old swarm.new) }
{
    let peer = dial.wait(lines.links.as_slice());
    listen(swarm, peer, addrs[peer].as_str(), lines, dial, out, watch)
}

/// Asks a peer that has no job for one, and hears one whose link is ready. Errors: those of `run_swarm`.
fn go_on<D: Dial, S: Sink, W: SwarmWatch>(
    alloc: Global,
    swarm: &mut Swarm,
    peer: usize,
    addr: &str,
    lines: &mut Lines<D::Link>,
    dial: &mut D,
    out: &mut S,
    watch: &mut W,
) -> Result<Went, SwarmFault>
where
    D::Link: Drop,
    requires addr { IsAddr addr.now }
    requires runs { IsRunning (meanings D.dial D.Link.link D.Link.Source.source S.sink) (HasAddr peer addr.now)
        (moment_of swarm.old lines.old dial.old out.old) }
    requires linked { AreLinked swarm.old lines.old }
    ensures goes { GoSo (meanings D.dial D.Link.link D.Link.Source.source S.sink) (HasAddr peer addr.now)
        (moment_of swarm.old lines.old dial.old out.old) (moment_of swarm.new lines.new dial.new out.new) result }
    ensures whole { IfOk result (λ went. went ≡ wents.Done → IsWhole swarm.new) }
    ensures count { KeepsCount D.dial dial.old (open_count lines.old) dial.new (open_count lines.new) }
    ensures linked { OnOk result (AreLinked swarm.new lines.new) }
    ensures steps { IfOk result (λ went. WentSo swarm.old swarm.new peer (went ≡ wents.Nowhere) (went ≡ wents.On)) }
{
    let went = begin(alloc, swarm, peer, addr, lines, dial, out, watch)?;
    if is_ready(lines.links.as_slice(), peer, dial) {
        return Ok(Went::of(listen(swarm, peer, addr, lines, dial, out, watch)?));
    }
    Ok(went)
}

/// Asks a peer that has no job for the lowest that waits, dials it and puts the request; a dial that is missed, and a link that
/// fails, refuse it. Errors: those of `run_swarm`.
fn begin<D: Dial, S: Sink, W: SwarmWatch>(
    alloc: Global,
    swarm: &mut Swarm,
    peer: usize,
    addr: &str,
    lines: &mut Lines<D::Link>,
    dial: &mut D,
    out: &mut S,
    watch: &mut W,
) -> Result<Went, SwarmFault>
where
    D::Link: Drop,
    requires addr { IsAddr addr.now }
    requires runs { IsRunning (meanings D.dial D.Link.link D.Link.Source.source S.sink) (HasAddr peer addr.now)
        (moment_of swarm.old lines.old dial.old out.old) }
    requires linked { AreLinked swarm.old lines.old }
    ensures goes { GoSo (meanings D.dial D.Link.link D.Link.Source.source S.sink) (HasAddr peer addr.now)
        (moment_of swarm.old lines.old dial.old out.old) (moment_of swarm.new lines.new dial.new out.new) result }
    ensures whole { IfOk result (λ went. went ≡ wents.Done → IsWhole swarm.new) }
    ensures count { KeepsCount D.dial dial.old (open_count lines.old) dial.new (open_count lines.new) }
    ensures linked { OnOk result (AreLinked swarm.new lines.new) }
    ensures steps { IfOk result (λ went. WentSo swarm.old swarm.new peer (went ≡ wents.Nowhere) (went ≡ wents.On)) }
{
    tg_parts::accepted_roots();
    let Some(query) = swarm.ask(peer)? else {
        return Ok(Went::Nowhere);
    };
    let request = print_request(alloc, &query, addr)?;
    let Ok(link) = dial.dial(addr) else {
        let end = swarm.event(peer, PeerEvent::Failed, out);
        tell_refused(swarm, peer, addr, watch);
        return Ok(Went::of(end?));
    };
    let mut link = link;
    if put_all(&mut link, request.as_slice()).is_ok() {
        lines.put_link(peer, link);
        return Ok(Went::On);
    }
    let end = swarm.event(peer, PeerEvent::Failed, out);
    dial.done(link);
    tell_refused(swarm, peer, addr, watch);
    Ok(Went::of(end?))
}

/// Takes a piece of the link of a peer, and tells the swarm of it; the link is given back where the peer's job is finished, or the
/// peer was refused, and where the swarm has ended. Errors: those of `run_swarm`.
fn listen<D: Dial, S: Sink, W: SwarmWatch>(
    swarm: &mut Swarm,
    peer: usize,
    addr: &str,
    lines: &mut Lines<D::Link>,
    dial: &mut D,
    out: &mut S,
    watch: &mut W,
) -> Result<Progress, SwarmFault>
where
    D::Link: Drop,
    requires link { HasLink lines.old peer }
    requires runs { IsRunning (meanings D.dial D.Link.link D.Link.Source.source S.sink) IsAny
        (moment_of swarm.old lines.old dial.old out.old) }
    requires linked { AreLinked swarm.old lines.old }
    ensures goes { GoSo (meanings D.dial D.Link.link D.Link.Source.source S.sink) IsAny
        (moment_of swarm.old lines.old dial.old out.old) (moment_of swarm.new lines.new dial.new out.new) result }
    ensures whole { IfOk result (λ progress. progress ≡ progresses.Done → IsWhole swarm.new) }
    ensures count { KeepsCount D.dial dial.old (open_count lines.old) dial.new (open_count lines.new) }
    ensures linked { OnOk result (AreLinked swarm.new lines.new) }
    ensures steps { IfOk result (λ progress. progress ≡ progresses.More → GoesShorter swarm.old swarm.new) }
    ensures shorter { OnOk result (left_to_do swarm.new < left_to_do swarm.old) }
{
    tg_parts::accepted_roots();
    let Some(link) = lines.take_link(peer) else {
        return Ok(swarm.progress());
    };
    let mut link = link;
    let event = next_event(&mut link, lines.room.as_mut_slice());
    let end = swarm.event(peer, event, out);
    if end.is_ok() && swarm.is_busy(peer) {
        lines.put_link(peer, link);
        return end;
    }
    dial.done(link);
    tell_refused(swarm, peer, addr, watch);
    end
}

/// Tells of a peer, which is there, where it was refused.
fn tell_refused<W: SwarmWatch>(swarm: &Swarm, peer: usize, addr: &str, watch: &mut W)
    requires { peer < length swarm.now.jobs.peers }
{
    if let Some(fault) = swarm.refusal(peer) {
        watch.refused(addr, fault);
    }
}

/// What happens next at the peer of a link: a piece of what it says, taken into this room, its end, or that the link failed.
fn next_event<'a, L: Link>(link: &mut L, room: &'a mut [u8]) -> PeerEvent<'a>
    requires { 0 < length room.old }
    ensures heard { IsHeard (view_of L.link L.Source.source link.old) (view_of L.link L.Source.source link.new) result }
    ensures tells { TellsSome result }
{
    match link.take(room) {
        Ok(0) => PeerEvent::Ended,
        Ok(size) => PeerEvent::Piece(&room[..size]),
        Err(_) => PeerEvent::Failed,
    }
}

/// Gives all links back.
fn hang_up<D: Dial>(lines: &mut Lines<D::Link>, dial: &mut D)
where
    D::Link: Drop,
    ensures back { (setup : Setup) (first : D) (overs : Items Over) (missed : ℕ)
        → AreLeft D.Link.link D.Link.Source.source setup (D.dial.dialled first dial.old) lines.old
        → DialTells (at_dial D.dial first dial.old) overs missed → HasHungUp setup (at_dial D.dial first dial.new) overs missed }
    ensures dialled { (first : D) (addr : Items ℕ) → D.dial.dialled first dial.old addr → D.dial.dialled first dial.new addr }
    ensures count { KeepsCount D.dial dial.old (open_count lines.old) dial.new (open_count lines.new) }
    ensures none { open_count lines.new ≡ 0 }
{
    for peer in 0..lines.links.len() {
        if let Some(link) = lines.take_link(peer) {
            dial.done(link);
        }
    }
}

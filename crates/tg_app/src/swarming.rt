//! `swarm`.
ghost use Rattle.std.specs.Prelude.{◌≡◌, ◌≤◌, All, IfOk, length};
ghost use Rattle.tg_app.specs.Objects.{dial_between};
ghost use Rattle.tg_app.specs.Swarms.{IsSwarmRefusal, SwarmAnswers, fetch_word, first_status, peer_status, verifier_status, verifier_word, words_of};
ghost use Rattle.tg_commands.specs.Lines.{end_of};
ghost use Rattle.tg_query.specs.Requests.{IsAddr};
ghost use Rattle.tg_streams.specs.Streams.{into};
ghost use Rattle.tg_swarm.specs.Peers.{refusals_of};

use std::alloc::{AllocError, Global};
use tg_bytes::Bytes;
use tg_commands::CommandFault;
use tg_dials::Dial;
use tg_fetch::FetchFault;
use tg_model::Limits;
use tg_streams::Sink;
use tg_swarm::{Swarm, SwarmFault};
use tg_swarming::{SwarmWatch, run_swarm};
use tg_verify::Refusal;
use tg_words::Swarm as SwarmAsked;

/// `swarm`: the file under a root goes by parts from several gateways, none of which is trusted, to out. `watch` is told how far it
/// has come, and which gateway was refused.
pub fn swarm_file<D: Dial, O: Sink, W: SwarmWatch>(
    alloc: Global,
    asked: &SwarmAsked,
    dial: &mut D,
    out: &mut O,
    watch: &mut W,
) -> Result<(), CommandFault>
where
    D::Link: Drop,
    requires addrs { All IsAddr asked.now.addrs }
    requires number { (1 ≤ length asked.now.addrs) × (length asked.now.addrs ≤ 16) }
    requires part { (1 ≤ asked.now.part) × (asked.now.part ≤ 16777216) }
    ensures { SwarmAnswers asked.now (dial_between D.dial dial.old dial.new) (into O.sink out.old out.new) (end_of result) }
{
    let mut swarm = Swarm::new(
        alloc,
        asked.root,
        u64::from(asked.part),
        asked.addrs.len() as u32,
        Limits::standard(),
    )?;
    match run_swarm(alloc, &mut swarm, asked.addrs.as_slice(), dial, out, watch) {
        Ok(()) => Ok(()),
        Err(fault) => Err(refusal_of_swarm(alloc, &swarm, fault)),
    }
}

/// The refusal for a file that isn't put: where no peer is left it tells why each of these was refused.
fn refusal_of_swarm(alloc: Global, swarm: &Swarm, fault: SwarmFault) -> CommandFault
    ensures { IsSwarmRefusal (refusals_of swarm.now.jobs.peers) fault result }
{
    match fault {
        SwarmFault::NoPeerLeft => match words_of(alloc, swarm) {
            Ok(words) => CommandFault::NoPeerLeft {
                words,
                status: first_status(swarm),
            },
            Err(AllocError) => CommandFault::OutOfMemory,
        },
        SwarmFault::NotFile => CommandFault::NotFile,
        SwarmFault::BadRoot(fault) => CommandFault::BadRoot { fault },
        SwarmFault::Limit { kind, number } => CommandFault::Limit { kind, number },
        SwarmFault::SinkFault => CommandFault::SinkFault,
        SwarmFault::OutOfMemory => CommandFault::OutOfMemory,
    }
}

/// The words of the refusals of a swarm's peers, in order, each behind a space. The error is want of memory.
fn words_of(alloc: Global, swarm: &Swarm) -> Result<Bytes, AllocError>
    ensures { IfOk result (λ words. words ≡ words_of (refusals_of swarm.now.jobs.peers)) }
{
    let mut words = Bytes::new(alloc);
    for peer in 0..swarm.peer_count() {
        if let Some(fault) = swarm.refusal(peer) {
            words.push_all(b" ")?;
            words.push_all(fetch_word(fault))?;
        }
    }
    Ok(words)
}

/// The exit status of `fetch` for the first refusal of a swarm's peers.
fn first_status(swarm: &Swarm) -> u8
    ensures { result ≡ first_status (refusals_of swarm.now.jobs.peers) }
{
    for peer in 0..swarm.peer_count() {
        if let Some(fault) = swarm.refusal(peer) {
            return peer_status(fault);
        }
    }
    3
}

/// The word of a refusal.
pub fn fetch_word(fault: FetchFault) -> &'static [u8]
    ensures { result.now ≡ fetch_word fault }
{
    match fault {
        FetchFault::Refused(fault) => verifier_word(fault),
        FetchFault::Status(_) => b"Status",
        FetchFault::BadType => b"BadType",
        FetchFault::BadReplyHead => b"BadReplyHead",
        FetchFault::BadFraming => b"BadFraming",
        FetchFault::BadCar(_) => b"BadCar",
        FetchFault::PeerFault => b"PeerFault",
        FetchFault::KeepFault => b"PackFault",
        FetchFault::OutOfMemory => b"OutOfMemory",
    }
}

/// The word of a verifier's refusal.
fn verifier_word(fault: Refusal) -> &'static [u8]
    ensures { result.now ≡ verifier_word fault }
{
    match fault {
        Refusal::Extra { .. } => b"Extra",
        Refusal::Limit { .. } => b"Limit",
        Refusal::BadDigest { .. } => b"BadDigest",
        Refusal::WrongBlock { .. } => b"WrongBlock",
        Refusal::BadBlock { .. } => b"BadBlock",
        Refusal::BadSize { .. } => b"BadSize",
        Refusal::NotFolder { .. } => b"NotFolder",
        Refusal::NotThere { .. } => b"NotThere",
        Refusal::SinkFault => b"SinkFault",
        Refusal::Truncated { .. } => b"Truncated",
        Refusal::OutOfMemory => b"OutOfMemory",
    }
}

/// The exit status of `fetch` for a refusal, where memory is found for its line.
fn peer_status(fault: FetchFault) -> u8
    ensures { result ≡ peer_status fault }
{
    match fault {
        FetchFault::Refused(fault) => verifier_status(fault),
        FetchFault::Status(_) => 4,
        FetchFault::PeerFault => 5,
        FetchFault::KeepFault => 6,
        FetchFault::OutOfMemory => 8,
        FetchFault::BadType
        | FetchFault::BadReplyHead
        | FetchFault::BadFraming
        | FetchFault::BadCar(_) => 3,
    }
}

/// That for a verifier's refusal.
fn verifier_status(fault: Refusal) -> u8
    ensures { result ≡ verifier_status fault }
{
    match fault {
        Refusal::Limit { .. } => 7,
        Refusal::NotFolder { .. } | Refusal::NotThere { .. } => 9,
        Refusal::SinkFault => 6,
        Refusal::OutOfMemory => 8,
        Refusal::Extra { .. }
        | Refusal::BadDigest { .. }
        | Refusal::WrongBlock { .. }
        | Refusal::BadBlock { .. }
        | Refusal::BadSize { .. }
        | Refusal::Truncated { .. } => 3,
    }
}

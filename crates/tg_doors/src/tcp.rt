//! Doors over TCP.
ghost use Rattle.std.specs.Prelude.{◌≡◌, ◌+◌, ◌≤◌, ◌↔◌, ℕ, length, IfErr, IfOk, IfSome, IsErr, IsTrue, None, false};
ghost use Rattle.std.specs.IoError.{error_kind, raw_os_error};
ghost use Rattle.std.specs.Net.Socket.{socket_port};
ghost use Rattle.tg_doors.specs.Doors.{IsAdmitted, IsDone, KeepsComing, KeepsPort, KeepsServed, KeepsShut};
ghost use Rattle.tg_doors.specs.Doors.{at_door, given_link};
ghost use Rattle.tg_links.specs.Views.{view_of};
ghost use Rattle.tg_doors.specs.Tcp.{IsPassing, IsPassingCode, IsPassingKind, loopback, tcp_door};
ghost use Rattle.tg_faults.specs.Faults.{Rose, counted};
ghost use Rattle.tg_links.specs.Tcp.{tcp_hearing, tcp_link};

use crate::closing::ClosingStreams;
use crate::door::Door;
use libc::types::pollfd;
use std::io;
use std::io::{ErrorKind, Read};
use std::marker::Model;
use std::net::{IpAddr, Ipv4Addr, Net, OpenListener, OpenStream, SocketAddr};
use std::os::fd::{AsRawFd, RawFd};
use tg_faults::Failed;
use tg_links::{Asked, Silence, TcpLink, monotonic_millis};

/// How many milliseconds one call of `wait` waits at most.
const PATIENCE: u64 = 60_000;

/// How often one call of `wait` waits for the descriptors at most, where nothing is ready but streams that are closing.
const ROUNDS: u32 = 8_192;

/// How many milliseconds pass before a connection is accepted again, where descriptors or memory are short.
const PAUSE: u64 = 100;

/// How often such a pause is made for one connection at most: for 60 seconds in all.
const PAUSES: u32 = 600;

/// Errors of `accept` on Linux that have no kind of their own in `ErrorKind`: of the protocol or the network of one
/// connection (`accept(2)`, "Error handling"),
const ENONET: i32 = 64;

const EPROTO: i32 = 71;

const ENOPROTOOPT: i32 = 92;

const EOPNOTSUPP: i32 = 95;

const EHOSTDOWN: i32 = 112;

/// and of descriptors of the system and of this process (`EMFILE`), and of memory (`ENOMEM`), that are short.
const ENFILE: i32 = 23;

const ENOBUFS: i32 = 105;

/// A door to peers on this machine, which connect to a port of 127.0.0.1 over TCP (RFC 9293). It tells neither the
/// links to come nor what went through those that were given back.
///
/// A link is over once its peer is silent for 60 seconds. Before a `bind` succeeded each `admit` is a fault. What the peer of
/// a link that was given back still sends is read and dropped while the door waits, for a while, before its connection is
/// closed; and where the door is dropped, for 3 seconds at most.
#[derive(Drop)]
pub struct TcpDoor<R: Net> {
    net: R,
    bound: Option<Bound<R::Listener>>,
    shut: bool,
    faults: u64,
    closing: ClosingStreams<R::Stream>,
}

/// What listens, and the port at which it does.
#[derive(Drop)]
struct Bound<L> {
    listener: L,
    port: u16,
}

impl<R: Net> Model for TcpDoor<R> {
    ghost use Rattle.std.specs.Prelude.{option_map};
    ghost use Rattle.tg_doors.specs.Tcp.{TcpDoorState};

    ghost Value = { TcpDoorState };

    ghost view = { λ d. record { port = option_map (λ b. b.port) d.bound; shut = d.shut; faults = d.faults } };
}

impl<R: Net + AllocGlobal> TcpDoor<R> {
    /// A door that is bound to no port yet, with no fault counted.
    pub fn new(net: R) -> TcpDoor<R>
        ensures { result ≡ record { port = None; shut = false; faults = 0 } }
    {
        let closing = ClosingStreams::new(net.alloc());
        TcpDoor {
            net,
            bound: None,
            shut: false,
            faults: 0,
            closing,
        }
    }
}

impl<R: Net> TcpDoor<R> {
    /// How many calls failed, and how many links were given back with a fault of their own.
    pub fn count(&self) -> u64
        ensures { result ≡ self.now.faults }
    {
        self.faults
    }

    /// Counts a fault.
    fn fault(&mut self) -> Failed
        ensures count { self.new ≡ record self.old { faults = counted self.old.faults } }
        ensures counted { self.old.faults ≤ self.new.faults }
        ensures rose { Rose self.old.faults self.new.faults }
    {
        self.faults = self.faults.saturating_add(1);
        Failed
    }

    /// The link of the next connection. Errors: those of accepting it and of setting it, and `NotConnected` where the
    /// door isn't bound.
    fn next_link(&mut self) -> io::Result<TcpLink<R::Stream>>
        ensures same { self.new ≡ self.old }
        ensures new { IfOk result (λ link. (link.over ≡ false) × (link.faults ≡ 0)) }
        ensures silence { IfOk result (λ link. link.silence ≡ Silence.Ends) }
        ensures unbound { self.old.port ≡ None → IsErr result }
    {
        match &self.bound {
            Some(bound) => {
                let stream = accept_on(&bound.listener, &mut self.closing)?;
                TcpLink::open(stream, Silence::Ends)
            }
            None => Err(io::Error::from(ErrorKind::NotConnected)),
        }
    }

    /// The descriptor by which connections are waited for: none where they aren't to be admitted, or the door isn't bound.
    fn listening(&self, admits: bool) -> RawFd {
        match &self.bound {
            Some(bound) if admits => bound.listener.as_raw_fd(),
            _ => -1,
        }
    }

    /// Waits once for the door, the streams that are closing and the links of the lanes, for so many milliseconds at most;
    /// marks the lanes that are ready, and says how many connections are. Where that can't be waited for, each lane is
    /// marked.
    fn wait_once(
        &mut self,
        lanes: &[Option<TcpLink<R::Stream>>],
        admits: bool,
        ready: &mut [bool],
        millis: u64,
    ) -> usize
        ensures same { self.new ≡ self.old }
        ensures len { length ready.new ≡ length ready.old }
    {
        let mut asked = Asked::new();
        asked.ask(self.listening(admits));
        let closing = self.closing.count();
        self.closing.ask(&mut asked);
        ask_lanes(lanes, &mut asked);
        if !asked.wait(self.closing.patience(millis)) {
            ready.fill(true);
            return 0;
        }
        self.closing.hear(asked.told(1));
        mark(lanes, asked.told(closing.saturating_add(1)), ready);
        match asked.told(0) {
            [door, ..] => usize::from(door.revents != 0),
            [] => 0,
        }
    }
}

impl<R: Net + AllocGlobal + Drop> Door for TcpDoor<R> {
    type Link = TcpLink<R::Stream>;

    ghost door = { tcp_door };

    /// It is bound to 127.0.0.1 alone, and says at which port it listens. A port that is bound still is a fault, this
    /// door's own among them; one whose connections were closed is free (`SO_REUSEADDR`).
    fn bind(&mut self, port: u16) -> Result<u16, Failed> {
        match listen(&self.net, loopback(port)) {
            Ok(bound) if port == 0 || bound.port == port => {
                let port = bound.port;
                self.bound = Some(bound);
                self.shut = false;
                Ok(port)
            }
            _ => Err(self.fault()),
        }
    }

    /// It waits for a connection and gives its link, and never none. Accepting is begun anew where it is interrupted, and
    /// behind an error of that connection alone; and where descriptors or memory are short, for 60 seconds at most.
    fn admit(&mut self) -> Result<Option<TcpLink<R::Stream>>, Failed>
        ensures admitted { IsAdmitted (at_door tcp_door self.old self.new)
            (given_link tcp_link (tcp_hearing R.Stream.remaining) result) }
        ensures served { KeepsServed (at_door tcp_door self.old self.new) }
        ensures port { KeepsPort (at_door tcp_door self.old self.new) }
        ensures counted { self.old.faults ≤ self.new.faults }

        ensures unbound { self.old.port ≡ None → IsErr result }
        ensures silence { IfOk result (λ given. IfSome given (λ link. link.silence ≡ Silence.Ends)) }
    {
        match self.next_link() {
            Ok(link) => {
                self.shut = false;
                Ok(Some(link))
            }
            Err(_) => {
                self.shut = true;
                Err(self.fault())
            }
        }
    }

    /// It waits for the first of: bytes, or the end, of a link; a connection, where it is asked for that; that a peer was
    /// silent for 60 seconds, whose link hears no more then; and that a request has been coming too slowly for 60 seconds.
    /// Meanwhile it hears the streams that are closing. More links than 64 aren't waited for, and may be marked.
    fn wait(
        &mut self,
        lanes: &[Option<TcpLink<R::Stream>>],
        admits: bool,
        ready: &mut [bool],
    ) -> usize {
        ready.fill(false);
        let began = monotonic_millis();
        let patience = patience_of(lanes);
        for _ in 0..ROUNDS {
            let passed = monotonic_millis().saturating_sub(began);
            let left = patience.saturating_sub(passed);
            let coming = self.wait_once(lanes, admits, ready, left);
            if coming > 0 || left == 0 || ready.contains(&true) {
                return coming;
            }
        }
        0
    }

    /// It says to the peer that no more comes, and returns at once; the connection is closed later. The last errors of the
    /// link are no faults.
    fn done(&mut self, link: TcpLink<R::Stream>)
        ensures done { IsDone (view_of tcp_link (tcp_hearing R.Stream.remaining) link)
            (at_door tcp_door self.old self.new) }
        ensures coming { KeepsComing (at_door tcp_door self.old self.new) }
        ensures port { KeepsPort (at_door tcp_door self.old self.new) }
        ensures shut { KeepsShut (at_door tcp_door self.old self.new) }

        // However many calls of the link failed, one fault is counted at most.
        ensures once { self.new.faults ≤ self.old.faults + 1 }
    {
        if link.count() != 0 {
            self.fault();
        }
        if let Some(stream) = link.shut() {
            self.closing.add(stream);
        }
    }
}

/// How many milliseconds to wait for these links at most.
fn patience_of<T>(lanes: &[Option<TcpLink<T>>]) -> u64 {
    let mut patience = PATIENCE;
    for link in lanes.iter().flatten() {
        patience = patience.min(link.patience());
    }
    patience
}

/// Asks for each of these links, in order.
fn ask_lanes<T: AsRawFd>(lanes: &[Option<TcpLink<T>>], asked: &mut Asked) {
    for link in lanes.iter().flatten() {
        asked.ask(link.socket());
    }
}

/// Marks the lanes whose links are ready: this was told of them, in order.
fn mark<T: OpenStream>(lanes: &[Option<TcpLink<T>>], told: &[pollfd], ready: &mut [bool])
    ensures { length ready.new ≡ length ready.old }
{
    let mut told = told.iter();
    for (lane, mark) in lanes.iter().zip(ready.iter_mut()) {
        if let Some(link) = lane {
            *mark = is_ready(link, told.next());
        }
    }
}

/// Whether a take of this link needn't wait, of which this was told: there is something to be taken; or its peer was silent
/// for too long, or its request has been coming too slowly, and then it hears no more. One of which nothing was told is.
fn is_ready<T: OpenStream>(link: &TcpLink<T>, told: Option<&pollfd>) -> bool {
    match told {
        Some(place) if place.revents == 0 => {
            if link.patience() > 0 {
                return false;
            }
            link.hush();
            true
        }
        _ => true,
    }
}

/// What listens, and the port of the address at which the system says that it does.
fn bound_at<L>(listener: L, told: SocketAddr) -> Bound<L>
    ensures { result ≡ record { listener = listener; port = socket_port told } }
{
    Bound {
        listener,
        port: told.port(),
    }
}

/// Listens at an address, and says at which port. Errors: those of the system, such as a port that is in use.
fn listen<R: Net>(net: &R, address: SocketAddr) -> io::Result<Bound<R::Listener>>
    // Nobody but this machine can connect.
    requires { (port : ℕ) × (address ≡ loopback port) }
{
    let listener = net.bind(address)?;
    let told = listener.local_addr()?;
    Ok(bound_at(listener, told))
}

/// The address of a port of this machine that no other machine reaches (RFC 1122, 3.2.1.3), where 0 stands for one
/// that is free.
fn loopback(port: u16) -> SocketAddr
    ensures { result ≡ loopback port }
{
    SocketAddr::new(IpAddr::V4(Ipv4Addr::LOCALHOST), port)
}

/// The next connection. Accepting is begun anew where it is interrupted, and where the error is one of that connection alone
/// or of its network, so that the peer is gone; and behind a pause where descriptors or memory are short, for 60 seconds at
/// most, in which the streams that are closing are heard, so that theirs become free. Errors: the others of the listener,
/// those that are left of these behind 60 seconds, and `TimedOut` where each of 2 ^ 64 - 1 calls was begun anew.
fn accept_on<L: OpenListener, T: Read + OpenStream + AsRawFd + Drop>(
    listener: &L,
    closing: &mut ClosingStreams<T>,
) -> io::Result<L::Stream>
    ensures { IfErr result (λ e. IsPassing e → ⊥) }
{
    let mut pauses = 0;
    for _ in 0..u64::MAX {
        match listener.accept() {
            Ok((stream, _)) => return Ok(stream),
            Err(e) if is_passing(&e) => {}
            Err(e) if pauses < PAUSES && is_short(&e) => {
                pauses += 1;
                closing.pause(PAUSE);
            }
            Err(e) => return Err(e),
        }
    }
    Err(io::Error::new(ErrorKind::TimedOut, "no connection came"))
}

/// Whether accepting is begun anew at once behind this error.
fn is_passing(e: &io::Error) -> bool
    ensures { IsTrue result ↔ IsPassing e.now }
{
    is_passing_kind(e.kind()) || is_passing_code(e.raw_os_error())
}

/// Whether an error of this kind is one of a connection alone, or of its network.
fn is_passing_kind(kind: ErrorKind) -> bool
    ensures { IsTrue result ↔ IsPassingKind kind }
{
    matches!(
        kind,
        ErrorKind::Interrupted
            | ErrorKind::ConnectionAborted
            | ErrorKind::NetworkDown
            | ErrorKind::NetworkUnreachable
            | ErrorKind::HostUnreachable
    )
}

/// The same of an error with this number.
fn is_passing_code(code: Option<i32>) -> bool
    ensures { IsTrue result ↔ IsPassingCode code }
{
    match code {
        Some(code) => {
            code == ENONET
                || code == EPROTO
                || code == ENOPROTOOPT
                || code == EOPNOTSUPP
                || code == EHOSTDOWN
        }
        None => false,
    }
}

/// Whether the error says that descriptors or memory are short.
fn is_short(e: &io::Error) -> bool {
    match e.raw_os_error() {
        Some(code) => {
            code == libc::EMFILE || code == ENFILE || code == ENOBUFS || code == libc::ENOMEM
        }
        None => false,
    }
}

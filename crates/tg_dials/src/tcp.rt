//! Dials over TCP.
ghost use Rattle.std.specs.List.{slice_get};
ghost use Rattle.std.specs.Prelude.{◌≡◌, ◌+◌, ◌≤◌, ℕ, IfOk, OnErr, Some, false};
ghost use Rattle.tg_dials.specs.Dials.{IsDialled, IsHungUp, KeepsCalls, KeepsComing, KeepsMissed, at_dial, dialled_link};
ghost use Rattle.tg_dials.specs.Tcp.{tcp_dial};
ghost use Rattle.tg_faults.specs.Faults.{Rose, counted};
ghost use Rattle.tg_links.specs.Tcp.{tcp_hearing, tcp_link};
ghost use Rattle.tg_links.specs.Views.{view_of};

use crate::dial::{Dial, first_link};
use std::io;
use std::io::ErrorKind;
use std::marker::Model;
use std::mem::drop;
use std::net::{Net, ToSocketAddrs};
use std::os::fd::AsRawFd;
use std::time::Duration;
use tg_faults::Failed;
use tg_links::{Asked, Silence, TcpLink};

/// How many seconds a connection to one address of a peer may take, and one to a peer that is one of several.
const PATIENCE: u64 = 30;

const SHORT_PATIENCE: u64 = 5;

/// How many milliseconds one call of `wait` waits at most.
const WAIT: u64 = 60_000;

/// A dial to peers over TCP (RFC 9293). It tells neither what they will say nor what went through the links that were
/// given back.
///
/// A host is an IPv4 address, an IPv6 address in brackets, or a name, whose addresses are tried in turn; each is given
/// up after 30 seconds. A peer that says nothing for 60 seconds is a fault of its link, and so is a write to it of which
/// the system takes no byte for 60 seconds. Where it is hurried an address is given up after 5 seconds, and a peer of which
/// fewer than 65,536 bytes came in the last 60 seconds is a fault of its link too.
#[derive(Drop)]
pub struct TcpDial<R: Net> {
    net: R,
    /// Whether the peer is one of several.
    hurried: bool,
    missed: u64,
    faults: u64,
    /// Why the last link that was missed didn't come.
    why: Option<io::Error>,
}

impl<R: Net> Model for TcpDial<R> {
    ghost use Rattle.tg_dials.specs.Tcp.{TcpDialState};

    ghost Value = { TcpDialState };

    ghost view = { λ d. record { missed = d.missed; faults = d.faults } };
}

impl<R: Net> TcpDial<R> {
    /// A dial of which no call failed.
    pub fn new(net: R) -> TcpDial<R>
        ensures { result ≡ record { missed = 0; faults = 0 } }
    {
        TcpDial {
            net,
            hurried: false,
            missed: 0,
            faults: 0,
            why: None,
        }
    }

    /// Why no link came at the last `dial` that gave none: that the host's name isn't known, or an error of the connection to
    /// the last address that was tried. It tells what the system says, for a person to read, and no clause speaks of it.
    pub fn why(&self) -> Option<io::Error> {
        self.why
    }

    /// How many calls failed, and how many links were given back with a fault of their own.
    pub fn count(&self) -> u64
        ensures { result ≡ self.now.faults }
    {
        self.faults
    }

    /// Counts a fault.
    fn fault(&mut self) -> Failed
        ensures count { self.new ≡ record self.old { faults = counted self.old.faults } }
        ensures counted { self.old.faults ≤ self.new.faults }
        ensures rose { Rose self.old.faults self.new.faults }
    {
        self.faults = self.faults.saturating_add(1);
        Failed
    }
}

impl<R: Net + Drop> Dial for TcpDial<R> {
    type Link = TcpLink<R::Stream>;

    ghost dial = { tcp_dial };

    /// An address is given up after 5 seconds then, a link is closed at once when it is given back, and a peer of which fewer than
    /// 65,536 bytes came in the last 60 seconds is a fault of its link.
    fn hurry(&mut self) {
        self.hurried = true;
    }

    /// It waits for the connection.
    fn dial(&mut self, addr: &str) -> Result<TcpLink<R::Stream>, Failed>
        ensures dialled { IsDialled (at_dial tcp_dial self.old self.new)
            (dialled_link tcp_link (tcp_hearing R.Stream.remaining) result) }
        ensures calls { KeepsCalls (at_dial tcp_dial self.old self.new) }
        ensures counted { self.old.faults ≤ self.new.faults }

        ensures silence { IfOk result (λ link. link.silence ≡ Silence.Fails) }
        ensures err_count { OnErr result (self.new.faults ≡ counted self.old.faults) }
    {
        match link_to(&self.net, addr, self.hurried) {
            Ok(link) => Ok(link),
            Err(e) => {
                self.why = Some(e);
                self.missed = self.missed.saturating_add(1);
                Err(self.fault())
            }
        }
    }

    /// It asks the system, and doesn't wait.
    fn is_ready(&mut self, link: &TcpLink<R::Stream>) -> bool {
        is_ready(link)
    }

    /// It waits for bytes, or the end, of one of them, or until the peer of one was silent for 60 seconds or has been slow for as
    /// long; and gives the first that is ready then, or the first one.
    fn wait(&mut self, links: &[Option<TcpLink<R::Stream>>]) -> usize {
        wait_for(links);
        first_ready(links)
    }

    /// It finishes the link, whose last errors are no faults; the link to one of several peers is closed at once, since the others
    /// would wait for it.
    fn done(&mut self, link: TcpLink<R::Stream>)
        ensures done { IsHungUp (view_of tcp_link (tcp_hearing R.Stream.remaining) link)
            (at_dial tcp_dial self.old self.new) }
        ensures missed { KeepsMissed (at_dial tcp_dial self.old self.new) }
        ensures coming { KeepsComing (at_dial tcp_dial self.old self.new) }

        // However many calls of the link failed, one fault is counted at most.
        ensures once { self.new.faults ≤ self.old.faults + 1 }
    {
        if link.count() != 0 {
            self.fault();
        }
        if self.hurried {
            drop(link);
        } else {
            link.finish();
        }
    }
}

/// A link over a connection to a peer, who is one of several or not. Errors: those of finding its addresses, of the last one that
/// was tried, and of setting the connection.
fn link_to<R: Net + Drop>(net: &R, addr: &str, hurried: bool) -> io::Result<TcpLink<R::Stream>>
    ensures new { IfOk result (λ link. (link.over ≡ false) × (link.faults ≡ 0)) }
    ensures silence { IfOk result (λ link. link.silence ≡ Silence.Fails) }
{
    if !hurried {
        return TcpLink::open(connect(net, addr, PATIENCE)?, Silence::Fails);
    }
    let link = TcpLink::open(connect(net, addr, SHORT_PATIENCE)?, Silence::Fails)?;
    Ok(link.hurried())
}

/// A connection to the first address of a peer that answers within so many seconds. Errors: those of finding its addresses, and
/// of the last one that was tried.
fn connect<R: Net>(net: &R, addr: &str, seconds: u64) -> io::Result<R::Stream> {
    let mut end = Err(io::Error::from(ErrorKind::NotFound));
    for addr in addr.to_socket_addrs(net)? {
        end = net.connect_timeout(addr, Duration::from_secs(seconds));
        if end.is_ok() {
            return end;
        }
    }
    end
}

/// Whether a take of this link needn't wait; where that can't be told, it is said so.
fn is_ready<T: AsRawFd>(link: &TcpLink<T>) -> bool {
    let mut asked = Asked::new();
    asked.ask(link.socket());
    if link.patience() == 0 || !asked.wait(0) {
        return true;
    }
    match asked.told(0) {
        [told, ..] => told.revents != 0,
        [] => true,
    }
}

/// Waits for these links, until one is ready or its peer is late.
fn wait_for<T: AsRawFd>(links: &[Option<TcpLink<T>>]) {
    let mut asked = Asked::new();
    let mut patience = WAIT;
    for link in links.iter().flatten() {
        asked.ask(link.socket());
        patience = patience.min(link.patience());
    }
    let _ = asked.wait(patience);
}

/// The place of the first link that is ready, or where none is of the first one.
fn first_ready<T: AsRawFd>(links: &[Option<TcpLink<T>>]) -> usize
    ensures { (place : ℕ) (link : TcpLink T) → slice_get links.now place ≡ Some (Some link)
        → (first : TcpLink T) × (slice_get links.now result ≡ Some (Some first)) }
{
    for (place, link) in links.iter().enumerate() {
        match link {
            Some(link) if is_ready(link) => return place,
            _ => {}
        }
    }
    first_link(links)
}

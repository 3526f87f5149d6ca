//! Dials that make links to peers.
ghost use Rattle.std.specs.List.{slice_get};
ghost use Rattle.std.specs.Prelude.{◌≡◌, ◌<◌, ◌≤◌, ℕ, List, None, Some};
ghost use Rattle.tg_dials.specs.Dials.{DialMeaning, IsDialled, IsHungUp, KeepsCalls, KeepsComing, KeepsMissed, at_dial, dialled_link};
ghost use Rattle.tg_links.specs.Views.{view_of};

use tg_faults::Failed;
use tg_links::Link;

/// A dial, which makes links to peers.
///
/// Its meaning is one record: `coming` is what each peer will say that is dialled, or `None` where that isn't told;
/// `calls` is what went through the links that were given back, or `None`; `missed` counts the calls of `dial` that
/// failed; `faults` counts those, the links that were given back with a fault of their own, and where no memory was found
/// to tell of one. Both stand still at 2 ^ 64 - 1. `dialled` says that between two of its moments the peer at an address
/// was dialled: only a `dial` of that address shows it, of the moment behind it and of all that follow.
pub trait Dial {
    type Link: Link;

    ghost dial: { DialMeaning Self };

    /// Makes the peers that it dials from now on some of several, of which none may hold the others. How long it waits for each
    /// is no part of any promise.
    fn hurry(&mut self)
        ensures { self.new ≡ self.old };

    /// A link to the peer at an address HOST:PORT. The error is a fault of the dial.
    fn dial(&mut self, addr: &str) -> Result<Self::Link, Failed>
        ensures dialled { IsDialled (at_dial dial self.old self.new)
            (dialled_link Self.Link.link Self.Link.Source.source result) }
        ensures calls { KeepsCalls (at_dial dial self.old self.new) }
        ensures address { (before : Self) → dial.dialled before self.new addr.now }
        ensures others { (before : Self) (addr : List ℕ) → dial.dialled before self.old addr → dial.dialled before self.new addr }
        ensures counted { dial.faults self.old ≤ dial.faults self.new };

    /// Whether a take of a link that it made needn't wait: something is to be taken of it, or its peer's end, or its peer is late.
    /// Nothing is promised of it: it may say so of any link.
    fn is_ready(&mut self, link: &Self::Link) -> bool
        ensures { self.new ≡ self.old };

    /// Waits until a take of one of these links, which it made, needn't wait, and gives that one's place. Nothing is promised of
    /// it but that a link stands there.
    fn wait(&mut self, links: &[Option<Self::Link>]) -> usize
        requires { (place : ℕ) × (link : Self.Link) × (slice_get links.now place ≡ Some (Some link)) }
        ensures same { self.new ≡ self.old }
        ensures place { (link : Self.Link) × (slice_get links.now result ≡ Some (Some link)) };

    /// Takes back a link that it made, and tells what went through it. A fault of the link is one of the dial; so is
    /// want of memory to tell of it, behind which nothing is told any more.
    fn done(&mut self, link: Self::Link)
        ensures done { IsHungUp (view_of Self.Link.link Self.Link.Source.source link) (at_dial dial self.old self.new) }
        ensures missed { KeepsMissed (at_dial dial self.old self.new) }
        ensures coming { KeepsComing (at_dial dial self.old self.new) }
        ensures address { (before : Self) (addr : List ℕ) → dial.dialled before self.old addr → dial.dialled before self.new addr };
}

/// The place of the first of these links, or 0 where there is none.
pub fn first_link<L>(links: &[Option<L>]) -> usize
    ensures first { (before : ℕ) → before < result → slice_get links.now before ≡ Some None }
    ensures link { (place : ℕ) (link : L) → slice_get links.now place ≡ Some (Some link)
        → (first : L) × (slice_get links.now result ≡ Some (Some first)) }
{
    for (place, link) in links.iter().enumerate() {
        if link.is_some() {
            return place;
        }
    }
    0
}

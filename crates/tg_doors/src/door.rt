//! Doors through which links come.
ghost use Rattle.std.specs.Prelude.{◌≡◌, ◌≤◌, length, ℕ};
ghost use Rattle.tg_doors.specs.Doors.{DoorMeaning, IsAdmitted, IsAskedPort, IsBound, IsDone, KeepsComing, KeepsPort, KeepsServed, KeepsShut};
ghost use Rattle.tg_doors.specs.Doors.{at_door, given_link};
ghost use Rattle.tg_links.specs.Views.{view_of};

use tg_faults::Failed;
use tg_links::Link;

/// A door through which links to peers come one after another.
///
/// Its meaning is one record: `coming` is what each peer will say whose link is to come, or `None` where that isn't
/// told; `served` is what went through the links that were given back, or `None`; `port` is what the last `bind` that
/// succeeded gave; `shut` says that the last `admit` since then gave no link; `faults` counts the calls that failed, the
/// links that were given back with a fault of their own, and where no memory was found to tell of one, and stands still
/// at 2 ^ 64 - 1; `asked` says that between two of its moments it was asked to bind a port, which only a `bind` with that
/// number shows.
pub trait Door {
    type Link: Link + Drop;

    ghost door: { DoorMeaning Self };

    /// Binds the door to a port of this machine, where 0 asks for one that is free, and says to which. The error is a
    /// fault of the door, which stays bound as it was.
    fn bind(&mut self, port: u16) -> Result<u16, Failed>
        ensures bound { IsBound (at_door door self.old self.new) result }
        ensures port { IsAskedPort port result }
        ensures asks { door.asked self.old self.new port }
        ensures coming { KeepsComing (at_door door self.old self.new) }
        ensures served { KeepsServed (at_door door self.old self.new) }
        ensures counted { door.faults self.old ≤ door.faults self.new };

    /// The next link, or none where it is told that no more come; over a socket it waits for one. The error is a fault
    /// of the door.
    fn admit(&mut self) -> Result<Option<Self::Link>, Failed>
        ensures admitted { IsAdmitted (at_door door self.old self.new)
            (given_link Self.Link.link Self.Link.Source.source result) }
        ensures asks { (before : Self) (port : ℕ) → door.asked before self.old port → door.asked before self.new port }
        ensures served { KeepsServed (at_door door self.old self.new) }
        ensures port { KeepsPort (at_door door self.old self.new) }
        ensures counted { door.faults self.old ≤ door.faults self.new };

    /// Waits until something may be done, over links that it gave and that stand in lanes: marks the lanes of whose links
    /// a take needn't wait, and says how many more calls of `admit` needn't, of which it takes care only where it `admits`.
    /// Over a socket it waits for the first of these, for a while at most. Nothing changes by it, and nothing is promised of
    /// what it marks.
    fn wait(&mut self, links: &[Option<Self::Link>], admits: bool, ready: &mut [bool]) -> usize
        requires { length ready.old ≡ length links.now }
        ensures { self.new ≡ self.old };

    /// Takes back a link that it gave, and tells what went through it. A fault of the link is one of the door; so is
    /// want of memory to tell of it, behind which nothing is told any more.
    fn done(&mut self, link: Self::Link)
        ensures done { IsDone (view_of Self.Link.link Self.Link.Source.source link) (at_door door self.old self.new) }
        ensures coming { KeepsComing (at_door door self.old self.new) }
        ensures port { KeepsPort (at_door door self.old self.new) }
        ensures shut { KeepsShut (at_door door self.old self.new) }
        ensures asks { (before : Self) (port : ℕ) → door.asked before self.old port → door.asked before self.new port };
}

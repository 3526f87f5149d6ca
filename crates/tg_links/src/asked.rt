//! Descriptors that are waited for.
use libc::net::{POLLIN, poll};
use libc::types::pollfd;
use std::os::fd::RawFd;

/// How many descriptors are waited for at most: those of a door, which are its own, 64 of streams that are closing, and 64 of
/// links.
const MOST: usize = 129;

/// A place for a descriptor.
const NONE: pollfd = pollfd {
    fd: -1,
    events: POLLIN,
    revents: 0,
};

/// Descriptors, 129 at most, in order, of which each is waited for until a read of it, or an `accept`, needn't wait: until bytes
/// or a connection came, or the end, or an error.
///
/// POSIX.1-2017, `poll`. No clause speaks of what is told.
#[derive(Drop)]
pub struct Asked {
    places: [pollfd; MOST],
    count: usize,
}

impl Asked {
    /// None.
    pub fn new() -> Asked {
        Asked {
            places: [NONE; MOST],
            count: 0,
        }
    }

    /// Asks for one more, behind the others, where there is room.
    pub fn ask(&mut self, fd: RawFd) {
        if let Some(place) = self.places.get_mut(self.count) {
            place.fd = fd;
            self.count += 1;
        }
    }

    /// Waits until one of them is ready, or for so many milliseconds, or until a signal comes (`poll`, POSIX.1-2017), and says
    /// whether that could be done.
    pub fn wait(&mut self, millis: u64) -> bool {
        let timeout = i32::try_from(millis).unwrap_or(i32::MAX);
        match self.places.get_mut(..self.count) {
            Some(places) => poll(places, timeout) >= 0 || os::errno() == libc::EINTR,
            None => false,
        }
    }

    /// What was told of those from this place on.
    pub fn told(&self, from: usize) -> &[pollfd] {
        match self.places.get(from..self.count) {
            Some(places) => places,
            None => &[],
        }
    }
}

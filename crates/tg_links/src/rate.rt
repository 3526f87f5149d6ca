//! How fast the peer of a link moves bytes.

/// How many milliseconds the last bytes are counted for, and how long a peer has time for the first ones.
const SPAN: u64 = 60_000;

/// How many bytes a peer has to move in the last 60 seconds at least.
const LEAST: usize = 65_536;

/// How many milliseconds a second has, by which bytes are counted.
const SECOND: u64 = 1_000;

/// How many seconds are counted: those of a span, and the one at hand.
const SECONDS: u64 = 61;

/// A request or a reply that is under way, by a clock in milliseconds: when it began, and how many bytes its peer moved in
/// each of the last seconds.
#[derive(Drop)]
pub(crate) struct Rate {
    since: u64,
    /// The second of the last bytes.
    second: u64,
    /// The bytes of that second and of the 60 before it, each at the second's number modulo 61.
    bytes: [usize; SECONDS as usize],
}

impl Rate {
    /// One that begins at this time.
    pub(crate) fn new(since: u64) -> Rate {
        Rate {
            since,
            second: since / SECOND,
            bytes: [0; SECONDS as usize],
        }
    }

    /// Counts so many bytes more, which the peer moved by this time.
    pub(crate) fn count(&mut self, bytes: usize, now: u64) {
        let now = now / SECOND;
        for passed in 1..=now.saturating_sub(self.second).min(SECONDS) {
            if let Some(place) = self.place(self.second.saturating_add(passed)) {
                *place = 0;
            }
        }
        self.second = self.second.max(now);
        if let Some(place) = self.place(self.second) {
            *place = place.saturating_add(bytes);
        }
    }

    /// The place of the bytes of a second.
    fn place(&mut self, second: u64) -> Option<&mut usize> {
        self.bytes.get_mut((second % SECONDS) as usize)
    }

    /// How many milliseconds are left until the peer is too slow, where it moves no more: until 60 seconds have passed, and fewer
    /// than 65,536 bytes were moved in the last 60. Of a second all bytes are counted until it is over for 60 seconds.
    pub(crate) fn left(&self, now: u64) -> u64 {
        let mut moved = self
            .bytes
            .iter()
            .fold(0, |moved: usize, bytes| moved.saturating_add(*bytes));
        let mut slow_at = self.since.saturating_add(SPAN);
        let oldest = self.second.saturating_sub(SECONDS - 1);
        for passed in 0..SECONDS {
            if moved < LEAST {
                break;
            }
            let second = oldest.saturating_add(passed);
            let place = (second % SECONDS) as usize;
            moved = moved.saturating_sub(self.bytes.get(place).copied().unwrap_or(0));
            slow_at = slow_at.max(second.saturating_add(SECONDS).saturating_mul(SECOND));
        }
        slow_at.saturating_sub(now)
    }
}

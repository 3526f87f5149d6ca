//! What is told of a fetch while it goes on.

/// How far a fetch has come.
#[derive(Clone, Copy, Debug, PartialEq, Eq)]
pub struct Told {
    /// How many bytes of the answer were put.
    pub bytes: u64,
    /// How many blocks came in sections and were verified.
    pub blocks: u64,
}

/// Watches fetches while they go on. What it does has no part in what they put, nor in how they end.
pub trait Watch {
    /// A piece of the reply was taken, and more is wanted: so far the fetch has come.
    fn told(&mut self, told: Told);

    /// The fetch has ended, accepted or not. It comes once a fetch, before its end is answered.
    fn ended(&mut self);
}

/// Nobody watches.
#[derive(Clone, Copy, Debug, PartialEq, Eq)]
pub struct Unwatched;

impl Watch for Unwatched {
    fn told(&mut self, _told: Told) {}

    fn ended(&mut self) {}
}

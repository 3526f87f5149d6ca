//! What a reader of a body gives.

/// What bytes of a piece gave.
#[derive(Clone, Copy, Debug, PartialEq, Eq)]
pub enum Body {
    /// The whole piece was taken, and more bytes are wanted.
    Need,
    /// The bytes of the piece from `start` up to `end` are bytes of the body.
    Part { start: usize, end: usize },
    /// The body is whole.
    End,
}

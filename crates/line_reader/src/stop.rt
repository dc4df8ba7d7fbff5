//! Why a block of lines ends.

/// Why a block of lines ends where it does.
#[derive(Clone, Copy, Debug, PartialEq, Eq)]
pub enum Stop {
    /// It has as many lines or bytes as a block has.
    More,
    /// The source came to its end.
    End,
    /// The source failed; no complete line among the bytes taken follows.
    Read,
    /// The next line has more bytes than a line may have.
    TooLong,
    /// The input has more bytes than it may have, and the next line isn't complete before that.
    TooLarge,
}

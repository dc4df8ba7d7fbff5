//! When a block of lines has enough.

/// A block has enough where it has so many lines, or whole lines of so many bytes. It may have more: all that one take brings.
#[derive(Clone, Copy, Debug, PartialEq, Eq)]
pub struct BlockSize {
    pub lines: usize,
    pub bytes: usize,
}

impl BlockSize {
    /// Long enough to be read in pieces side by side.
    pub fn long() -> BlockSize {
        BlockSize {
            lines: 65_536,
            bytes: 16_777_216,
        }
    }

    /// Short enough to stay in a processor's cache with what is read from it.
    pub fn short() -> BlockSize {
        BlockSize {
            lines: 8_192,
            bytes: 262_144,
        }
    }
}

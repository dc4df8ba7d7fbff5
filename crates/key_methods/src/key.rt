//! A key.
use value_lists::Bytes;

/// The key of a group. One of these stands for one tuple of values of the key columns.
#[derive(Debug, Drop)]
pub enum Key {
    /// The bytes of one number, spelled as one number of `width` bytes; of width 0 where there is no key column.
    Small { word: u64, width: u8 },
    /// The bytes of two numbers or more, side by side.
    Wide { word: u128, width: u8 },
    /// The bytes themselves.
    Long(Bytes),
}

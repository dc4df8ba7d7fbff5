//! A name in a line.

use value_lists::Bytes;

/// A name that stands in a line, and the place of its first byte there, in bytes from 0.
#[derive(Debug, Drop)]
pub struct WrittenName {
    pub at: u64,
    pub name: Bytes,
}

//! The parameters of a function as they are written.
use value_lists::Bytes;

/// A literal.
#[derive(Debug, Drop)]
pub enum Literal {
    Int(i128),
    /// The digits without the point, and how many of them stand behind it.
    Decimal { units: u64, places: u32 },
    Text(Bytes),
}

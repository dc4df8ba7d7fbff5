//! Lists and boxes that contracts see as what they hold.
//!
//! A `Seq` is seen as the list of its items and a `Boxed` as its value, so two that hold the same are
//! equal in a contract, wherever in memory they lie. A recursive type may hold itself through either
//! of them. How each of them holds its parts stands in `specs/formers`.
#![tactic(auto)]

mod boxed;
mod out_of_memory;
mod seq;
mod seq_keys;

pub use boxed::Boxed;
pub use out_of_memory::OutOfMemory;
pub use seq::Seq;

/// A text or any other string of bytes.
pub type Bytes = Seq<u8>;

//! Keys of groups: how a tuple of values of the key columns becomes one key, and back.
//!
//! Plain numbers stand side by side in one word, a String alone is its bytes, and all else is written
//! value by value (`specs/KeyBytes.antt`, `specs/Keys.antt`). One key stands for one tuple: `law_keys`.
//! The hash of a key's bytes tells in which of 256 buckets its group stands (`specs/Hash.antt`).
#![tactic(auto)]

mod buckets;
mod hash;
mod key;
mod kind;
mod laws;
mod number;
mod packing;
mod unpacking;
mod writing;

pub use buckets::bucket;
pub use hash::{hash_behind, hash_of};
pub use key::Key;
pub use kind::KeyKind;
pub use laws::law_keys;
pub use number::{number_width, number_word};
pub use packing::{Joined, behind, pack};
pub use unpacking::unpack;
pub use writing::{write_number, write_text};

//! The keys of a table's groups, by their places.
//!
//! A set of keys is seen as the list of the tuples whose keys it has, in the order of their first appearance
//! (`specs/Sets.antt`). It is asked for a batch of rows at once, and answers the place of each row's key; a new key goes
//! last. The kind of key is chosen once: numbers stand as words, a String is looked up where it stands in its column.
//! It is asked as well for the keys of another set, which go over as they are packed, and for the key of one tuple; and
//! the key at a place is told as its tuple (`specs/Tuples.antt`), and all places in the order of their tuples
//! (`specs/Orders.antt`).
//!
//! Strangers choose keys, so a set hashes them by a seed of the process (std's `RandomState`, SipHash with random keys):
//! which keys collide, nobody outside knows.
#![tactic(auto)]

mod key_set;
mod merging;
mod number_order;
mod ordering;
mod placed;
mod places;
mod signs;
mod texts;
mod tuple_order;
mod tuples;

pub use key_set::KeySet;

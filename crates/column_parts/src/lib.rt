//! The flat stores that columns are made of.
//!
//! `Numbers` keeps numbers of one type in a `Vec` of their width and is seen as the list of them;
//! `Texts` keeps strings of bytes one behind another and is seen as the list of them.
#![tactic(auto)]

mod number_slices;
mod number_type;
mod numbers;
mod places;
mod texts;

pub use number_type::NumberType;
pub use numbers::Numbers;
pub use places::{append_places, part};
pub use texts::Texts;

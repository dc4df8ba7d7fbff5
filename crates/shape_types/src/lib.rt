//! The types that written types stand for.
//!
//! specs/Types.antt says which type a written shape stands for, and which state type in it is refused first.
//! specs/Countable.antt says which shapes are short enough to be judged, and specs/AllowedParts.antt which give legal types.
#![tactic(auto)]

mod laws;
mod types;

pub use laws::{law_allowed_parts, law_read_types_are_legal, law_short_texts_are_countable};
pub use types::type_of;

//! States as bytes, exact both ways.
//!
//! `specs/Reading.antt` reads a text from left to right and says its first fault; `specs/Laws.antt` says what that has to do with the
//! texts of state_texts.
#![tactic(auto)]

// reading
mod bodies;
mod decode_fault;
mod distinct;
mod events;
mod leaves;
mod rows;
mod source;
mod values;

// whole texts, and states in fields
mod codec;
mod decoding;
mod laws;

pub use codec::{Codec, law_legal_types_have_states};
pub use decode_fault::DecodeFault;
pub use decoding::{decode, encode};
pub use laws::law_state_texts;

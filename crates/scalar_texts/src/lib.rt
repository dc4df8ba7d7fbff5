//! The texts of numbers, strings and states, and what reads and writes the bytes of states (manual: "TabSeparated").
//! specs/Answer.antt says what a field of each of these types says.
#![tactic(auto)]

mod fault;
mod hex_texts;
mod numbers;
mod scalars;
mod states;

pub use fault::{FieldFault, StateFault, StateReadFault};
pub use scalars::{is_null, read_integer, read_null, read_scalar, read_state, read_string};
pub use states::{StateReader, StateWriter};

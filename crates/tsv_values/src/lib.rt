//! The text of one value in a field, both ways (manual: "TabSeparated").
//! specs/Answer.antt says what a field of each type says, specs/Elements.antt what stands inside arrays and maps, and
//! specs/Writing.antt how a value is written.
#![tactic(auto)]

// reading
mod atoms;
mod elements;
mod found;
mod next;
mod quotes;
mod reading;

// writing
mod writing;

// what is written is read back
mod laws;

pub use laws::{law_one_field_answer, law_values_read_back};
pub use reading::read_value;
pub use scalar_texts::{FieldFault, StateFault, StateReadFault, StateReader, StateWriter};
pub use writing::write_value;

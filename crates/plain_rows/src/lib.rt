//! Rows of values as the functions read them: arguments, numbers, bits, events, and the defaults over no rows.
//!
//! Each call answers as a word of the definitions does over the image of the rows (`rows_of`, specs/Rows.antt); the
//! words stand in `agg_meaning`, specs/Functions.antt and specs/Events.antt. Nothing here is quick: the crates above
//! are what every faster body is compared with.
#![tactic(auto)]

// rows and the defaults over none
mod arguments;
mod defaults;

// what rows are to functions
mod bits;
mod events;
mod numbers;

pub use arguments::{
    arg, arg_copy, copy_row, first_args, is_live, live_rows, number, push_rows, push_values,
};
pub use bits::{Operation, bits_of_none, folded, from_bits};
pub use defaults::{any_nullable, blank_of, default_of, first_type, intervals, nothing_of};
pub use events::{events_of, flag, mask_of, met_set, retained};
pub use numbers::total;

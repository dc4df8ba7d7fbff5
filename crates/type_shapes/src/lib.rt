//! The texts of types, read.
//! specs/Shapes.antt says what the shape of a type is and which shape a text spells, specs/Literals.antt what a literal
//! in it stands for, and specs/Answer.antt what the reader answers. That printed types read back stands in
//! specs/ReadsBack.antt.
#![tactic(auto)]

mod laws;
mod literal;
mod mark;
mod plain;
mod reading;
mod shape;

pub use laws::{law_one_shape, law_types_read_back};
pub use literal::{has_minus, integer, literal as read_literal};
pub use mark::{Mark, is_mark};
pub use reading::{read_front, read_type_shape};
pub use shape::{ShapeFault, TypeShape};

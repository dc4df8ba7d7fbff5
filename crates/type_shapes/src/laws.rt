//! What holds of the texts of types, as contracts of functions that do nothing.

ghost use Rattle.type_shapes.specs.OneShape.{OneShapeAnswer};
ghost use Rattle.type_shapes.specs.ReadsBack.{TypesReadBack};

use tsv_text::{law_one_answer, law_round_trip};
use type_names::law_one_type;

/// What `print_type` of type_texts prints for a type is read back as that type's shape: for a type whose Nullable and
/// Map have the parts that they may have, and that is at most sixteen levels deep.
pub fn law_types_read_back()
    ensures { TypesReadBack }
{
    law_one_answer();
    law_round_trip();
    law_one_type();
}

/// What [`read_type_shape`](crate::read_type_shape) says of a text leaves no choice: the text has one shape, or one fault.
pub fn law_one_shape()
    ensures { OneShapeAnswer }
{
    law_one_answer();
    law_one_type();
}

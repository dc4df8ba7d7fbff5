//! What holds of printed texts, as contracts of functions that do nothing.

ghost use Rattle.type_laws.specs.Patterns.{PatternsReadBack};
ghost use Rattle.type_laws.specs.Types.{PrintedTypesAreRead};

use type_shapes::law_types_read_back;

/// What `print_pattern` of type_texts prints is read back by `read_pattern` of pattern_texts.
pub fn law_patterns_read_back()
    ensures { PatternsReadBack }
{}

/// What `print_type` of type_texts prints for a legal type is read as that type, by `read_type_shape` of type_shapes and
/// then `type_of` of shape_types.
pub fn law_printed_types_are_read()
    ensures { PrintedTypesAreRead }
{
    law_types_read_back();
}

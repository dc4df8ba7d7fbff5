//! What holds of shapes, as contracts of functions that do nothing.

ghost use Rattle.shape_types.specs.AllowedParts.{AllowedPartsGiveLegalTypes};
ghost use Rattle.shape_types.specs.Countable.{ShortTextsAreCountable};
ghost use Rattle.shape_types.specs.Legal.{ReadTypesAreLegal};

use agg_typing::law_typing;

/// The shape that is read from a text of fewer than 2^32 bytes is one that `type_of` takes.
pub fn law_short_texts_are_countable()
    ensures { ShortTextsAreCountable }
{}

/// The type that a shape which was read stands for is legal, so that `resolve` of chain_types takes it for an argument.
pub fn law_read_types_are_legal()
    ensures { ReadTypesAreLegal }
{
    law_typing();
}

/// Each shape whose Nullables and maps have the parts that they may have stands for a legal type, also one that no text was
/// read for.
pub fn law_allowed_parts()
    ensures { AllowedPartsGiveLegalTypes }
{
    law_typing();
}

//! What holds of all values, as contracts of functions that do nothing.
ghost use Rattle.value_types.specs.Images.{TypesAreNarrow, TypesHaveWidths};
ghost use Rattle.value_types.specs.OneToOne.{FoldsLoseNothing};

/// Equal images come from equal values: what a contract says of the image of a type, a chain, a value
/// or a tree, it says of that type, chain, value or tree itself.
pub fn law_folds()
    ensures { FoldsLoseNothing }
{}

/// What types are in the definitions: their numbers have 8 to 64 bits, at every depth. This is what the laws of rows, of
/// fields and of printed types ask of a type.
pub fn law_types()
    ensures widths { TypesHaveWidths }
    ensures narrow { TypesAreNarrow }
{}

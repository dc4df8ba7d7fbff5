//! The types of one name.

ghost use Rattle.std.specs.Prelude.{◌≡◌};
ghost use Rattle.std.specs.Option.{option_map};
ghost use Rattle.std.specs.Str.{bytes_eq};
ghost use Rattle.type_shapes.specs.Shapes.{plain_shape};
ghost use Rattle.type_shapes.specs.Folds.{shape_of};

use crate::shape::TypeShape;

/// Whether a word is this name.
pub fn is(word: &[u8], name: &[u8]) -> bool
    ensures { result ≡ bytes_eq word.now name.now }
{
    word == name
}

/// The type of this name, if it is one without parts.
pub fn plain_shape(name: &[u8]) -> Option<TypeShape>
    ensures { option_map shape_of result ≡ plain_shape name.now }
{
    if is(name, b"UInt8") {
        Some(TypeShape::U8)
    } else if is(name, b"UInt16") {
        Some(TypeShape::U16)
    } else if is(name, b"UInt32") {
        Some(TypeShape::U32)
    } else if is(name, b"UInt64") {
        Some(TypeShape::U64)
    } else if is(name, b"Int8") {
        Some(TypeShape::I8)
    } else if is(name, b"Int16") {
        Some(TypeShape::I16)
    } else if is(name, b"Int32") {
        Some(TypeShape::I32)
    } else if is(name, b"Int64") {
        Some(TypeShape::I64)
    } else if is(name, b"String") {
        Some(TypeShape::Str)
    } else {
        None
    }
}

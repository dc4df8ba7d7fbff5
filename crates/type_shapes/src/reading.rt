//! A text is judged first, and then its shape is built by recursion, with how deep it may still go.

ghost use Rattle.std.specs.Prelude.{◌≤◌, ◌<◌, IfOk, IfSome, length, map, codes};
ghost use Rattle.std.specs.Option.{option_map};
ghost use Rattle.type_shapes.specs.Answer.{IsShapeAnswer};
ghost use Rattle.type_shapes.specs.Folds.{shape_of};
ghost use Rattle.chain_params.specs.Literals.{literal_of};
ghost use Rattle.type_shapes.specs.Reading.{HasType, ReadsLiterals, ReadsType, ReadsInside, ReadsBehind, ReadsTypes};

use crate::literal::literal;
use crate::mark::{Mark, behind, first_token, first_word};
use crate::plain::{is, plain_shape};
use crate::shape::{ShapeFault, TypeShape};
use std::alloc::Global;
use type_names::type_fault;
use value_lists::{Boxed, Bytes, OutOfMemory, Seq};
use value_types::Literal;

/// How deep types may stand in one another.
const MOST_NESTING: u32 = 16;

/// The literals in brackets behind a name, if brackets stand there, and what stands behind them.
fn read_literals(alloc: Global, text: &[u8]) -> Result<Option<(Seq<Literal>, &[u8])>, OutOfMemory>
    ensures read { IfOk result (λ found. ReadsLiterals text.now (option_map (λ f. (map literal_of f.0, f.1.now)) found)) }
    ensures shorter { IfOk result (λ found. IfSome found (λ f. length f.1.now ≤ length text.now)) }
{
    let mut literals = Seq::new(alloc);
    let Some(mut rest) = behind(Mark::Opening, text) else {
        return Ok(Some((literals, text)));
    };
    while let Some(first) = first_token(rest) {
        let Some(literal) = literal(alloc, first.token)? else {
            return Ok(None);
        };
        literals.push(literal)?;
        match behind(Mark::Dividing, first.rest) {
            Some(after) => rest = after,
            None => match behind(Mark::Closing, first.rest) {
                Some(after) => return Ok(Some((literals, after))),
                None => return Ok(None),
            },
        }
    }
    Ok(None)
}

/// A type of at most so many levels at the front of a text, and what stands behind it.
#[cycle(read_type)]
fn read_type(
    alloc: Global,
    text: &[u8],
    most: u32,
) -> Result<Option<(TypeShape, &[u8])>, OutOfMemory>
    ensures read { IfOk result (λ found. ReadsType most text.now (option_map (λ f. (shape_of f.0, f.1.now)) found)) }
    ensures shorter { IfOk result (λ found. IfSome found (λ f. length f.1.now < length text.now)) }
{
    if most == 0 {
        return Ok(None);
    }
    let Some((name, rest)) = first_word(text) else {
        return Ok(None);
    };
    if let Some(plain) = plain_shape(name) {
        return Ok(Some((plain, rest)));
    }
    if is(name, b"Array") {
        return read_array(alloc, rest, most - 1);
    }
    if is(name, b"Map") {
        return read_map(alloc, rest, most - 1);
    }
    if is(name, b"Nullable") {
        return read_nullable(alloc, rest, most - 1);
    }
    if is(name, b"AggregateFunction") {
        return read_state(alloc, rest, most - 1);
    }
    Ok(None)
}

/// A type in brackets.
#[cycle(read_type)]
fn read_inside(
    alloc: Global,
    text: &[u8],
    most: u32,
) -> Result<Option<(TypeShape, &[u8])>, OutOfMemory>
    ensures read { IfOk result (λ found. ReadsInside most text.now (option_map (λ f. (shape_of f.0, f.1.now)) found)) }
    ensures shorter { IfOk result (λ found. IfSome found (λ f. length f.1.now < length text.now)) }
{
    let Some(inside) = behind(Mark::Opening, text) else {
        return Ok(None);
    };
    let Some((shape, after)) = read_type(alloc, inside, most)? else {
        return Ok(None);
    };
    let Some(rest) = behind(Mark::Closing, after) else {
        return Ok(None);
    };
    Ok(Some((shape, rest)))
}

/// What stands behind `Array`.
#[cycle(read_type)]
fn read_array(
    alloc: Global,
    text: &[u8],
    most: u32,
) -> Result<Option<(TypeShape, &[u8])>, OutOfMemory>
    ensures read { IfOk result (λ found. ReadsBehind (codes "Array") most text.now (option_map (λ f. (shape_of f.0, f.1.now)) found)) }
    ensures shorter { IfOk result (λ found. IfSome found (λ f. length f.1.now < length text.now)) }
{
    let Some((item, rest)) = read_inside(alloc, text, most)? else {
        return Ok(None);
    };
    Ok(Some((TypeShape::Arr(Boxed::new(alloc, item)?), rest)))
}

/// What stands behind `Nullable`.
#[cycle(read_type)]
fn read_nullable(
    alloc: Global,
    text: &[u8],
    most: u32,
) -> Result<Option<(TypeShape, &[u8])>, OutOfMemory>
    ensures read { IfOk result (λ found. ReadsBehind (codes "Nullable") most text.now (option_map (λ f. (shape_of f.0, f.1.now)) found)) }
    ensures shorter { IfOk result (λ found. IfSome found (λ f. length f.1.now < length text.now)) }
{
    let Some((of, rest)) = read_inside(alloc, text, most)? else {
        return Ok(None);
    };
    Ok(Some((TypeShape::Nullable(Boxed::new(alloc, of)?), rest)))
}

/// What stands behind `Map`.
#[cycle(read_type)]
fn read_map(
    alloc: Global,
    text: &[u8],
    most: u32,
) -> Result<Option<(TypeShape, &[u8])>, OutOfMemory>
    ensures read { IfOk result (λ found. ReadsBehind (codes "Map") most text.now (option_map (λ f. (shape_of f.0, f.1.now)) found)) }
    ensures shorter { IfOk result (λ found. IfSome found (λ f. length f.1.now < length text.now)) }
{
    let Some(first) = behind(Mark::Opening, text) else {
        return Ok(None);
    };
    let Some((key, after_key)) = read_type(alloc, first, most)? else {
        return Ok(None);
    };
    let Some(second) = behind(Mark::Dividing, after_key) else {
        return Ok(None);
    };
    let Some((item, after_item)) = read_type(alloc, second, most)? else {
        return Ok(None);
    };
    let Some(rest) = behind(Mark::Closing, after_item) else {
        return Ok(None);
    };
    let key = Boxed::new(alloc, key)?;
    Ok(Some((TypeShape::Map(key, Boxed::new(alloc, item)?), rest)))
}

/// What stands behind `AggregateFunction`.
#[cycle(read_type)]
fn read_state(
    alloc: Global,
    text: &[u8],
    most: u32,
) -> Result<Option<(TypeShape, &[u8])>, OutOfMemory>
    ensures read { IfOk result (λ found. ReadsBehind (codes "AggregateFunction") most text.now (option_map (λ f. (shape_of f.0, f.1.now)) found)) }
    ensures shorter { IfOk result (λ found. IfSome found (λ f. length f.1.now < length text.now)) }
{
    let Some(inside) = behind(Mark::Opening, text) else {
        return Ok(None);
    };
    let Some((word, after_name)) = first_word(inside) else {
        return Ok(None);
    };
    let Some((literals, after_literals)) = read_literals(alloc, after_name)? else {
        return Ok(None);
    };
    let Some((types, rest)) = read_types(alloc, after_literals, most)? else {
        return Ok(None);
    };
    let name = Bytes::from_slice(alloc, word)?;
    Ok(Some((TypeShape::State(name, literals, types), rest)))
}

/// Types of at most so many levels, each behind a comma, up to the bracket that closes them.
#[cycle(read_type)]
fn read_types(
    alloc: Global,
    text: &[u8],
    most: u32,
) -> Result<Option<(Seq<TypeShape>, &[u8])>, OutOfMemory>
    ensures read { IfOk result (λ found. ReadsTypes most text.now (option_map (λ f. (map shape_of f.0, f.1.now)) found)) }
    ensures shorter { IfOk result (λ found. IfSome found (λ f. length f.1.now < length text.now)) }
{
    let mut types = Seq::new(alloc);
    let mut rest = text;
    while let Some(after) = behind(Mark::Dividing, rest) {
        let Some((shape, left)) = read_type(alloc, after, most)? else {
            return Ok(None);
        };
        types.push(shape)?;
        rest = left;
    }
    let Some(after) = behind(Mark::Closing, rest) else {
        return Ok(None);
    };
    Ok(Some((types, after)))
}

/// The shape of the type at the front of a text, and what stands behind it; `None` where types stand in one another more
/// than sixteen deep. Judge first that a type stands there.
///
/// # Errors
/// [`OutOfMemory`] where there is no room for the shape.
pub fn read_front(alloc: Global, text: &[u8]) -> Result<Option<(TypeShape, &[u8])>, OutOfMemory>
    requires { HasType text.now }
    ensures { IfOk result (λ found. ReadsType 16 text.now (option_map (λ f. (shape_of f.0, f.1.now)) found)) }
{
    read_type(alloc, text, MOST_NESTING)
}

/// The shape of the type that a text spells (manual: "Data types", "AggregateFunction"). Spaces between tokens are
/// skipped.
///
/// # Errors
/// `Syntax` is the place of the first token that no type goes on with, or the text's length where it ends too early.
/// `Depth` comes where the text spells a type whose parts stand in one another more than sixteen deep, which is this
/// project's own choice.
pub fn read_type_shape(alloc: Global, text: &[u8]) -> Result<TypeShape, ShapeFault>
    ensures { IsShapeAnswer text.now result }
{
    if let Some(at) = type_fault(alloc, text)? {
        return Err(ShapeFault::Syntax(at));
    }
    match read_type(alloc, text, MOST_NESTING)? {
        Some((shape, _)) => Ok(shape),
        None => Err(ShapeFault::Depth),
    }
}

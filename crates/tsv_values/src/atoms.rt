//! The quick reader of numbers, strings, states and NULL inside an array or a map.
ghost use Rattle.std.specs.Prelude.{◌≡◌, ◌∷◌, IfOk, IsTrue, Ok};
ghost use Rattle.std.specs.Option.{option_map};
ghost use Rattle.agg_terms.specs.Chains.{Str};
ghost use Rattle.agg_terms.specs.Fitting.{fits_value};
ghost use Rattle.agg_terms.specs.Values as family;
ghost use Rattle.scalar_texts.specs.Answer.{state_answer};
ghost use Rattle.scalar_texts.specs.Numbers.{HasRange};
ghost use Rattle.scalar_texts.specs.States.{ReadsStates};
ghost use Rattle.value_types.specs.Folds.{ty_of, value_of};
ghost use Rattle.tsv_values.specs.Elements.{ElementSays, QuotedSays};
ghost use Rattle.tsv_values.specs.proving.Reading.{IsElementRead, IsQuotedCut, null_ahead};

use crate::found::{Found, Missing, escape_missing, missing_of};
use crate::quotes::{cut_at_quote, cut_number};
use scalar_texts::{StateReader, read_integer, read_state, read_string};
use std::alloc::Global;
use tsv_text::{law_one_answer, unescape};
use value_types::Ty;

/// A number of the type.
pub(crate) fn number<'t>(ty: &Ty, text: &'t [u8]) -> Result<Found<'t>, Missing>
    requires { HasRange (ty_of ty.now) }
    ensures read { (reads : ReadsStates) → IsElementRead (ElementSays reads (ty_of ty.now)) text.now result }
    ensures fits { IfOk result (λ found. IsTrue (fits_value (ty_of ty.now) (value_of found.value))) }
{
    let (number, rest) = cut_number(text);
    match read_integer(ty, number) {
        Ok(value) => Ok(Found { value, rest }),
        Err(fault) => Err(missing_of(fault)),
    }
}

/// What stands in quotes at the front of a text, and what follows the closing quote.
fn cut_quoted(text: &[u8]) -> Option<(&[u8], &[u8])>
    ensures { IsQuotedCut text.now (option_map (λ cut. (cut.0.now, cut.1.now)) result) }
{
    match text {
        [b'\'', inside @ ..] => cut_at_quote(inside),
        _ => None,
    }
}

/// A string in quotes.
pub(crate) fn string(alloc: Global, text: &[u8]) -> Result<Found<'_>, Missing>
    ensures read { IsElementRead (QuotedSays (λ bytes. Ok (family.Bytes bytes))) text.now result }
    ensures fits { IfOk result (λ found. IsTrue (fits_value Str (value_of found.value))) }
{
    law_one_answer();
    match cut_quoted(text) {
        Some((inside, rest)) => match read_string(alloc, inside) {
            Ok(value) => Ok(Found { value, rest }),
            Err(fault) => Err(missing_of(fault)),
        },
        None => Err(Missing::Nothing),
    }
}

/// A state of the type, in hexadecimal and in quotes.
pub(crate) fn state<'t, R: StateReader>(
    alloc: Global,
    reader: &R,
    ty: &Ty,
    text: &'t [u8],
) -> Result<Found<'t>, Missing>
    requires { R.takes reader.now (ty_of ty.now) }
    ensures read { IsElementRead (QuotedSays (state_answer (R.reads reader.now) (ty_of ty.now))) text.now result }
    ensures fits { IfOk result (λ found. IsTrue (fits_value (ty_of ty.now) (value_of found.value))) }
{
    law_one_answer();
    let Some((inside, rest)) = cut_quoted(text) else {
        return Err(Missing::Nothing);
    };
    let hex = match unescape(alloc, inside) {
        Ok(hex) => hex,
        Err(fault) => return Err(escape_missing(fault)),
    };
    match read_state(alloc, reader, ty, hex.as_slice()) {
        Ok(value) => Ok(Found { value, rest }),
        Err(fault) => Err(Missing::Refused(fault)),
    }
}

/// The text behind `NULL`, if it stands at the front.
pub(crate) fn behind_null(text: &[u8]) -> Option<&[u8]>
    ensures { option_map (λ rest. rest.now) result ≡ null_ahead text.now }
{
    match text {
        [b'N', b'U', b'L', b'L', rest @ ..] => Some(rest),
        _ => None,
    }
}

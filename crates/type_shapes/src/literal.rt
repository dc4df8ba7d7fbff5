//! What a literal stands for.

ghost use Rattle.std.specs.Prelude.{◌≡◌, ◌<◌, ◌^◌, IfOk, MatchOption, ℕ, List, Ok, length, false};
ghost use Rattle.std.specs.Char.{digit_value};
ghost use Rattle.std.specs.List.{position_or_len};
ghost use Rattle.std.specs.Str.Parse.{digits_value_after};
ghost use Rattle.line_tokens.specs.Tokens.{quoted, decimal};
ghost use Rattle.line_tokens.specs.Views.{token_seen};
ghost use Rattle.tsv_text.specs.Escapes.{IsUnescaped};
ghost use Rattle.type_names.specs.TypeTexts.{is_literal};
ghost use Rattle.type_shapes.specs.Literals.{is_point, has_minus, integer_value, IsLiteral, HasValue, IsSmallInteger, IsSmallDecimal};
ghost use Rattle.chain_params.specs.Literals.{literal_of};

use line_tokens::Token;
use std::alloc::Global;
use tsv_text::{TextFault, law_one_answer, unescape};
use value_lists::OutOfMemory;
use value_types::Literal;

fn digit_value(byte: u8) -> u8
    ensures { result ≡ digit_value byte }
{
    match byte {
        b'0'..=b'9' => byte - b'0',
        b'A'..=b'Z' => byte - b'A' + 10,
        b'a'..=b'z' => byte - b'a' + 10,
        _ => 36,
    }
}

/// The number that digits write behind those of a number.
fn with_digits(number: u128, digits: &[u8]) -> u128
    requires { digits_value_after 10 number digits.now < 2 ^ 127 }
    ensures { result ≡ digits_value_after 10 number digits.now }
{
    let mut number = number;
    let mut left = digits;
    while let [digit, after @ ..] = left {
        number = number * 10 + u128::from(digit_value(*digit));
        left = after;
    }
    number
}

/// Whether digits stand behind a minus.
pub fn has_minus(text: &[u8]) -> bool
    ensures { result ≡ has_minus text.now }
{
    match text {
        [] => false,
        [first, ..] => *first == b'-',
    }
}

/// The number that digits write, with a minus before them or without.
#[tactic(auto, using(crate::proofs::Digits::minus_is_some))]
pub fn integer(text: &[u8]) -> i128
    requires { IsSmallInteger text.now }
    ensures { result ≡ integer_value text.now }
{
    if has_minus(text) {
        -(with_digits(0, text.split_at(1).1) as i128)
    } else {
        with_digits(0, text) as i128
    }
}

fn point_place(text: &[u8]) -> usize
    ensures { result ≡ position_or_len is_point text.now }
{
    text.iter().take_while(|byte| **byte != b'.').count()
}

fn decimal(text: &[u8]) -> Literal
    requires { IsSmallDecimal text.now }
    ensures { IsLiteral (decimal text.now) (literal_of result) }
{
    let (front, behind) = text.split_at(point_place(text));
    let back = behind.split_at(1).1;
    let units = with_digits(with_digits(0, front), back);
    Literal::Decimal {
        units: units as u64,
        places: back.len() as u32,
    }
}

/// A text in quotes, with its escapes undone.
fn quoted(alloc: Global, inside: &[u8]) -> Result<Option<Literal>, OutOfMemory>
    requires { (bytes : List ℕ) × IsUnescaped inside.now (Ok bytes) }
    ensures { IfOk result (λ found. MatchOption found ⊥ (λ literal. IsLiteral (quoted inside.now) (literal_of literal))) }
{
    law_one_answer();
    match unescape(alloc, inside) {
        Ok(bytes) => Ok(Some(Literal::Text(bytes))),
        Err(TextFault::OutOfMemory) => Err(OutOfMemory),
        Err(TextFault::LoneBackslash(_)) => Ok(None),
        Err(TextFault::BadHex(_)) => Ok(None),
    }
}

/// What a token stands for, if it is a literal.
pub fn literal(alloc: Global, token: Token<'_>) -> Result<Option<Literal>, OutOfMemory>
    requires { HasValue (token_seen token) }
    ensures { IfOk result (λ found. MatchOption found (is_literal (token_seen token.entry) ≡ false) (λ literal. IsLiteral (token_seen token.entry) (literal_of literal))) }
{
    match token {
        Token::Integer(text) => Ok(Some(Literal::Int(integer(text)))),
        Token::Decimal(text) => Ok(Some(decimal(text))),
        Token::Quoted(inside) => quoted(alloc, inside),
        _ => Ok(None),
    }
}

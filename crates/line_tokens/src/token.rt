//! One token after another.

ghost use Rattle.std.specs.Prelude.{◌≡◌, ◌<◌, ◌∷◌, ◌≤◌, length, drop, IfSome, MatchOption, true, [], ◌+◌};
ghost use Rattle.std.specs.List.{prefix_len};
ghost use Rattle.std.specs.Option.{option_map};
ghost use Rattle.line_tokens.specs.Tokens.{begins_name, continues_name, digit_count, number_at, negative_at, token_at, in_quotes, tokens_of, quoted_length, begins_token};
ghost use Rattle.line_tokens.specs.declared.quote.Within.TheVariants.{Plain};
ghost use Rattle.line_tokens.specs.Views.{token_seen, with_length};

use crate::numbers::{digit_count, is_small, place_count};
use crate::quote::quoted_length;

/// A token of a line.
#[derive(Clone, Copy, Debug)]
pub enum Token<'a> {
    Word(&'a [u8]),
    /// Digits, and a minus before them where it stands there.
    Integer(&'a [u8]),
    /// Digits, a point, digits.
    Decimal(&'a [u8]),
    /// What stands between the quotes, with its escapes.
    Quoted(&'a [u8]),
    OpenBracket,
    CloseBracket,
    Comma,
    /// A byte that begins no token.
    Bad,
}

/// A token, how many bytes are left from its first byte on, and the text behind it.
#[derive(Clone, Copy, Debug)]
pub struct Placed<'a> {
    pub token: Token<'a>,
    pub left: usize,
    pub rest: &'a [u8],
}

fn begins_name(byte: u8) -> bool
    ensures { result ≡ begins_name byte }
{
    byte.is_ascii_alphabetic() || byte == b'_'
}

fn continues_name(byte: u8) -> bool
    ensures { result ≡ continues_name byte }
{
    byte.is_ascii_alphabetic() || byte.is_ascii_digit() || byte == b'_'
}

fn leading_name(text: &[u8]) -> usize
    ensures { result ≡ prefix_len continues_name text.now }
{
    text.iter()
        .take_while(|byte| continues_name(**byte))
        .count()
}

#[tactic(auto, using(crate::proofs::Digits::prefix_len_le))]
fn name_length(text: &[u8]) -> usize
    ensures value { result ≡ prefix_len continues_name text.now }
    ensures within { result ≤ length text.now }
{
    leading_name(text)
}

/// The number that begins a text, and its length.
fn number_at(text: &[u8]) -> Option<(Token<'_>, usize)>
    requires digit { 0 < digit_count text.now }
    ensures value { option_map with_length result ≡ number_at text.now }
    ensures within { IfSome result (λ t. (0 < t.1) × (t.1 ≤ length text.now)) }
{
    let digits = digit_count(text);
    let places = place_count(text.split_at(digits).1);
    if places == 0 {
        let number = &text[..digits];
        return if is_small(number) {
            Some((Token::Integer(number), digits))
        } else {
            None
        };
    }
    if digits + places > 18 {
        return None;
    }
    let length = digits + 1 + places;
    Some((Token::Decimal(&text[..length]), length))
}

/// The integer that a minus begins, where its digits follow.
fn negative_at(text: &[u8]) -> Option<(Token<'_>, usize)>
    requires minus { text.now ≡ 45 ∷ drop 1 text.now }
    ensures value { option_map with_length result ≡ negative_at (drop 1 text.now) }
    ensures within { IfSome result (λ t. (0 < t.1) × (t.1 ≤ length text.now)) }
{
    let behind = text.split_at(1).1;
    let digits = digit_count(behind);
    if digits > 0 && is_small(&behind[..digits]) {
        Some((Token::Integer(&text[..digits + 1]), digits + 1))
    } else {
        None
    }
}

/// The text that a quote begins, where it is closed.
fn quoted_at(behind: &[u8]) -> Option<(Token<'_>, usize)>
    ensures value { option_map with_length result ≡ in_quotes (quoted_length Plain behind.now) behind.now }
    ensures within { IfSome result (λ t. (0 < t.1) × (t.1 ≤ length behind.now + 1)) }
{
    match quoted_length(behind) {
        Some(length) => Some((Token::Quoted(&behind[..length]), length + 2)),
        None => None,
    }
}

/// The token that begins a text, and its length; the longest is taken.
fn token_at(text: &[u8]) -> Option<(Token<'_>, usize)>
    ensures value { option_map with_length result ≡ token_at text.now }
    ensures within { IfSome result (λ t. (0 < t.1) × (t.1 ≤ length text.now)) }
{
    match text {
        [] => None,
        [b'(', ..] => Some((Token::OpenBracket, 1)),
        [b')', ..] => Some((Token::CloseBracket, 1)),
        [b',', ..] => Some((Token::Comma, 1)),
        [b'\'', behind @ ..] => quoted_at(behind),
        [b'-', ..] => negative_at(text),
        [b'0'..=b'9', ..] => number_at(text),
        [first, ..] if begins_name(*first) => {
            let length = name_length(text);
            Some((Token::Word(&text[..length]), length))
        }
        _ => None,
    }
}

/// The token at the front of a text that begins with no space.
fn placed_at(text: &[u8]) -> Placed<'_>
    requires { begins_token text.now ≡ true }
    ensures tokens { tokens_of text.now ≡ (token_seen result.token, result.left) ∷ tokens_of result.rest.now }
    ensures within { (result.left ≡ length text.now) × (length result.rest.now < length text.now) }
{
    match token_at(text) {
        Some((token, length)) => Placed {
            token,
            left: text.len(),
            rest: text.split_at(length).1,
        },
        None => Placed {
            token: Token::Bad,
            left: text.len(),
            rest: &text[..0],
        },
    }
}

/// The token that comes first in a text, if one comes; behind a bad one nothing follows.
pub fn next_token(text: &[u8]) -> Option<Placed<'_>>
    ensures tokens { MatchOption result (tokens_of text.now ≡ []) (λ p. tokens_of text.now ≡ (token_seen p.token, p.left) ∷ tokens_of p.rest.now) }
    ensures within { IfSome result (λ p. (p.left ≤ length text.now) × (length p.rest.now < p.left)) }
{
    let mut rest = text;
    while let [first, behind @ ..] = rest {
        if *first != b' ' {
            return Some(placed_at(rest));
        }
        rest = behind;
    }
    None
}

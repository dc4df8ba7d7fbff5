//! A field is unescaped by slices: up to the next backslash its bytes stand for themselves.

ghost use Rattle.std.specs.Prelude.{◌≡◌, IsTrue, ◌<◌, ◌+◌, ◌*◌, ◌&&◌, ℕ, List, Result, length, position};
ghost use Rattle.tsv_text.specs.declared.fault.TextFault.{TextFault};
ghost use Rattle.tsv_text.specs.Escapes.{is_hex_digit, hex_value, meaning_of, seen, IsUnescaped, IsSameUnescaped};
ghost use Rattle.tsv_text.specs.proving.Behind.{behind_x, behind_backslash, is_backslash};

use crate::fault::TextFault;
use std::alloc::Global;
use value_lists::Bytes;

fn is_hex_digit(byte: u8) -> bool
    ensures { result ≡ is_hex_digit byte }
{
    matches!(byte, b'0'..=b'9' | b'a'..=b'f' | b'A'..=b'F')
}

fn hex_value(byte: u8) -> u8
    requires { IsTrue (is_hex_digit byte) }
    ensures value { result ≡ hex_value byte }
    ensures small { result < 16 }
{
    if byte <= b'9' {
        byte - b'0'
    } else if byte <= b'F' {
        byte - b'A' + 10
    } else {
        byte - b'a' + 10
    }
}

fn meaning_of(letter: u8) -> u8
    ensures { result ≡ meaning_of letter }
{
    match letter {
        b'b' => 8,
        b'f' => 12,
        b'r' => 13,
        b'n' => 10,
        b't' => 9,
        b'0' => 0,
        b'a' => 7,
        b'v' => 11,
        other => other,
    }
}

/// Behind `\x`, whose backslash is at this place: the byte meant, and what follows.
fn behind_x(at: u64, rest: &[u8]) -> Result<(u8, &[u8]), TextFault>
    ensures { seen (λ x. (x.0, x.1.now)) result ≡ behind_x at rest.now }
{
    match rest {
        [high, low, after @ ..] if is_hex_digit(*high) && is_hex_digit(*low) => {
            Ok((hex_value(*high) * 16 + hex_value(*low), after))
        }
        _ => Err(TextFault::BadHex(at)),
    }
}

/// Behind a backslash at this place: the byte meant, and what follows.
fn behind_backslash(at: u64, rest: &[u8]) -> Result<(u8, &[u8]), TextFault>
    ensures { seen (λ x. (x.0, x.1.now)) result ≡ behind_backslash at rest.now }
{
    match rest {
        [] => Err(TextFault::LoneBackslash(at)),
        [b'x', after @ ..] => behind_x(at, after),
        [letter, after @ ..] => Ok((meaning_of(*letter), after)),
    }
}

fn backslash(text: &[u8]) -> Option<usize>
    ensures { result ≡ position is_backslash text.now }
{
    text.iter().position(|byte| *byte == b'\\')
}

/// The bytes that a field stands for, with the escapes of TabSeparated undone once.
///
/// # Errors
/// `LoneBackslash` and `BadHex` tell the first fault from the left, by the place of its backslash.
pub fn unescape(alloc: Global, field: &[u8]) -> Result<Bytes, TextFault>
    ensures { IsUnescaped field.now result }
{
    let mut bytes = Vec::new(alloc);
    let mut rest = field;
    while let Some(plain) = backslash(rest) {
        let (front, behind) = rest.split_at(plain);
        bytes.extend_from_slice(front)?;
        let at = (field.len() - behind.len()) as u64;
        match behind_backslash(at, behind.split_at(1).1) {
            Ok((byte, after)) => {
                bytes.push(byte)?;
                rest = after;
            }
            Err(fault) => return Err(fault),
        }
    }
    bytes.extend_from_slice(rest)?;
    Ok(Bytes::from_vec(bytes))
}

/// A field has one answer: it doesn't stand for two texts, nor for a text and a fault, and its first fault is at one place.
pub fn law_one_answer()
    ensures { (field : List ℕ) (one other : Result (List ℕ) TextFault) → IsUnescaped field one → IsUnescaped field other → IsSameUnescaped one other }
{}

//! Bytes as lower-case hexadecimal text.
ghost use Rattle.std.specs.Prelude.{◌≡◌, ◌<◌, IfOk, IsTrue, None, position};
ghost use Rattle.tsv_text.specs.Escapes.{hex_value};
ghost use Rattle.scalar_texts.specs.Hex.{hex_bytes, hex_fault, is_lower_hex, is_not_lower_hex};

use std::alloc::Global;
use value_types::{Bytes, OutOfMemory};

fn is_not_lower_hex(byte: u8) -> bool
    ensures { result ≡ is_not_lower_hex byte }
{
    !matches!(byte, b'0'..=b'9' | b'a'..=b'f')
}

fn first_other(text: &[u8]) -> Option<usize>
    ensures { result ≡ position is_not_lower_hex text.now }
{
    text.iter().position(|byte| is_not_lower_hex(*byte))
}

/// Where the text is no lower-case hexadecimal text of bytes.
pub(crate) fn hex_fault(text: &[u8]) -> Option<u64>
    ensures { result ≡ hex_fault text.now }
{
    match first_other(text) {
        Some(at) => Some(at as u64),
        None if text.len() % 2 == 0 => None,
        None => Some(text.len() as u64),
    }
}

/// What a lower-case hexadecimal digit is worth.
fn hex_value(digit: u8) -> u8
    ensures value { IsTrue (is_lower_hex digit) → result ≡ hex_value digit }
    ensures small { result < 16 }
{
    match digit {
        b'0'..=b'9' => digit - b'0',
        b'a'..=b'f' => digit - b'a' + 10,
        _ => 0,
    }
}

/// The bytes that a lower-case hexadecimal text stands for.
pub(crate) fn read_hex(alloc: Global, text: &[u8]) -> Result<Bytes, OutOfMemory>
    requires { hex_fault text.now ≡ None }
    ensures { IfOk result (λ bytes. bytes ≡ hex_bytes text.now) }
{
    let mut bytes = Vec::with_capacity(alloc, text.len() / 2)?;
    let mut rest = text;
    while let [high, low, after @ ..] = rest {
        bytes.push(hex_value(*high) * 16 + hex_value(*low))?;
        rest = after;
    }
    Ok(Bytes::from_vec(bytes))
}

ghost use Rattle.std.specs.Prelude.{◌≡◌, ℕ, List, IfOk, Ok, IsTrue, position};
ghost use Rattle.tsv_text.specs.Escapes.{is_escaped, letter_of, escaped, IsUnescaped};

use std::alloc::Global;
use value_lists::{Bytes, OutOfMemory};

fn is_escaped(byte: u8) -> bool
    ensures { result ≡ is_escaped byte }
{
    matches!(byte, 8 | 12 | 13 | 10 | 9 | 0 | b'\'' | b'\\')
}

fn letter_of(byte: u8) -> u8
    ensures { result ≡ letter_of byte }
{
    match byte {
        8 => b'b',
        12 => b'f',
        13 => b'r',
        10 => b'n',
        9 => b't',
        0 => b'0',
        b'\'' => b'\'',
        b'\\' => b'\\',
        _ => 0,
    }
}

fn first_escaped(text: &[u8]) -> Option<usize>
    ensures { result ≡ position is_escaped text.now }
{
    text.iter().position(|byte| is_escaped(*byte))
}

/// The bytes as a field writes them: with an escape for `\b \f \r \n \t \0 \' \\`, and else as they are.
pub fn escape(alloc: Global, text: &[u8]) -> Result<Bytes, OutOfMemory>
    ensures { IfOk result (λ field. field ≡ escaped text.now) }
{
    let mut field = Vec::new(alloc);
    let mut rest = text;
    while let Some(plain) = first_escaped(rest) {
        let (front, behind) = rest.split_at(plain);
        field.extend_from_slice(front)?;
        field.push(b'\\')?;
        field.push(letter_of(behind[0]))?;
        rest = behind.split_at(1).1;
    }
    field.extend_from_slice(rest)?;
    Ok(Bytes::from_vec(field))
}

/// What is written stands for the bytes for which it was written.
pub fn law_round_trip()
    ensures { (bytes : List ℕ) → IsUnescaped (escaped bytes) (Ok bytes) }
{}

//! A text cut into pieces of whole lines.
ghost use Rattle.std.specs.Prelude.{◌≡◌, ◌<◌, ◌++◌, length, IfOk};
ghost use Rattle.tsv_text.specs.Lines.{lines_of};
ghost use Rattle.batch_reader.specs.proving.Pieces.{lines_in};

use std::alloc::Global;
use value_types::OutOfMemory;

// The lines up to the one that has the byte at a place, and those behind it.
fn first_lines(text: &[u8], place: usize) -> (&[u8], &[u8])
    requires { 0 < length text.now }
    ensures lines { lines_of text.now ≡ lines_of result.0.now ++ lines_of result.1.now }
    ensures shorter { length result.1.now < length text.now }
{
    for end in place..text.len() {
        if text[end] == b'\n' {
            return text.split_at(end + 1);
        }
    }
    (text, &text[..0])
}

/// Pieces of whole lines, each of at least so many bytes but for the last one.
///
/// # Errors
///
/// [`OutOfMemory`] where there is no room for their list.
pub(crate) fn cut(alloc: Global, text: &[u8], least: usize) -> Result<Vec<&[u8]>, OutOfMemory>
    ensures { IfOk result (λ pieces. lines_in pieces.items ≡ lines_of text.now) }
{
    let mut pieces = Vec::new(alloc);
    let mut left = text;
    while !left.is_empty() {
        let (piece, rest) = first_lines(left, least);
        pieces.push(piece)?;
        left = rest;
    }
    Ok(pieces)
}

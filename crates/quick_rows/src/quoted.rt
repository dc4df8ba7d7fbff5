//! Strings without an escape.
ghost use Rattle.std.specs.Prelude.{◌≡◌, ◌==◌, ◌||◌, ◌∷◌, ◌++◌, IfSome, position, true};
ghost use Rattle.quick_rows.specs.Taking.{AreBytes, IsFront, is_bare, is_plain};

/// What stands before the first tab or backslash, and what follows.
#[inline(always)]
pub(crate) fn first_plain(text: &[u8]) -> (&[u8], &[u8])
    ensures front { IsFront text.now result.0.now result.1.now }
    ensures plain { is_plain result.0.now ≡ true }
    ensures bytes { AreBytes result.0.now }
{
    match plain_end(text) {
        Some(at) => text.split_at(at),
        None => text.split_at(text.len()),
    }
}

/// Where the first tab or backslash stands.
#[inline]
fn plain_end(text: &[u8]) -> Option<usize>
    ensures { result ≡ position (λ b. b == 9 || b == 92) text.now }
{
    text.iter()
        .position(|byte| *byte == b'\t' || *byte == b'\\')
}

/// What stands in quotes at the front of a text, if no backslash, comma or tab does, and what stands behind the quotes.
#[inline]
pub(crate) fn front_quoted(text: &[u8]) -> Option<(&[u8], &[u8])>
    ensures { IfSome result (λ found. (text.now ≡ 39 ∷ (found.0.now ++ 39 ∷ found.1.now)) × (is_bare found.0.now ≡ true) × AreBytes found.0.now) }
{
    match text {
        [b'\'', inside @ ..] => match bare_end(inside) {
            Some(at) => {
                if inside[at] == b'\'' {
                    return Some((&inside[..at], inside.split_at(at + 1).1));
                }
                None
            }
            None => None,
        },
        _ => None,
    }
}

/// Where the first quote, backslash, comma or tab stands.
#[inline]
fn bare_end(text: &[u8]) -> Option<usize>
    ensures { result ≡ position (λ b. b == 39 || b == 92 || b == 44 || b == 9) text.now }
{
    text.iter()
        .position(|byte| matches!(*byte, b'\'' | b'\\' | b',' | b'\t'))
}

//! Texts in quotes and texts of numbers, cut off the front of a text.
ghost use Rattle.std.specs.Prelude.{◌≡◌, position, false};
ghost use Rattle.std.specs.Option.{option_map};
ghost use Rattle.tsv_values.specs.proving.Reading.{behind_quote, is_numeric, is_other, is_special, IsNumberCut, IsQuoteCut};

fn special(text: &[u8]) -> Option<usize>
    ensures { result ≡ position is_special text.now }
{
    text.iter()
        .position(|byte| *byte == b'\'' || *byte == b'\\')
}

/// The text behind the first quote that isn't behind a backslash.
fn behind_quote(text: &[u8]) -> Option<&[u8]>
    ensures { option_map (λ text. text.now) result ≡ behind_quote false text.now }
{
    let mut rest = text;
    while let Some(at) = special(rest) {
        let marked = rest.split_at(at).1;
        if marked[0] == b'\'' {
            return Some(marked.split_at(1).1);
        }
        if marked.len() < 2 {
            return None;
        }
        rest = marked.split_at(2).1;
    }
    None
}

/// What stands before the first quote that isn't behind a backslash, and what stands behind it.
pub(crate) fn cut_at_quote(text: &[u8]) -> Option<(&[u8], &[u8])>
    ensures { IsQuoteCut text.now (option_map (λ cut. (cut.0.now, cut.1.now)) result) }
{
    match behind_quote(text) {
        Some(behind) => Some((text.split_at(text.len() - behind.len() - 1).0, behind)),
        None => None,
    }
}

fn is_numeric(byte: u8) -> bool
    ensures { result ≡ is_numeric byte }
{
    matches!(byte, b'0'..=b'9' | b'+' | b'-')
}

fn other(text: &[u8]) -> Option<usize>
    ensures { result ≡ position is_other text.now }
{
    text.iter().position(|byte| !is_numeric(*byte))
}

/// The digits and signs at the front, and what follows them.
pub(crate) fn cut_number(text: &[u8]) -> (&[u8], &[u8])
    ensures { IsNumberCut text.now result.0.now result.1.now }
{
    match other(text) {
        Some(at) => text.split_at(at),
        None => text.split_at(text.len()),
    }
}

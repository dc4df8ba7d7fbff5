//! The lines of a text by their places.
ghost use Rattle.script_text.specs.Lines.{first_of, is_blank, lines_at};
ghost use Rattle.script_text.specs.proving.Placing.{IsBehindRows};
ghost use Rattle.std.specs.List.{list_all};
ghost use Rattle.std.specs.Prelude.{◌≡◌, ◌==◌, ◌∷◌, ◌<◌, ◌≤◌, ◌^◌, drop, length};

use tsv_text::first_line;

/// The line that begins at a place of a text, and the place behind it.
pub(crate) fn line_at(text: &[u8], at: usize) -> (&[u8], usize)
    requires short { length text.now < 2 ^ 32 }
    requires within { at < length text.now }
    ensures lines { lines_at text.now at ≡ record { bytes = result.0.now; behind = result.1 } ∷ lines_at text.now result.1 }
    ensures short { length result.0.now ≤ length text.now }
    ensures further { at < result.1 }
    ensures within { result.1 ≤ length text.now }
{
    let (line, _) = first_line(text.split_at(at).1);
    (line, (at + line.len() + 1).min(text.len()))
}

/// The first line of a text and the place behind it; the empty line of a text without a line.
pub(crate) fn line_1(text: &[u8]) -> (&[u8], usize)
    requires { length text.now < 2 ^ 32 }
    ensures line { result.0.now ≡ first_of (lines_at text.now 0) }
    ensures lines { lines_at text.now result.1 ≡ drop 1 (lines_at text.now 0) }
    ensures short { length result.0.now ≤ length text.now }
    ensures within { result.1 ≤ length text.now }
{
    if text.is_empty() {
        return (text, 0);
    }
    line_at(text, 0)
}

/// Whether a line is empty or holds spaces alone.
pub(crate) fn is_blank(line: &[u8]) -> bool
    ensures { result ≡ is_blank line.now }
{
    line.iter().all(|byte| *byte == b' ')
}

/// The place behind so many lines that begin at a place of a text, if there are as many.
pub(crate) fn place_behind(text: &[u8], at: usize, count: u128) -> Option<usize>
    requires short { length text.now < 2 ^ 32 }
    requires within { at ≤ length text.now }
    ensures { IsBehindRows text.now at count result }
{
    let mut to = at;
    let mut left = count;
    while left > 0 {
        if to == text.len() {
            return None;
        }
        to = line_at(text, to).1;
        left -= 1;
    }
    Some(to)
}

//! Marks and keywords that have to come.

ghost use Rattle.std.specs.Prelude.{◌≡◌, ◌∷◌, []};
ghost use Rattle.std.specs.Str.{bytes_eq};
ghost use Rattle.line_tokens.specs.Tokens.{word, open_bracket, close_bracket};
ghost use Rattle.request_lines.specs.proving.Judging.{keyword, opening, closing};
ghost use Rattle.request_lines.specs.proving.Reads.{Skips, IsToken, Ends};

use crate::rest::Rest;
use line_forms::LineFault;
use type_shapes::Mark;

/// Whether a word is this name.
pub fn is(word: &[u8], name: &[u8]) -> bool
    ensures { result ≡ bytes_eq word.now name.now }
{
    word == name
}

/// What stands behind a keyword, where it comes first.
pub fn skip_keyword<'a>(rest: Rest<'a>, name: &[u8]) -> Result<Rest<'a>, LineFault>
    ensures { Skips (keyword name.now ∷ []) (IsToken (word name.now)) rest.entry result }
{
    match rest.word() {
        Some(first) if is(first.word, name) => Ok(first.behind),
        _ => Err(rest.fault()),
    }
}

/// What stands behind an opening bracket, where it comes first.
pub fn skip_opening(rest: Rest<'_>) -> Result<Rest<'_>, LineFault>
    ensures { Skips (opening ∷ []) (IsToken open_bracket) rest.entry result }
{
    match rest.behind(Mark::Opening) {
        Some(behind) => Ok(behind),
        None => Err(rest.fault()),
    }
}

/// What stands behind a closing bracket, where it comes first.
pub fn skip_closing(rest: Rest<'_>) -> Result<Rest<'_>, LineFault>
    ensures { Skips (closing ∷ []) (IsToken close_bracket) rest.entry result }
{
    match rest.behind(Mark::Closing) {
        Some(behind) => Ok(behind),
        None => Err(rest.fault()),
    }
}

/// Nothing is left of the line.
pub fn end(rest: Rest<'_>) -> Result<(), LineFault>
    ensures { Ends rest.entry result }
{
    match rest.first() {
        Some(first) => Err(LineFault::Syntax(first.at)),
        None => Ok(()),
    }
}

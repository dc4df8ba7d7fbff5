//! The form of a line in its place.
ghost use Rattle.line_forms.specs.Letters.{letters_of};
ghost use Rattle.script_text.specs.Forms.{IsFormIn, is_misplaced, misplaced};
ghost use Rattle.std.specs.Prelude.{◌≡◌};
ghost use Rattle.std.specs.Str.{bytes_eq};

use line_forms::{LineFault, WrittenLine};
use line_tokens::{Token, next_token};
use request_lines::read_script_line;
use std::alloc::Global;

/// Whether a word is this name.
fn is(word: &[u8], name: &[u8]) -> bool
    ensures { result ≡ bytes_eq word.now name.now }
{
    word == name
}

/// Whether a word begins a line that may not stand where a session has begun, or where none has.
fn is_misplaced(started: bool, word: &[u8]) -> bool
    ensures { result ≡ is_misplaced started word.now }
{
    if started {
        is(word, b"VIEW")
    } else {
        is(word, b"INSERT") || is(word, b"LOAD") || is(word, b"READ") || is(word, b"STATES")
    }
}

/// The place of the first token of a line, where it begins a line that may not stand there.
fn misplaced(started: bool, line: &[u8]) -> Option<u64>
    ensures { result ≡ misplaced started (letters_of line.now) }
{
    match next_token(line) {
        Some(first) => match first.token {
            Token::Word(word) if is_misplaced(started, word) => {
                Some((line.len() - first.left) as u64)
            }
            _ => None,
        },
        None => None,
    }
}

/// Reads a line where a session has begun, or where none has: a view or the head of a session before the first session,
/// and the head of a session or a statement behind it.
///
/// # Errors
///
/// `Syntax` is the place of the first token that no line goes on with that may stand there, or the line's length where it
/// ends too early.
pub(crate) fn read_form(alloc: Global, started: bool, line: &[u8]) -> Result<WrittenLine, LineFault>
    ensures { IsFormIn started line.now result }
{
    match misplaced(started, line) {
        Some(at) => Err(LineFault::Syntax(at)),
        None => read_script_line(alloc, line),
    }
}

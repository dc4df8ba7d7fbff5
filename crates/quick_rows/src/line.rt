//! The lines of a text, one after another.
ghost use Rattle.std.specs.Prelude.{◌≡◌, ◌<◌, ◌∷◌, length};
ghost use Rattle.tsv_text.specs.Lines.{lines_of};

use memchr::memchr;

/// The first line of a text, without its newline, and what follows it. The newline is searched many bytes at once.
pub fn first_line(text: &[u8]) -> (&[u8], &[u8])
    requires { 0 < length text.now }
    ensures lines { lines_of text.now ≡ result.0.now ∷ lines_of result.1.now }
    ensures shorter { length result.1.now < length text.now }
{
    match memchr(b'\n', text) {
        Some(at) => (&text[..at], text.split_at(at + 1).1),
        None => (text, &text[..0]),
    }
}

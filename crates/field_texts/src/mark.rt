//! What a byte means in a field.
ghost use Rattle.std.specs.Prelude.{◌≡◌};
ghost use Rattle.field_texts.specs.Machine.{mark_of};

#[derive(Clone, Copy, Debug, PartialEq, Eq)]
pub(crate) enum Mark {
    Space,
    Plus,
    Minus,
    Digit,
    Quote,
    Backslash,
    Comma,
    Colon,
    OpenBracket,
    CloseBracket,
    OpenBrace,
    CloseBrace,
    LetterX,
    /// A letter that is a hexadecimal digit.
    HexLetter,
    LetterN,
    LetterU,
    LetterL,
    Other,
}

pub(crate) fn mark_of(byte: u8) -> Mark
    ensures { result ≡ mark_of byte }
{
    match byte {
        b' ' => Mark::Space,
        b'+' => Mark::Plus,
        b'-' => Mark::Minus,
        b'\'' => Mark::Quote,
        b'\\' => Mark::Backslash,
        b',' => Mark::Comma,
        b':' => Mark::Colon,
        b'[' => Mark::OpenBracket,
        b']' => Mark::CloseBracket,
        b'{' => Mark::OpenBrace,
        b'}' => Mark::CloseBrace,
        b'x' => Mark::LetterX,
        b'N' => Mark::LetterN,
        b'U' => Mark::LetterU,
        b'L' => Mark::LetterL,
        b'0'..=b'9' => Mark::Digit,
        b'a'..=b'f' | b'A'..=b'F' => Mark::HexLetter,
        _ => Mark::Other,
    }
}

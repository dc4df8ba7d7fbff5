//! Where a quoted text ends.

ghost use Rattle.std.specs.Prelude.{◌≡◌, ◌<◌, length, IfSome};
ghost use Rattle.tsv_text.specs.Escapes.{is_hex_digit};
ghost use Rattle.line_tokens.specs.Tokens.{next_in_quotes, quoted_length};

/// How far an escape was read.
#[derive(Clone, Copy, Debug, PartialEq, Eq)]
pub enum Within {
    Plain,
    Backslash,
    Hex,
    HalfHex,
}

/// What a byte behind an opening quote does.
#[derive(Clone, Copy, Debug, PartialEq, Eq)]
pub enum Next {
    Closed,
    Broken,
    Goes(Within),
}

fn is_hex_digit(byte: u8) -> bool
    ensures { result ≡ is_hex_digit byte }
{
    matches!(byte, b'0'..=b'9' | b'a'..=b'f' | b'A'..=b'F')
}

fn next_in_quotes(within: Within, byte: u8) -> Next
    ensures { result ≡ next_in_quotes within byte }
{
    match within {
        Within::Plain if byte == b'\'' => Next::Closed,
        Within::Plain if byte == b'\\' => Next::Goes(Within::Backslash),
        Within::Plain => Next::Goes(Within::Plain),
        Within::Backslash if byte == b'x' => Next::Goes(Within::Hex),
        Within::Backslash => Next::Goes(Within::Plain),
        Within::Hex if is_hex_digit(byte) => Next::Goes(Within::HalfHex),
        Within::HalfHex if is_hex_digit(byte) => Next::Goes(Within::Plain),
        _ => Next::Broken,
    }
}

/// How many bytes stand before the closing quote, if it comes and each escape is whole.
pub fn quoted_length(text: &[u8]) -> Option<usize>
    ensures value { result ≡ quoted_length Within.Plain text.now }
    ensures within { IfSome result (λ length_inside. length_inside < length text.now) }
{
    let mut within = Within::Plain;
    let mut count = 0;
    for byte in text {
        match next_in_quotes(within, *byte) {
            Next::Closed => return Some(count),
            Next::Broken => return None,
            Next::Goes(next) => within = next,
        }
        count += 1;
    }
    None
}

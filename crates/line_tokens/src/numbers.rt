//! The digits of numbers.

ghost use Rattle.std.specs.Prelude.{◌≡◌, ◌<◌, ◌≤◌, length};
ghost use Rattle.std.specs.Char.{digit_value};
ghost use Rattle.line_tokens.specs.Tokens.{is_small, digit_count, place_count};

fn digit_value(byte: u8) -> u8
    ensures { result ≡ digit_value byte }
{
    match byte {
        b'0'..=b'9' => byte - b'0',
        b'A'..=b'Z' => byte - b'A' + 10,
        b'a'..=b'z' => byte - b'a' + 10,
        _ => 36,
    }
}

/// Whether an integer of these digits is at most 2^127 - 1.
pub fn is_small(digits: &[u8]) -> bool
    ensures { result ≡ is_small digits.now }
{
    let mut number = 0u128;
    for digit in digits {
        if number >= 1 << 124 {
            return false;
        }
        number = number * 10 + u128::from(digit_value(*digit));
    }
    number < 1 << 127
}

fn leading_digits(text: &[u8]) -> usize
    ensures { result ≡ digit_count text.now }
{
    text.iter().take_while(|byte| byte.is_ascii_digit()).count()
}

/// How many digits begin a text.
#[tactic(auto, using(crate::proofs::Digits::prefix_len_le))]
pub fn digit_count(text: &[u8]) -> usize
    ensures value { result ≡ digit_count text.now }
    ensures within { result ≤ length text.now }
{
    leading_digits(text)
}

/// How many digits stand behind a point, if one begins the text.
pub fn place_count(text: &[u8]) -> usize
    ensures value { result ≡ place_count text.now }
    ensures within { 0 < result → result < length text.now }
{
    match text {
        [b'.', places @ ..] => digit_count(places),
        _ => 0,
    }
}

//! Numbers as words.
ghost use Rattle.std.specs.Prelude.{◌≡◌, ◌≤◌, IfSome};
ghost use Rattle.std.specs.Char.{is_ascii_digit};
ghost use Rattle.std.specs.List.{list_all};
ghost use Rattle.query_words.specs.Words.{number_between};

// The longest number of 64 bits has so many digits.
const MOST_DIGITS: usize = 20;

fn are_digits(bytes: &[u8]) -> bool
    ensures { result ≡ list_all is_ascii_digit bytes.now }
{
    bytes.iter().all(|byte| byte.is_ascii_digit())
}

/// The number that a word is, where it is one from `least` to `most`: 1 to 20 digits without a sign, of which the first may
/// be zeros.
pub(crate) fn number_between(least: u64, most: u64, word: &str) -> Option<u64>
    ensures number { result ≡ number_between least most word.now }
    ensures most { IfSome result (λ number. number ≤ most) }
{
    if word.len() > MOST_DIGITS || !are_digits(word.as_bytes()) {
        return None;
    }
    match word.parse::<u64>() {
        Ok(number) if least <= number && number <= most => Some(number),
        _ => None,
    }
}

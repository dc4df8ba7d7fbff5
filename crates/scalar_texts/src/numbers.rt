//! The texts of numbers: plain digits in one pass, and a second look where they may not fit.
ghost use Rattle.std.specs.Prelude.{◌≡◌, ◌≤◌, ◌^◌, ◌≤ℤ◌, ◌-◌, pos, negsuc, true, IsTrue, IfSome, MatchOption};
ghost use Rattle.std.specs.Char.{is_ascii_digit};
ghost use Rattle.std.specs.List.{list_all};
ghost use Rattle.std.specs.Str.Parse.{digits_value};
ghost use Rattle.agg_terms.specs.Fitting.{is_between};
ghost use Rattle.field_texts.specs.Syntax.{IsDigits};
ghost use Rattle.scalar_texts.specs.Numbers.{IsDigitsAnswer, IsNumberAnswer, IsSignedAnswer, signed, split_sign};

/// Why a text is no number of a range.
#[derive(Clone, Copy, Debug, PartialEq, Eq)]
pub(crate) enum NumberFault {
    NotNumber,
    OutOfRange,
}

// Ten times this and a digit have 64 bits.
const MOST_TENS: u64 = 1_844_674_407_370_955_160;

/// The number that digits write. `None` says nothing of them.
fn plain_digits(digits: &[u8]) -> Option<u64>
    ensures { IfSome result (λ n. IsDigits digits.now × (digits_value 10 digits.now ≡ n)) }
{
    if digits.is_empty() {
        return None;
    }
    let mut value = 0u64;
    for byte in digits {
        if !byte.is_ascii_digit() || value > MOST_TENS {
            return None;
        }
        value = value * 10 + u64::from(*byte - b'0');
    }
    Some(value)
}

fn are_digits(bytes: &[u8]) -> bool
    ensures { result ≡ list_all is_ascii_digit bytes.now }
{
    bytes.iter().all(|byte| byte.is_ascii_digit())
}

/// The number that digits write, if it has 64 bits.
fn value_of(digits: &[u8]) -> Option<u64>
    requires { IsTrue (list_all is_ascii_digit digits.now) }
    ensures { MatchOption result (2 ^ 64 ≤ digits_value 10 digits.now) (λ n. digits_value 10 digits.now ≡ n) }
{
    let mut value = 0u64;
    for c in digits {
        let tens = match value.checked_mul(10) {
            Some(tens) => tens,
            None => return None,
        };
        value = match tens.checked_add(u64::from(*c - b'0')) {
            Some(next) => next,
            None => return None,
        };
    }
    Some(value)
}

/// The same as `digits_number`, of any text.
fn judged_digits(digits: &[u8]) -> Result<u64, NumberFault>
    ensures { IsDigitsAnswer digits.now result }
{
    if digits.is_empty() || !are_digits(digits) {
        return Err(NumberFault::NotNumber);
    }
    match value_of(digits) {
        Some(n) => Ok(n),
        None => Err(NumberFault::OutOfRange),
    }
}

/// The number below 2^64 that digits write.
fn digits_number(digits: &[u8]) -> Result<u64, NumberFault>
    ensures { IsDigitsAnswer digits.now result }
{
    match plain_digits(digits) {
        Some(n) => Ok(n),
        None => judged_digits(digits),
    }
}

/// Whether a minus stands first, and what stands behind the sign.
fn split_sign(text: &[u8]) -> (bool, &[u8])
    ensures { (result.0, result.1.now) ≡ split_sign text.now }
{
    match text {
        [b'-', digits @ ..] => (true, digits),
        [b'+', digits @ ..] => (false, digits),
        _ => (false, text),
    }
}

fn signed(minus: bool, size: u64) -> i128
    ensures { result ≡ signed minus size }
{
    if minus {
        -i128::from(size)
    } else {
        i128::from(size)
    }
}

/// The number of digits behind a sign, from `low` to `high`.
fn signed_number(low: i128, high: i128, minus: bool, digits: &[u8]) -> Result<i128, NumberFault>
    requires low { negsuc (2 ^ 63 - 1) ≤ℤ low }
    requires high { high ≤ℤ pos (2 ^ 64 - 1) }
    ensures { IsSignedAnswer (is_between low high) minus digits.now result }
{
    match digits_number(digits) {
        Ok(size) => {
            let number = signed(minus, size);
            if low <= number && number <= high {
                Ok(number)
            } else {
                Err(NumberFault::OutOfRange)
            }
        }
        Err(fault) => Err(fault),
    }
}

/// The number that a text writes, from `low` to `high`.
pub(crate) fn read_number(low: i128, high: i128, text: &[u8]) -> Result<i128, NumberFault>
    requires low { negsuc (2 ^ 63 - 1) ≤ℤ low }
    requires high { high ≤ℤ pos (2 ^ 64 - 1) }
    ensures { IsNumberAnswer (is_between low high) text.now result }
{
    let (minus, digits) = split_sign(text);
    signed_number(low, high, minus, digits)
}

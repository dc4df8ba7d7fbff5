//! Bytes from lower-case hexadecimal digits, without memory of their own.
ghost use Rattle.std.specs.Prelude.{◌≡◌, ◌≤◌, ◌<◌, IfSome, take, true};
ghost use Rattle.tsv_text.specs.Escapes.{hex_value};
ghost use Rattle.scalar_texts.specs.Hex.{is_lower_hex};
ghost use Rattle.quick_rows.specs.proving.Hexadecimal.{IsHexFront, IsPair};

/// So many bytes have room.
pub(crate) const FEW: usize = 64;

/// What a digit is worth.
#[inline(always)]
fn hex_digit(byte: u8) -> Option<u8>
    ensures lower { IfSome result (λ worth. is_lower_hex byte ≡ true) }
    ensures worth { IfSome result (λ worth. worth ≡ hex_value byte) }
    ensures small { IfSome result (λ worth. worth < 16) }
{
    match byte {
        b'0'..=b'9' => Some(byte - b'0'),
        b'a'..=b'f' => Some(byte - b'a' + 10),
        _ => None,
    }
}

/// The byte that two digits write.
#[inline(always)]
fn hex_pair(high: u8, low: u8) -> Option<u8>
    ensures { IfSome result (IsPair high low) }
{
    let high = hex_digit(high)?;
    let low = hex_digit(low)?;
    Some(high * 16 + low)
}

/// The bytes that the digits at the front of a text write, as far as there is room, and what stands behind them.
#[inline(always)]
pub(crate) fn front_hex<'a>(text: &'a [u8], bytes: &mut [u8; FEW]) -> (usize, &'a [u8])
    ensures within { result.0 ≤ 64 }
    ensures front { IsHexFront text.now (take result.0 bytes.new) result.1.now }
{
    let mut count = 0;
    let mut left = text;
    while let [high, low, after @ ..] = left {
        if count == FEW {
            break;
        }
        let Some(byte) = hex_pair(*high, *low) else {
            break;
        };
        bytes[count] = byte;
        count += 1;
        left = after;
    }
    (count, left)
}

//! Numbers, lengths and strings as bytes.
ghost use Rattle.std.specs.Prelude.{◌≡◌, ◌≤◌, ◌++◌, OnOk};
ghost use Rattle.state_texts.specs.Figures.{high, number_text};
ghost use Rattle.state_texts.specs.Texts.{bytes_text};

use byteorder::{BigEndian, ByteOrder};
use value_types::OutOfMemory;

/// A number in so many bytes, a negative one in two's complement.
#[inline(always)]
pub(crate) fn put_number(number: i128, width: usize, out: &mut Vec<u8>) -> Result<(), OutOfMemory>
    requires { width ≤ 16 }
    ensures { OnOk result (out.new.items ≡ out.old.items ++ number_text width number) }
{
    let mut bytes = [0u8; 16];
    BigEndian::write_i128(&mut bytes, number);
    out.extend_from_slice(&bytes[16 - width..])?;
    Ok(())
}

/// A length, or a time, in eight bytes.
#[inline(always)]
#[tactic(auto, using(crate::proofs::Written::eight_text))]
pub(crate) fn put_count(count: u64, out: &mut Vec<u8>) -> Result<(), OutOfMemory>
    ensures { OnOk result (out.new.items ≡ out.old.items ++ high 8 count) }
{
    put_number(count as i128, 8, out)
}

/// A mask in four bytes.
#[inline(always)]
#[tactic(auto, using(crate::proofs::Written::four_text))]
pub(crate) fn put_mask(mask: u32, out: &mut Vec<u8>) -> Result<(), OutOfMemory>
    ensures { OnOk result (out.new.items ≡ out.old.items ++ high 4 mask) }
{
    put_number(mask as i128, 4, out)
}

/// A string behind its length.
pub(crate) fn put_bytes(bytes: &[u8], out: &mut Vec<u8>) -> Result<(), OutOfMemory>
    ensures { OnOk result (out.new.items ≡ out.old.items ++ bytes_text bytes.now) }
{
    put_count(bytes.len() as u64, out)?;
    out.extend_from_slice(bytes)?;
    Ok(())
}

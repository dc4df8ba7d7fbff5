//! The small pieces that every text is made of.
ghost use Rattle.refusals.specs.Words.{at, with_number};
ghost use Rattle.std.specs.Fmt.{decimal};
ghost use Rattle.std.specs.Prelude.{◌≡◌, ◌++◌, OnErr, OnOk};
ghost use Rattle.value_lists.specs.Fronts.{HoldsFront};

use itoa::Buffer;
use value_lists::{Bytes, OutOfMemory};

pub(crate) fn put_number(text: &mut Bytes, number: u64) -> Result<(), OutOfMemory>
    ensures ok { OnOk result (text.new ≡ text.old ++ decimal number) }
    ensures err { OnErr result (HoldsFront text.old (decimal number) text.new) }
{
    let mut buffer = Buffer::new();
    text.extend_from_slice(buffer.format(number).as_bytes())
}

/// Words, and a number behind them.
pub(crate) fn put_with_number(
    text: &mut Bytes,
    words: &[u8],
    number: u64,
) -> Result<(), OutOfMemory>
    ensures ok { OnOk result (text.new ≡ text.old ++ with_number words.now number) }
    ensures err { OnErr result (HoldsFront text.old (with_number words.now number) text.new) }
{
    text.extend_from_slice(words)?;
    put_number(text, number)
}

/// Words, and the place that they speak of.
pub(crate) fn put_at(text: &mut Bytes, words: &[u8], place: u64) -> Result<(), OutOfMemory>
    ensures ok { OnOk result (text.new ≡ text.old ++ at words.now place) }
    ensures err { OnErr result (HoldsFront text.old (at words.now place) text.new) }
{
    text.extend_from_slice(words)?;
    put_with_number(text, b" at ", place)
}

//! Where lines end, and where a limit is broken.
ghost use Rattle.std.specs.Prelude.{◌≡◌, ◌+◌, ◌≤◌, true, length, take, drop, MatchOption};
ghost use Rattle.line_reader.specs.Limits.{ends_line, IsUnbroken};
ghost use Rattle.line_reader.specs.proving.Breaks.{IsBreak};

/// Which limit a line breaks first.
#[derive(Clone, Copy, Debug, PartialEq, Eq)]
pub(crate) enum Break {
    TooLong,
    TooLarge,
}

/// How many bytes of a text stand before the end of its last complete line, its newline among them.
pub(crate) fn whole_len(text: &[u8]) -> usize
    ensures within { result ≤ length text.now }
    ensures ends { ends_line (take result text.now) ≡ true }
    ensures unbroken { IsUnbroken (drop result text.now) }
{
    let mut count = text.len();
    while count > 0 {
        if text[count - 1] == b'\n' {
            return count;
        }
        count -= 1;
    }
    0
}

// How many bytes are counted in one byte: fewer than 256, and many vectors.
const COUNTED_AT_ONCE: usize = 192;

/// How many newlines a text has.
pub(crate) fn count_newlines(text: &[u8]) -> usize {
    let mut count = 0usize;
    for chunk in text.chunks(COUNTED_AT_ONCE) {
        // with no branch in the loop and a count of one byte, a vector of bytes is counted at a time
        let mut few = 0u8;
        for byte in chunk {
            few = few.wrapping_add(u8::from(*byte == b'\n'));
        }
        count = count.wrapping_add(usize::from(few));
    }
    count
}

/// The limit that the line at the front of a text breaks. It has no newline within the bytes that the input may have, and at most one byte
/// more than each limit.
pub(crate) fn find_break(tail: &[u8], most_line: u64, room: u64) -> Option<Break>
    requires line { length tail.now ≤ most_line + 1 }
    requires input { length tail.now ≤ room + 1 }
    requires unbroken { IsUnbroken (take room tail.now) }
    ensures { IsBreak most_line room tail.now result }
{
    let len = tail.len() as u64;
    if len <= room {
        return if len <= most_line {
            None
        } else {
            Some(Break::TooLong)
        };
    }
    if len <= most_line {
        return Some(Break::TooLarge);
    }
    if tail[room as usize] == b'\n' {
        Some(Break::TooLarge)
    } else {
        Some(Break::TooLong)
    }
}

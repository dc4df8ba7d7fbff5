//! The next line is waited for: pieces are taken until its newline is there, the source ends or fails, or a limit is broken.
ghost use Rattle.std.specs.Prelude.{◌≡◌, ◌+◌, ◌≤◌, length, min, take};
ghost use Rattle.std.specs.List.{position};
ghost use Rattle.tsv_text.specs.Lines.{is_newline};
ghost use Rattle.line_reader.specs.proving.Awaiting.{AwaitsLine, FindsLine};
ghost use Rattle.line_reader.specs.Answers.{LineCause};

use crate::filling::piece_len;
use crate::searching::{Break, find_break};
use crate::{Block, LineFault};
use agg_ports::{Source, Taken};

fn newline(text: &[u8]) -> Option<usize>
    ensures { result ≡ position is_newline text.now }
{
    text.iter().position(|byte| *byte == b'\n')
}

// The first newline within what the input may have.
fn find_line(bytes: &[u8], room: u64) -> Option<usize>
    ensures { FindsLine room bytes.now result }
{
    let end = (bytes.len() as u64).min(room) as usize;
    newline(&bytes[..end])
}

/// Takes bytes behind those that are held until there is a newline, and tells where, or until the source ends.
///
/// # Errors
///
/// Each of [`LineFault`]; what was taken is held.
pub(crate) fn await_line<S: Source>(
    source: &mut S,
    held: &mut Block,
    most_line: u64,
    room: u64,
) -> Result<Option<usize>, LineFault>
    requires line { length held.old ≤ most_line + 1 }
    requires input { length held.old ≤ room + 1 }
    ensures line { AwaitsLine (S.left source.old) (S.left source.new) most_line room held.old held.new result }
    ensures cause { LineCause (S.faults source.old) (S.faults source.new) result }
{
    for _ in 0..usize::MAX {
        if let Some(at) = find_line(held.as_slice(), room) {
            return Ok(Some(at));
        }
        match find_break(held.as_slice(), most_line, room) {
            Some(Break::TooLong) => return Err(LineFault::TooLong),
            Some(Break::TooLarge) => return Err(LineFault::TooLarge),
            None => {}
        }
        let len = held.len();
        let most = piece_len(len, most_line - len as u64, room - len as u64);
        match held.take_from(source, most) {
            Ok(Taken::Bytes(_)) => {}
            Ok(Taken::End) => return Ok(None),
            Ok(Taken::Failed) => return Err(LineFault::Read),
            Err(_) => return Err(LineFault::OutOfMemory),
        }
    }
    // Each turn takes a byte at least: memory ends before the turns do.
    Err(LineFault::OutOfMemory)
}

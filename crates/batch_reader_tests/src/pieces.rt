// Blocks that are cut into pieces, and blocks that are full.
use crate::rows::whole;
use crate::tables::{Input, read};
use batch_reader::RowFault;
use columns::Batch;
use itoa::Buffer;
use std::alloc::Global;
use std::thread::Threads;
use value_types::OutOfMemory;

const PIECES: [usize; 5] = [0, 1, 2, 8, 300];

// So many lines, each the number of the lines before it, modulo 256.
fn counted(alloc: Global, lines: u64) -> Result<Vec<u8>, OutOfMemory> {
    let mut text = Vec::new(alloc);
    for line in 0..lines {
        let mut buffer = Buffer::new();
        text.extend_from_slice(buffer.format(line % 256).as_bytes())?;
        text.push(b'\n')?;
    }
    Ok(text)
}

// Whether the rows are the numbers of such lines.
fn is_counted(batch: &Batch, lines: usize) -> bool {
    if batch.columns.is_empty() {
        return false;
    }
    let Some(numbers) = batch.columns[0].numbers_u8() else {
        return false;
    };
    numbers.len() == lines
        && numbers
            .iter()
            .enumerate()
            .all(|(place, number)| place % 256 == *number as usize)
}

fn is_read(
    rt: &(impl Threads + Sync),
    alloc: Global,
    text: &[u8],
    lines: usize,
    most_pieces: usize,
) -> bool {
    let input = Input {
        most_input: 1_000_000,
        piece: 100_000,
        most_pieces,
        ..whole(text)
    };
    match read(rt, alloc, 7, &input) {
        Ok(batch) => is_counted(&batch, lines),
        Err(_) => false,
    }
}

#[test]
fn rows_are_the_same_in_any_number_of_pieces(rt: HostRuntime) {
    for lines in [0u64, 1, 2, 7, 300] {
        let Ok(text) = counted(rt.alloc(), lines) else {
            return assert!(rt; false);
        };
        for most_pieces in PIECES {
            assert!(rt;
                is_read(&rt, rt.alloc(), &text, lines as usize, most_pieces),
                "{lines} {most_pieces}"
            );
        }
    }
}

// More lines than a block has, and more bytes than one piece has at least.
#[test]
fn blocks_follow_one_another(rt: HostRuntime) {
    let Ok(text) = counted(rt.alloc(), 200_000) else {
        return assert!(rt; false);
    };
    for most_pieces in [0, 1, 8] {
        assert!(rt;
            is_read(&rt, rt.alloc(), &text, 200_000, most_pieces),
            "{most_pieces}"
        );
    }
}

// Twenty lines, of which two are refused.
fn refused_at(alloc: Global, first: u64, second: u64) -> Result<Vec<u8>, OutOfMemory> {
    let mut text = Vec::new(alloc);
    for line in 1..21u64 {
        let words = if line == first {
            b"x\n".as_slice()
        } else if line == second {
            b"256\n".as_slice()
        } else {
            b"7\n".as_slice()
        };
        text.extend_from_slice(words)?;
    }
    Ok(text)
}

#[test]
fn the_first_refused_row_of_all_pieces_is_told(rt: HostRuntime) {
    for first in 1..20u64 {
        let Ok(text) = refused_at(rt.alloc(), first, 20) else {
            return assert!(rt; false);
        };
        for most_pieces in PIECES {
            let input = Input {
                most_pieces,
                ..whole(&text)
            };
            let told = match read(&rt, rt.alloc(), 7, &input) {
                Err(RowFault::Row { row, .. }) => row,
                _ => 0,
            };
            assert_eq!(rt; told, first, "{most_pieces}");
        }
    }
}

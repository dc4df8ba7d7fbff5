//! The text of a long script, always the same one.
use itoa::Buffer;
use std::alloc::Global;
use value_types::OutOfMemory;

const HEAD: &[u8] =
    b"TABLE page String, user UInt64, ms UInt32\nVIEW slow SELECT count(), sum(ms) GROUP BY page\nSESSION 1\n";

/// How many rows an INSERT has.
const ROWS: u32 = 1_000;

fn put_number(text: &mut Vec<u8>, number: u32) -> Result<(), OutOfMemory> {
    let mut buffer = Buffer::new();
    text.extend_from_slice(buffer.format(number).as_bytes())?;
    Ok(())
}

fn put_row(text: &mut Vec<u8>, row: u32) -> Result<(), OutOfMemory> {
    text.extend_from_slice(b"/articles/")?;
    put_number(text, row % 97)?;
    text.extend_from_slice(b"\t10000")?;
    put_number(text, row.wrapping_mul(7))?;
    text.extend_from_slice(b"\t")?;
    put_number(text, row % 31 + 20)?;
    text.extend_from_slice(b"\n")?;
    Ok(())
}

/// One INSERT with its rows, and a READ.
fn put_statements(text: &mut Vec<u8>) -> Result<(), OutOfMemory> {
    text.extend_from_slice(b"INSERT 1000\n")?;
    for row in 0..ROWS {
        put_row(text, row)?;
    }
    text.extend_from_slice(b"READ slow\n")?;
    Ok(())
}

/// A script of at least so many bytes.
pub fn text_of(alloc: Global, bytes: usize) -> Result<Vec<u8>, OutOfMemory> {
    let mut text = Vec::new(alloc);
    text.extend_from_slice(HEAD)?;
    for _ in 0..bytes {
        if text.len() >= bytes {
            return Ok(text);
        }
        put_statements(&mut text)?;
    }
    Ok(text)
}

//! Lines that are taken, and lines that are left to the judge.
use columns::Batch;
use quick_rows::{Taken, first_line, take_row};
use std::alloc::Global;
use std::test::Fail;
use value_types::{Boxed, OutOfMemory, Ty};

/// `UInt8, Nullable(Int16), String, Array(String), Array(Int64)`.
fn table(alloc: Global) -> Result<Batch, OutOfMemory> {
    let nullable = Ty::Nullable(Boxed::new(alloc, Ty::I16)?);
    let strings = Ty::Arr(Boxed::new(alloc, Ty::Str)?);
    let numbers = Ty::Arr(Boxed::new(alloc, Ty::I64)?);
    Batch::new(alloc, &[Ty::U8, nullable, Ty::Str, strings, numbers])
}

/// How many rows the line gives: 1, or 0 where it is irregular.
fn rows_of(alloc: Global, line: &[u8]) -> Result<usize, OutOfMemory> {
    let mut batch = table(alloc)?;
    let taken = take_row(&mut batch, alloc, line)?;
    if taken == Taken::Row {
        return Ok(batch.len());
    }
    Ok(0)
}

#[test]
fn regular_lines_are_taken(rt: HostRuntime) -> Result<(), Fail> {
    let alloc = rt.alloc();
    assert!(rt; rows_of(alloc, b"7\t-3\tab\t['x','']\t[1,-2]")? == 1);
    assert!(rt; rows_of(alloc, b"255\t\\N\t\t[]\t[-9223372036854775808]")? == 1);
    Ok(())
}

#[test]
fn lines_of_another_number_of_fields_are_left(rt: HostRuntime) -> Result<(), Fail> {
    let alloc = rt.alloc();
    assert!(rt; rows_of(alloc, b"7\t-3\tab\t[]")? == 0);
    assert!(rt; rows_of(alloc, b"7\t-3\tab\t[]\t[]\t")? == 0);
    Ok(())
}

#[test]
fn irregular_fields_are_left(rt: HostRuntime) -> Result<(), Fail> {
    let alloc = rt.alloc();
    assert!(rt; rows_of(alloc, b"256\t-3\tab\t[]\t[]")? == 0);
    assert!(rt; rows_of(alloc, b"7\t-\tab\t[]\t[]")? == 0);
    assert!(rt; rows_of(alloc, b"7\t1\ta\\tb\t[]\t[]")? == 0);
    assert!(rt; rows_of(alloc, b"7\t1\tab\t['a,b']\t[]")? == 0);
    Ok(())
}

#[test]
fn fields_that_another_byte_ends_are_left(rt: HostRuntime) -> Result<(), Fail> {
    let alloc = rt.alloc();
    assert!(rt; rows_of(alloc, b"7 \t-3\tab\t[]\t[]")? == 0);
    assert!(rt; rows_of(alloc, b"7\t\\Nx\tab\t[]\t[]")? == 0);
    assert!(rt; rows_of(alloc, b"7\t-3\tab\t['x'y]\t[]")? == 0);
    assert!(rt; rows_of(alloc, b"7\t-3\tab\t[]\t[1]x")? == 0);
    Ok(())
}

#[test]
fn the_first_line_is_cut_off(rt: HostRuntime) {
    let (line, rest) = first_line(b"7\t8\n9");
    assert!(rt; line == b"7\t8".as_slice() && rest == b"9".as_slice());
    let (line, rest) = first_line(b"9");
    assert!(rt; line == b"9".as_slice() && rest.is_empty());
}

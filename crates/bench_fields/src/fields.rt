//! The fields that are read: a thousand of a kind, always the same ones.
use crate::kinds::Kind;
use itoa::Buffer;
use std::alloc::Global;
use value_types::{Bytes, OutOfMemory, Seq};

/// How many fields are made of a kind.
const FIELDS: u32 = 1000;

/// The bits that follow on others.
fn next(bits: u64) -> u64 {
    bits.wrapping_mul(6364136223846793005)
        .wrapping_add(1442695040888963407)
}

fn number<I: itoa::Integer>(alloc: Global, number: I) -> Result<Bytes, OutOfMemory> {
    let mut buffer = Buffer::new();
    Seq::from_slice(alloc, buffer.format(number).as_bytes())
}

/// Sixteen letters; with escapes every fourth is a line feed.
fn letters(alloc: Global, mut bits: u64, escapes: bool) -> Result<Bytes, OutOfMemory> {
    let mut text = Seq::new(alloc);
    for place in 0..16 {
        if escapes && place % 4 == 3 {
            text.extend_from_slice(b"\\n")?;
        } else {
            text.push(b'a' + (bits % 16) as u8)?;
        }
        bits /= 16;
    }
    Ok(text)
}

/// A hundred numbers of 1 to 10 digits.
fn array(alloc: Global, bits: u64) -> Result<Bytes, OutOfMemory> {
    let mut text = Seq::from_slice(alloc, b"[")?;
    let mut bits = bits;
    for place in 0..100 {
        if place > 0 {
            text.push(b',')?;
        }
        let mut buffer = Buffer::new();
        let element = (bits >> 32) >> (bits >> 27) % 32;
        text.extend_from_slice(buffer.format(element).as_bytes())?;
        bits = next(bits);
    }
    text.push(b']')?;
    Ok(text)
}

/// A field of the kind, by so many bits.
fn field(alloc: Global, kind: Kind, bits: u64) -> Result<Bytes, OutOfMemory> {
    match kind {
        Kind::UInt64 => number(alloc, (bits ^ bits >> 33) >> (bits >> 58)),
        Kind::Int8 => number(alloc, (bits >> 56) as i64 - 128),
        Kind::Plain => letters(alloc, bits, false),
        Kind::Escaped => letters(alloc, bits, true),
        Kind::Array => array(alloc, bits),
    }
}

/// A thousand fields of the kind.
pub fn fields(alloc: Global, kind: Kind) -> Result<Seq<Bytes>, OutOfMemory> {
    let mut fields = Seq::new(alloc);
    let mut bits = 1u64;
    for _field in 0..FIELDS {
        bits = next(bits);
        fields.push(field(alloc, kind, bits)?)?;
    }
    Ok(fields)
}

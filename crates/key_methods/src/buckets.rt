//! In which of 256 buckets a key stands.
ghost use Rattle.std.specs.Prelude.{◌≡◌, ◌≤◌};
ghost use Rattle.std.specs.Int.{bytes_high_first};
ghost use Rattle.key_methods.specs.Keys.{IsKey, bucket_of, top_byte};
ghost use Rattle.key_methods.specs.Hash as words;

use crate::{Key, hash_of};

/// The key's bucket: the top 8 bits of the hash of its bytes, and 0 for the one key of no columns. It takes no memory.
pub fn bucket(key: &Key) -> u8
    requires { IsKey key.now }
    ensures { result ≡ bucket_of key.now }
{
    match key {
        Key::Small { word, width } => {
            if *width == 0 {
                0
            } else {
                top_of_8(*word, *width)
            }
        }
        Key::Wide { word, width } => top_of_16(*word, *width),
        Key::Long(bytes) => top(bytes.as_slice()),
    }
}

/// The top 8 bits of the hash of bytes.
fn top(bytes: &[u8]) -> u8
    ensures { result ≡ top_byte (words.hash_of bytes.now) }
{
    (hash_of(bytes) >> 56) as u8
}

/// The same of the last `width` bytes of a word.
fn top_of_8(word: u64, width: u8) -> u8
    requires { width ≤ 8 }
    ensures { result ≡ top_byte (words.hash_of (bytes_high_first width word)) }
{
    let width = usize::from(width);
    top(&word.to_be_bytes()[8 - width..])
}

fn top_of_16(word: u128, width: u8) -> u8
    requires { width ≤ 16 }
    ensures { result ≡ top_byte (words.hash_of (bytes_high_first width word)) }
{
    let width = usize::from(width);
    top(&word.to_be_bytes()[16 - width..])
}

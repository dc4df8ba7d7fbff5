//! The hash of bytes: FNV-1a of 64 bits.
ghost use Rattle.std.specs.Prelude.{◌≡◌};
ghost use Rattle.key_methods.specs.Hash as words;

/// The hash of the bytes.
#[inline]
pub fn hash_of(bytes: &[u8]) -> u64
    ensures { result ≡ words.hash_of bytes.now }
{
    hash_behind(14_695_981_039_346_656_037, bytes)
}

/// The hash of more bytes behind those that `hash` is the hash of.
#[inline]
pub fn hash_behind(hash: u64, bytes: &[u8]) -> u64
    ensures { result ≡ words.hash_behind hash bytes.now }
{
    let mut all = hash;
    for byte in bytes {
        all = (all ^ u64::from(*byte)).wrapping_mul(1_099_511_628_211);
    }
    all
}

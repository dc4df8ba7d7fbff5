//! A tuple as its key.
ghost use Rattle.std.specs.Prelude.{◌≡◌, ◌≤◌, ◌<◌, ◌+◌, ◌*◌, ◌^◌, ◌++◌, map, length, true, IfOk, OnOk};
ghost use Rattle.agg_meaning.specs.Feeds.{AreValues};
ghost use Rattle.key_methods.specs.Figures.{worth};
ghost use Rattle.key_methods.specs.KeyBytes as spec;
ghost use Rattle.key_methods.specs.declared.kind.KeyKind.TheVariants.{NoKey, Packed128};
ghost use Rattle.key_methods.specs.Keys.{IsKey, key_of, key_with};
ghost use Rattle.key_methods.specs.Kinds.{AreKeyTypes, fit_in, kind_of, total_width};
ghost use Rattle.value_types.specs.Folds.{ty_of, value_of};

use crate::number::{number_width, word_of};
use crate::writing::{text_of, write_value};
use crate::{Key, KeyKind};
use std::alloc::Global;
use value_lists::{Bytes, OutOfMemory, Seq};
use value_types::{Ty, Value};

/// The key of a tuple of values of the key columns. Different tuples have different keys (`law_keys`).
///
/// # Errors
///
/// [`OutOfMemory`] where there is no room for the bytes of a key that isn't one number.
#[tactic(auto, using(crate::proofs::SmallKinds::small_kinds))]
pub fn pack(
    alloc: Global,
    kind: KeyKind,
    types: &[Ty],
    values: &[Value],
) -> Result<Key, OutOfMemory>
    requires kind { kind ≡ kind_of (map ty_of types.now) }
    requires types { AreKeyTypes types.now }
    requires values { AreValues (map ty_of types.now) (map value_of values.now) }
    ensures key { IfOk result (λ key. key ≡ key_of (map ty_of types.now) (map value_of values.now)) }
    ensures short { OnOk result (spec.AreShort (map value_of values.now)) }
    ensures formed { IfOk result IsKey }
{
    all_short(values);
    match kind {
        KeyKind::NoKey => Ok(small_key(types, values)),
        KeyKind::Key8 => Ok(small_key(types, values)),
        KeyKind::Key16 => Ok(small_key(types, values)),
        KeyKind::Key32 => Ok(small_key(types, values)),
        KeyKind::Key64 => Ok(small_key(types, values)),
        KeyKind::KeyString => Ok(Key::Long(only_text(alloc, values)?)),
        KeyKind::Packed128 => Ok(wide_key(types, values)),
        KeyKind::Serialized => Ok(Key::Long(written(alloc, types, values)?)),
    }
}

/// What stands in memory is shorter than 2^64 bytes.
fn all_short(values: &[Value])
    ensures { spec.AreShort (map value_of values.now) }
{
    for value in values {
        let _count = text_of(value).len();
    }
}

/// The key of plain numbers of at most 8 bytes.
fn small_key(types: &[Ty], values: &[Value]) -> Key
    requires plain { fit_in 8 (map ty_of types.now) ≡ true }
    requires types { AreKeyTypes types.now }
    requires values { AreValues (map ty_of types.now) (map value_of values.now) }
    ensures key { result ≡ key_with NoKey (spec.values_bytes (map ty_of types.now) (map value_of values.now)) }
    ensures formed { IsKey result }
{
    let packed = side_by_side(types, values);
    Key::Small {
        word: packed.word as u64,
        width: packed.width,
    }
}

/// The key of plain numbers of at most 16 bytes.
fn wide_key(types: &[Ty], values: &[Value]) -> Key
    requires plain { fit_in 16 (map ty_of types.now) ≡ true }
    requires types { AreKeyTypes types.now }
    requires values { AreValues (map ty_of types.now) (map value_of values.now) }
    ensures key { result ≡ key_with Packed128 (spec.values_bytes (map ty_of types.now) (map value_of values.now)) }
    ensures formed { IsKey result }
{
    let packed = side_by_side(types, values);
    Key::Wide {
        word: packed.word,
        width: packed.width,
    }
}

/// Numbers side by side: the number that their bytes spell, and how many these are.
#[derive(Clone, Copy)]
pub struct Joined {
    pub word: u128,
    pub width: u8,
}

/// A number of `width` bytes behind others, all of at most 16 bytes.
#[inline]
pub fn behind(before: Joined, word: u64, width: usize) -> Joined
    requires room { before.width + width ≤ 16 }
    requires most { width ≤ 8 }
    requires before { before.word < 256 ^ before.width }
    requires below { word < 256 ^ width }
    ensures word { result.word ≡ before.word * 256 ^ width + word }
    ensures width { result.width ≡ before.width + width }
    ensures below { result.word < 256 ^ result.width }
{
    Joined {
        word: (before.word << (8 * width)) + u128::from(word),
        width: before.width + width as u8,
    }
}

/// Plain numbers side by side.
fn side_by_side(types: &[Ty], values: &[Value]) -> Joined
    requires plain { fit_in 16 (map ty_of types.now) ≡ true }
    requires types { AreKeyTypes types.now }
    requires values { AreValues (map ty_of types.now) (map value_of values.now) }
    ensures word { result.word ≡ worth (spec.values_bytes (map ty_of types.now) (map value_of values.now)) }
    ensures width { result.width ≡ length (spec.values_bytes (map ty_of types.now) (map value_of values.now)) }
    ensures below { result.word < 256 ^ result.width }
    ensures most { result.width ≤ total_width (map ty_of types.now) }
{
    let mut packed = Joined { word: 0, width: 0 };
    for i in 0..types.len() {
        let ty = &types[i];
        packed = behind(packed, word_of(ty, &values[i]), number_width(ty));
    }
    packed
}

/// The bytes of a String that is the whole key.
fn only_text(alloc: Global, values: &[Value]) -> Result<Bytes, OutOfMemory>
    ensures { IfOk result (λ bytes. bytes ≡ spec.only_text (map value_of values.now)) }
{
    match values {
        [] => Ok(Seq::new(alloc)),
        [only, ..] => Seq::from_slice(alloc, text_of(only)),
    }
}

/// All values, one behind another.
fn written(alloc: Global, types: &[Ty], values: &[Value]) -> Result<Bytes, OutOfMemory>
    requires types { AreKeyTypes types.now }
    requires values { AreValues (map ty_of types.now) (map value_of values.now) }
    ensures { IfOk result (λ bytes. bytes ≡ spec.values_bytes (map ty_of types.now) (map value_of values.now)) }
{
    let mut out = Vec::new(alloc);
    for i in 0..types.len() {
        write_value(&mut out, &types[i], &values[i])?;
    }
    Ok(Seq::from_vec(out))
}

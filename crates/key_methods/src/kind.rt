//! Which kind of key serves which key columns.
ghost use Rattle.std.specs.Prelude.{◌≡◌, ◌≤◌, ◌∷◌, [], map};
ghost use Rattle.key_methods.specs.Kinds.{fit_in, is_plain_number, kind_of, kind_of_one, width_of};
ghost use Rattle.value_types.specs.Folds.{ty_of};

use crate::number::number_width;
use value_types::Ty;

/// The kinds of keys: by the key columns' types.
#[derive(Clone, Copy, Debug, PartialEq, Eq)]
pub enum KeyKind {
    /// No key column: one group.
    NoKey,
    /// One column of numbers of 8 bits.
    Key8,
    /// One column of numbers of 16 bits.
    Key16,
    /// One column of numbers of 32 bits.
    Key32,
    /// One column of numbers of 64 bits.
    Key64,
    /// One column of Strings.
    KeyString,
    /// Two columns of numbers or more, which have at most 16 bytes together.
    Packed128,
    /// All else: each value is written out.
    Serialized,
}

impl KeyKind {
    /// The kind of key that serves key columns of these types. It takes no memory.
    pub fn of(keys: &[Ty]) -> KeyKind
        ensures { result ≡ kind_of (map ty_of keys.now) }
    {
        match keys {
            [] => KeyKind::NoKey,
            [only] => kind_of_column(only),
            _ => {
                if fit_in_word(keys) {
                    KeyKind::Packed128
                } else {
                    KeyKind::Serialized
                }
            }
        }
    }
}

fn kind_of_column(ty: &Ty) -> KeyKind
    ensures { result ≡ kind_of_one (ty_of ty.now) }
{
    match ty {
        Ty::U8 | Ty::I8 => KeyKind::Key8,
        Ty::U16 | Ty::I16 => KeyKind::Key16,
        Ty::U32 | Ty::I32 => KeyKind::Key32,
        Ty::U64 | Ty::I64 => KeyKind::Key64,
        Ty::Str => KeyKind::KeyString,
        _ => KeyKind::Serialized,
    }
}

/// Whether all are plain numbers that have at most 16 bytes together.
fn fit_in_word(types: &[Ty]) -> bool
    ensures { result ≡ fit_in 16 (map ty_of types.now) }
{
    let mut room: usize = 16;
    for ty in types {
        let width = number_width(ty);
        if width == 0 {
            return false;
        }
        if room < width {
            return false;
        }
        room -= width;
    }
    true
}

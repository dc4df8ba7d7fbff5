//! Conditions of rows: those of -If in their own column, where they are no Nullable. Other chains have none here.
ghost use Rattle.std.specs.Prelude.{◌≡◌, ◌<◌, length, IfSome};
ghost use Rattle.chain_states.specs.proving.Places.{is_left as left};

/// Whether a row is left out: there is a condition, which isn't met.
#[inline]
pub(crate) fn is_left(conditions: Option<&[u8]>, number: usize) -> bool
    requires { IfSome conditions (λ all. number < length all.now) }
    ensures { result ≡ left (λ all. all.now) conditions.entry number }
{
    match conditions {
        Some(all) => all[number] == 0,
        None => false,
    }
}

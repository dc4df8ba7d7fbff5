//! Which tuples of values stand for the arguments of a call.
ghost use Rattle.std.specs.Prelude.{◌≡◌, map};
ghost use Rattle.std.specs.List.{list_all};
ghost use Rattle.agg_terms.specs.Fitting as spec;
ghost use Rattle.agg_values.specs.Peels.{peeled_types};
ghost use Rattle.value_types.specs.Folds.{value_of};

use crate::links::{Peels, peel};
use crate::plain_fits::plain_fits;
use value_types::{Seq, Ty, Value, bare};

/// Whether a tuple has one value of each type, taken without Nullable.
pub(crate) fn row_fits(types: &[Ty], peels: &Peels<'_>, row: &[Value]) -> bool
    ensures { result ≡ spec.fits_row (peeled_types peels.now types.now) (map value_of row.now) }
{
    if types.len() != row.len() {
        return false;
    }
    for i in 0..types.len() {
        if !plain_fits(bare(peel(peels, &types[i])), &row[i]) {
            return false;
        }
    }
    true
}

/// The same of each tuple.
pub(crate) fn rows_fit(types: &[Ty], peels: &Peels<'_>, rows: &[Seq<Value>]) -> bool
    ensures { result ≡ list_all (λ row. spec.fits_row (peeled_types peels.now types.now) (map value_of row)) rows.now }
{
    for i in 0..rows.len() {
        if !row_fits(types, peels, rows[i].as_slice()) {
            return false;
        }
    }
    true
}

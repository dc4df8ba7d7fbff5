//! What holds of plans over tables, as the contract of a function that does nothing.
ghost use Rattle.agg_defs.specs.Plans.{ColumnsAreNarrow, FittingIsLegal};

use agg_typing::law_typing;
use value_types::law_types;

/// A plan that agrees with a table is a legal view over the table's columns: the laws of views and the law of rows speak
/// of it.
pub fn law_plans()
    ensures legal { FittingIsLegal }
    ensures narrow { ColumnsAreNarrow }
{
    law_typing();
    law_types();
}

//! What holds of inputs, as the contract of a function that does nothing.
ghost use Rattle.query_run.specs.Laws.{OneOutcome};

use request_text::law_one_query;
use row_texts::law_one_row;
use value_types::law_folds;

/// The input of a query comes to one thing: to one text, or to one refusal.
pub fn law_one_outcome()
    ensures { OneOutcome }
{
    law_folds();
    law_one_query();
    law_one_row();
}

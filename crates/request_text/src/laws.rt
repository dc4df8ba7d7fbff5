//! What holds of queries, as the contract of a function that does nothing.
ghost use Rattle.request_text.specs.Laws.{OneAnswer, OneSelect, OneTable};

use line_forms::law_one_form;

/// Two lines come to one query, or to one refusal: what `read_query` says of them leaves no choice.
pub fn law_one_query()
    ensures tables { OneTable }
    ensures requests { OneSelect }
    ensures queries { OneAnswer }
{
    law_one_form();
}

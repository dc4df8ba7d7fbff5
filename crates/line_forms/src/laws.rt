//! What holds of the forms of lines, as the contract of a function that does nothing.

ghost use Rattle.line_forms.specs.Laws.{OneTable, OneSelect, OneLine};

use tsv_text::law_one_answer;

/// A line spells one form at most: one table, one request, one line of a script.
pub fn law_one_form()
    ensures tables { OneTable }
    ensures requests { OneSelect }
    ensures lines { OneLine }
{
    law_one_answer();
}

//! What holds of scripts, as the contract of a function that does nothing.
ghost use Rattle.script_text.specs.Laws.{OneAnswer, OneScript, ViewsOfLinesAreFound};

use line_forms::law_one_form;
use request_text::law_one_query;

/// The text of a script comes to one script, or to one refusal: what `read_script` says of it leaves no choice.
pub fn law_one_script()
    ensures scripts { OneScript }
    ensures answers { OneAnswer }
{
    law_one_form();
    law_one_query();
}

/// Each view of a script is found by its name, at its own place among at most 16.
pub fn law_script_views()
    ensures { ViewsOfLinesAreFound }
{}

//! The laws on resolved code, each the contract of a function that does nothing.
ghost use Rattle.jr_code.specs.Laws.{CodeIsOne, ExchangesUndoThemselves};

use jr_table::{lookups_are_exact, types_are_exact};
use jr_text::Mark;

/// By the rows of a program each expression, body, method, constructor and list of initializers has
/// one code at most, whatever the marks are.
pub fn code_is_one<A: Mark>()
    ensures { CodeIsOne A }
{
    lookups_are_exact();
    types_are_exact::<A>();
}

/// An exchange of what is declared with its images undoes itself.
pub fn exchanges_undo_themselves<X>()
    ensures { ExchangesUndoThemselves X }
{}

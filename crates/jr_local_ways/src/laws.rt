//! What holds of ways.
ghost use Rattle.jr_local_ways.specs.ReadyWays.{ValuesAreReady, WaysAreReady};
ghost use Rattle.jr_local_ways.specs.Elements.{ElementsHoldIt, OneHasTheSpan};
ghost use Rattle.jr_local_ways.specs.Unbased.{SpansHaveNoBase};

use jr_table::{lookups_are_exact, notes_are_exact, types_are_exact};
use jr_text::Span;
use jr_told_ways::one_way_has_a_span;

/// Where a list may be walked, so may the nearest element of an expression in it, the statements
/// behind that, and the expression as it stands.
pub fn ways_are_ready()
    ensures { WaysAreReady }
{}

/// What is used for its value and has a type may be walked as a value (JLS 6.5.2: in front of a dot
/// it is no class's name), wherever its parent is told to begin.
pub fn values_are_ready()
    ensures { ValuesAreReady }
{
    lookups_are_exact();
    types_are_exact::<Span>();
    notes_are_exact::<Span>();
}

/// In its nearest element an expression stands where it stands in the list; where nothing bars it
/// there, what is known at the element is known, or in its initializer (JLS 6.3).
pub fn elements_hold_it<A>()
    ensures { ElementsHoldIt A }
{}

/// In a list with nested spans, one expression of the nearest element has the span.
pub fn one_has_the_span()
    ensures { OneHasTheSpan }
{
    one_way_has_a_span::<Span>();
}

/// What becomes of an expression whose marks are spans is the same wherever its parent is told to
/// begin.
pub fn spans_have_no_base()
    ensures { SpansHaveNoBase }
{}

//! What holds of a search that finds nothing.
ghost use Rattle.jr_piece_search.specs.SoughtStatements.{NoneHasTheSpan};

use jr_pieces::spans_tell_ways;
use jr_text::Span;

/// Where a search finds nothing in a list with nested spans, no expression in it has the span.
pub fn none_has_the_span()
    ensures { NoneHasTheSpan }
{
    spans_tell_ways::<Span>()
}

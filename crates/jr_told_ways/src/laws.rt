//! What tells a way.
ghost use Rattle.jr_told_ways.specs.Told.{OneWayHasASpan, PathsTellWays};

use jr_pieces::spans_tell_ways;

/// Two ways into a list of one path are one, and lead to one expression.
pub fn paths_tell_ways<A>()
    ensures { PathsTellWays A }
{}

/// In a list with nested spans, two ways of one span are one, and lead to one expression.
pub fn one_way_has_a_span<A>()
    ensures { OneWayHasASpan A }
{
    spans_tell_ways::<A>();
}

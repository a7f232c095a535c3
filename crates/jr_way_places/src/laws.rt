//! What a table says of an expression to which a way leads. `A` are marks.
ghost use Rattle.jr_way_places.specs.PlacedWays.{TypedAreNoClasses, WaysAreWalked, WaysLeadToTypes};

use jr_table::{lookups_are_exact, types_are_exact};
use jr_text::Mark;

/// The path of a way leads to the types that its expression has where it stands, and to no others.
pub fn ways_lead_to_types<A>()
    ensures { WaysLeadToTypes A }
{}

/// What an expression binds or breaks where a way leads to it, the list does from which the way
/// goes (JLS 6.5, 14, 15).
pub fn ways_are_walked<A>()
    ensures { WaysAreWalked A }
{}

/// What has a type is no class's name (JLS 6.5.2): where a variable or a field is found, no class
/// is.
pub fn typed_are_no_classes<A: Mark>()
    ensures { TypedAreNoClasses A }
{
    lookups_are_exact();
    types_are_exact::<A>();
}

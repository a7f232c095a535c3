//! What holds of the bodies of a program.
ghost use Rattle.jr_bodies.specs.BodyLaws.{BodiesAreNested, BodiesHaveTypes};

use jr_lex::items_are_placed;
use jr_members::members_are_written;
use jr_pieces::standing_lists_are_nested;
use jr_text::Span;
use jr_way_places::ways_lead_to_types;

/// Spans in a body are nested, and so tell expressions apart.
pub fn bodies_are_nested()
    ensures { BodiesAreNested }
{
    items_are_placed();
    members_are_written::<Span>();
    standing_lists_are_nested::<Span>();
}

/// What binding knows by the path of a way is the type that the expression has where it stands.
pub fn bodies_have_types()
    ensures { BodiesHaveTypes }
{
    ways_lead_to_types::<Span>();
}

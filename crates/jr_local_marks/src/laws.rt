//! Words of a body, in its file's text.
ghost use Rattle.jr_local_marks.specs.MarkLaws.{BodiesAreSpelled};

use jr_lex::items_are_placed;
use jr_members::members_are_written;
use jr_pieces::standing_lists_are_nested;
use jr_text::Span;

/// Behind the nearest element of an expression each name stands at its word, and spans are nested;
/// words have as many bytes as their texts, that of a declaration, too (JLS 3.8).
pub fn bodies_are_spelled()
    ensures { BodiesAreSpelled }
{
    items_are_placed();
    members_are_written::<Span>();
    standing_lists_are_nested::<Span>();
}

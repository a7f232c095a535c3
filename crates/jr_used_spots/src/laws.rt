//! What each plan does.
ghost use Rattle.jr_used_spots.specs.Plans.{ExtractsPut, InlinesTakeAway};

use jr_members::members_are_written;
use jr_text::Span;

/// Whatever extract local makes of a program, a declaration is put in front of the statement.
pub fn extracts_put()
    ensures { ExtractsPut }
{
    members_are_written::<Span>();
}

/// Whatever inline local makes of a program, the declaration of the local goes.
pub fn inlines_take_away()
    ensures { InlinesTakeAway }
{
    members_are_written::<Span>();
}

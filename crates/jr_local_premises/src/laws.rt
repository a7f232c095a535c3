//! What holds in a sound program where a body is walked in parts.
ghost use Rattle.jr_local_premises.specs.BodyPremises.{BodiesAreBelow, BodiesAreReady};
ghost use Rattle.jr_local_premises.specs.SelectedPremises.{SelectedAreReady};
ghost use Rattle.jr_local_premises.specs.TypePremises.{TypesAreWritten};

use jr_bodies::bodies_are_nested;
use jr_local_walks::extract_is_walked;
use jr_local_ways::{elements_hold_it, one_has_the_span, values_are_ready, ways_are_ready};
use jr_members::members_are_written;
use jr_new_files::written_members_are_ready;
use jr_text::Span;

/// The statements of a body may be walked: nothing in them breaks a rule, and binding knows their
/// references by places and their types by paths.
pub fn bodies_are_ready()
    ensures { BodiesAreReady }
{
    written_members_are_ready();
}

/// Where a body begins, the numbers of parameters are below that of the next local (JLS 8.4.1), and
/// classes that are known as types have rows.
pub fn bodies_are_below()
    ensures { BodiesAreBelow }
{
    members_are_written::<Span>();
}

/// What extract local selects, its statement and those behind it may be walked, each by itself.
pub fn selected_are_ready()
    ensures { SelectedAreReady }
{
    bodies_are_ready();
    bodies_are_below();
    bodies_are_nested();
    members_are_written::<Span>();
    ways_are_ready();
    values_are_ready();
    elements_hold_it::<Span>();
    one_has_the_span();
    extract_is_walked();
}

/// A class that is asked as a made type by the walk's mapping is written so by extract local (JLS
/// 6.5.5).
pub fn types_are_written()
    ensures { TypesAreWritten }
{}

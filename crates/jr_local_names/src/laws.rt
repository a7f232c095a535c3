//! What a name in a body finds.
ghost use Rattle.jr_local_names.specs.BoundNames.{NamesAreBound};

use jr_members::members_are_written;
use jr_program_laws::parts_are_placed;
use jr_table::lookups_are_exact;
use jr_text::Span;
use jr_way_places::ways_are_walked;

/// A name in a body of a program finds a local exactly where the local is what binding has at the
/// name's first byte (JLS 6.5.6).
pub fn names_are_bound()
    ensures { NamesAreBound }
{
    members_are_written::<Span>();
    parts_are_placed();
    lookups_are_exact();
    ways_are_walked::<Span>();
}

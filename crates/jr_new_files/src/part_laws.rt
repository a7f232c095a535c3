//! Laws that no call's clause can carry.
ghost use Rattle.jr_new_files.specs.PartLaws.{WrittenAreReady, WrittenAreSound};

use jr_members::members_are_written;
use jr_program_laws::{declared_types_are_found, parts_are_placed};
use jr_table::lookups_are_exact;
use jr_text::Span;

/// A written member of a program breaks no rule, and the types that it declares are found.
pub fn written_members_are_sound()
    ensures { WrittenAreSound }
{
    members_are_written::<Span>();
    parts_are_placed();
    lookups_are_exact();
    declared_types_are_found::<Span>();
}

/// A written member of a program has all that a walk over it rests on: it breaks no rule, and
/// binding knows each of its references by its place and each of its types by its path.
pub fn written_members_are_ready()
    ensures { WrittenAreReady }
{
    members_are_written::<Span>();
    parts_are_placed();
    lookups_are_exact();
    declared_types_are_found::<Span>();
}

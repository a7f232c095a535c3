//! Tests for null in bodies.
ghost use Rattle.jr_local_footprints.specs.NullTests.{OwnFlagsTell, TestsAreThere};

use jr_local_reads::bodies_begin_below;
use jr_local_search::{declarations_have_ways, ways_are_declared};
use jr_member_graphs::flags_tell_the_member;
use jr_members::members_are_written;
use jr_program_laws::parts_are_placed;
use jr_table::{lookups_are_exact, types_are_exact};
use jr_text::Span;
use jr_way_places::ways_are_walked;

/// By the flags of its member's own locals a value in a body is taken for never null exactly where
/// it is: `this`, `new`, a string, a class literal, these in parentheses, or a local that is never
/// assigned and begins with such a value.
pub fn own_flags_tell()
    ensures { OwnFlagsTell }
{
    members_are_written::<Span>();
    parts_are_placed();
    ways_are_walked::<Span>();
    lookups_are_exact();
    types_are_exact::<Span>();
    bodies_begin_below();
    declarations_have_ways();
    ways_are_declared();
    flags_tell_the_member();
}

/// For each body there is a test that tells what is never null in it.
pub fn tests_are_there()
    ensures { TestsAreThere }
{
    own_flags_tell();
}

//! Where references lead in the trees that extract local plans.
ghost use Rattle.jr_extracted_references.specs.References.{KeepsReferences};

use jr_bodies::bodies_are_nested;
use jr_images::rows_are_named;
use jr_local::regions_are_sound;
use jr_local_premises::selected_are_ready;
use jr_local_ways::elements_hold_it;
use jr_members::members_are_written;
use jr_spell::spellings_rebind;
use jr_table::{lookups_are_exact, types_are_exact};
use jr_text::Span;
use jr_told_ways::one_way_has_a_span;

/// Where extract local loses nothing, each reference of the program is bound, at its place in the
/// trees that are planned, to the image of its declaration: outside of the statement's list, in the
/// expression that moves, in the statement and behind it. The name that is put means the made
/// local, and the written type is that of the expression (JLS 6.3 to 6.5).
pub fn extracts_keep_references()
    ensures { KeepsReferences }
{
    lookups_are_exact();
    types_are_exact::<Span>();
    spellings_rebind::<Span>();
    regions_are_sound();
    rows_are_named::<Span>();
    members_are_written::<Span>();
    bodies_are_nested();
    one_way_has_a_span::<Span>();
    selected_are_ready();
    elements_hold_it::<Span>();
}

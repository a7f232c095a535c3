//! What stays of a program behind extract and inline local.
ghost use Rattle.jr_kept_rows.specs.Staying.{ExtractsKeepPrograms, InlinesKeepPrograms};

use jr_cursor::one_is_target;
use jr_first_values::first_values_stand;
use jr_images::rows_are_named;
use jr_lex::items_are_placed;
use jr_local_search::ways_are_declared;
use jr_members::members_are_written;
use jr_new_files::written_members_are_sound;
use jr_pieces::standing_lists_are_nested;
use jr_table::{lookups_are_exact, types_are_exact};
use jr_text::Span;
use jr_told_ways::one_way_has_a_span;

/// Where a program is read as the trees that extract local makes of another, both have the same
/// rows, and each static field begins with the same in both.
pub fn extracts_keep_programs()
    ensures { ExtractsKeepPrograms }
{
    items_are_placed();
    members_are_written::<Span>();
    written_members_are_sound();
    standing_lists_are_nested::<Span>();
    one_way_has_a_span::<Span>();
    lookups_are_exact();
    types_are_exact::<Span>();
    rows_are_named::<Span>();
    first_values_stand::<Span>();
}

/// Where a program is read as the trees that inline local makes of another, both have the same
/// rows, and each static field begins with the same in both.
pub fn inlines_keep_programs()
    ensures { InlinesKeepPrograms }
{
    items_are_placed();
    members_are_written::<Span>();
    written_members_are_sound();
    standing_lists_are_nested::<Span>();
    one_way_has_a_span::<Span>();
    lookups_are_exact();
    types_are_exact::<Span>();
    rows_are_named::<Span>();
    first_values_stand::<Span>();
    ways_are_declared();
    one_is_target();
}

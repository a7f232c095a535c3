//! What each plan leaves.
ghost use Rattle.jr_untouched_parts.specs.Locals.{ExtractsAreWhole, ExtractsAreInOrder};
ghost use Rattle.jr_untouched_parts.specs.Locals.{InlinesAreWhole, InlinesAreInOrder};
ghost use Rattle.jr_untouched_parts.specs.Methods.{InlineMethodsAreWhole};

use jr_bodies::bodies_are_nested;
use jr_images::rows_are_named;
use jr_local_texts::{extracts_fit, inlines_fit};
use jr_members::members_are_written;
use jr_new_files::written_members_are_sound;
use jr_table::{lookups_are_exact, types_are_exact};
use jr_text::Span;
use jr_told_ways::one_way_has_a_span;

/// What extract local makes of the list from its statement on, it makes of the program: nothing
/// else of the file changes, is respelled or is lost, and no other file is touched.
pub fn extracts_are_whole()
    ensures { ExtractsAreWhole }
{
    members_are_written::<Span>();
    written_members_are_sound();
    lookups_are_exact();
    types_are_exact::<Span>();
    rows_are_named::<Span>();
    bodies_are_nested();
    one_way_has_a_span::<Span>();
}

/// What inline local makes of the list from the declaration on, it makes of the program.
pub fn inlines_are_whole()
    ensures { InlinesAreWhole }
{
    members_are_written::<Span>();
    written_members_are_sound();
    lookups_are_exact();
    types_are_exact::<Span>();
    rows_are_named::<Span>();
    bodies_are_nested();
    one_way_has_a_span::<Span>();
}

/// The changes of the list by extract local are in order, so they are edits of the file.
pub fn extracts_are_in_order()
    ensures { ExtractsAreInOrder }
{
    extracts_are_whole();
    extracts_fit();
}

/// The changes of the list by inline local are in order, so they are edits of the file.
pub fn inlines_are_in_order()
    ensures { InlinesAreInOrder }
{
    inlines_are_whole();
    inlines_fit();
}

/// What inline method makes of the list from the call's statement on, it makes of the program.
pub fn inline_methods_are_whole()
    ensures { InlineMethodsAreWhole }
{
    members_are_written::<Span>();
    written_members_are_sound();
    lookups_are_exact();
    types_are_exact::<Span>();
    rows_are_named::<Span>();
    bodies_are_nested();
    one_way_has_a_span::<Span>();
}

//! Laws of each plan of a rename.
ghost use Rattle.jr_reference_changes.specs.Family.{FamiliesAreKept, FamiliesAreWhole};
ghost use Rattle.jr_reference_changes.specs.Fronts.{FrontsStay};
ghost use Rattle.jr_reference_changes.specs.Names.{PlansChangeNames};
ghost use Rattle.jr_reference_changes.specs.PlacesInFiles.{PlansAreOfPlaces};

use jr_grammar::marks_are_one;
use jr_images::rows_are_named;
use jr_lex::{items_are_placed, one_answer};
use jr_rename_laws::renamings_stay_fair;
use jr_table::{lookups_are_exact, types_are_exact};
use jr_text::Span;

/// The pairs of a planned rename give the new name to each declaration of the family that is
/// renamed, and to no other (JLS 8.4.8.1).
pub fn families_are_whole()
    ensures { FamiliesAreWhole }
{}

/// Methods override one another in a program, and are connected by overriding, exactly where their
/// images do in the program that a planned rename makes (JLS 8.4.8.1).
pub fn families_are_kept()
    ensures { FamiliesAreKept }
{
    rows_are_named::<Span>();
    renamings_stay_fair::<Span>();
}

/// In front of each reference of the files that a rename makes stands what stood there, rewritten;
/// or `this`, `super`, a cast of one of these, or the name of a class (JLS 6.4.2, 6.5). So `x`
/// never becomes `e().x`.
pub fn fronts_stay()
    ensures { FrontsStay }
{}

/// The edits of each file of a planned rename are exactly those of the references and declared
/// names that stay in it, each as it is chosen there; it counts the respelled among these, and loses
/// those that no spelling binds. None of them stands twice.
pub fn plans_are_of_places()
    ensures { PlansAreOfPlaces }
{
    items_are_placed();
    marks_are_one();
    rows_are_named::<Span>();
    renamings_stay_fair::<Span>();
    lookups_are_exact();
    types_are_exact::<Span>();
}

/// What a planned rename changes of a text is names: each item that an edit's span meets lies within
/// it, and is a word, `super`, a dot, a blank or a comment (JLS 6.2, 3.5).
pub fn plans_change_names()
    ensures { PlansChangeNames }
{
    one_answer();
    items_are_placed();
    marks_are_one();
    rows_are_named::<Span>();
    renamings_stay_fair::<Span>();
    lookups_are_exact();
    types_are_exact::<Span>();
}

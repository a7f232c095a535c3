//! What holds of each step.
ghost use Rattle.jr_session.specs.NewTables.{NewTables};
ghost use Rattle.jr_session.specs.PlansRead.{PlansRead};
ghost use Rattle.jr_session.specs.Promises.{StepsKeepPrograms};
ghost use Rattle.jr_session.specs.StepLaws.{HasOneAnswer, HasOneShow, RenamesAreRefusedFirst};

use jr_cursor::one_is_target;
use jr_dependence_lines::lines_are_one;
use jr_dispatch::dispatch_is_kept;
use jr_first_values::first_values_stand;
use jr_images::rows_are_named;
use jr_kept_rows::extracts_keep_programs;
use jr_kept_runs::{renames_keep_histories, renames_keep_runs};
use jr_lex::one_answer;
use jr_lines::lines_are_told;
use jr_local_plans::extract_is_one;
use jr_local_texts::extracts_fit;
use jr_members::members_are_written;
use jr_program_laws::parts_are_placed;
use jr_punit::one_reading;
use jr_reference_changes::{
    families_are_kept, families_are_whole, fronts_stay, plans_are_of_places, plans_change_names,
};
use jr_rename_laws::{
    classes_give_images, constructors_give_images, plan_is_one, plans_become, plans_keep_programs,
    renamings_stay_fair, rewriting_is_one,
};
use jr_sound_code::{programs_have_code, sound_programs_are_well_typed};
use jr_sources::text_has_one_reading;
use jr_text::{Span, untouched_bytes_move};

/// A step has one reply and leaves one state, and a show's lines are those of the present sources,
/// whatever was done before.
pub fn step_has_one_answer()
    ensures answer { HasOneAnswer }
    ensures lines { HasOneShow }
{
    text_has_one_reading();
    one_answer();
    lines_are_told();
    lines_are_one();
    parts_are_placed();
    members_are_written::<Span>();
    plan_is_one();
    extract_is_one();
}

/// A rename is refused for exactly the first of its reasons, in the order of refusals, where each
/// reason is said by itself: what else the step finds doesn't change it.
pub fn renames_are_refused_first()
    ensures { RenamesAreRefusedFirst }
{
    text_has_one_reading();
    one_answer();
    parts_are_placed();
    members_are_written::<Span>();
    plan_is_one();
    one_is_target();
    renamings_stay_fair::<Span>();
    rows_are_named::<Span>();
    rewriting_is_one();
}

/// Where a session accepts a refactoring, the sources behind the step are a program again: read,
/// bound and sound from scratch. It is read as the planned trees, its rows are those that the
/// refactoring states, and what a call runs is the image of what it ran. Each of the two programs
/// has resolved code, just one and well typed, and its static fields begin with something, each in
/// the new program with the image of what it began with. Each byte that lies in no edit's span is
/// as before, and an undoing right behind the step gives back every byte of every file. Of a
/// rename, each reference is bound to the image of what it was bound to (JLS 6), whatever is
/// renamed; in front of it stands what stood there, `this`, `super`, a cast or a class; the renamed
/// family is complete, and methods override one another where their images do (JLS 8.4.8.1); edits
/// are those of the references and declared names that stay, and lie on names; the resolved
/// programs are exactly alike; and so each history of several threads (JLS 17.4) of either is one
/// of the other.
pub fn accepted_refactorings_keep_programs()
    ensures { StepsKeepPrograms }
{
    one_reading::<Span>();
    plans_become::<Span>();
    rows_are_named::<Span>();
    classes_give_images::<Span, Span>();
    constructors_give_images::<Span, Span>();
    plans_keep_programs();
    dispatch_is_kept();
    renames_keep_runs();
    renames_keep_histories();
    fronts_stay();
    families_are_whole();
    families_are_kept();
    plans_are_of_places();
    plans_change_names();
    programs_have_code();
    sound_programs_are_well_typed();
    first_values_stand::<Span>();
    untouched_bytes_move();
    plans_read();
    extracts_keep_programs();
}

/// Whatever is asked, what a plan's edits make of each file fits it, and reads as its new tree.
pub(crate) fn plans_read()
    ensures { PlansRead }
{
    plans_keep_programs();
    extracts_fit();
}

/// Where no class is renamed, what a plan's edits make of sources that are a program has no fault
/// of declarations if it reads as units, and its rows are the images of the old rows.
pub(crate) fn new_tables()
    ensures { NewTables }
{
    one_reading::<Span>();
    plans_keep_programs();
}

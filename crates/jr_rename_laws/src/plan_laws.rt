//! Laws of plans that no call's clause can carry.
ghost use Rattle.jr_rename_laws.specs.PlanLaws.{NewTextsRead, ReferencesStay, NewProgramsAreImages};
ghost use Rattle.jr_rename_laws.specs.PlanLaws.{NewProgramsStayClean};

use crate::new_programs::{
    fields_give_images, locals_give_images, methods_give_images, plans_become, renamings_stay_fair,
};
use jr_images::{references_are_kept, renamed_texts_read, rows_are_named};
use jr_text::Span;

/// Whatever is planned in a program without faults and errors: the text of each file, spliced by
/// its edits, reads as its new tree; each reference of the new trees is bound, by binding's own
/// relations over the new rows, to the image of what it was bound to (JLS 6); and, where no class
/// is renamed, the new files' declarations have no fault, their rows are the images of the old
/// rows, and each member stands where the one stood whose image it is. So it is with any package
/// lines, where the old files have no fault with them.
pub fn plans_keep_programs()
    ensures texts { NewTextsRead }
    ensures references { ReferencesStay }
    ensures programs { NewProgramsAreImages }
    ensures clean { NewProgramsStayClean }
{
    rows_are_named::<Span>();
    renamed_texts_read::<Span>();
    references_are_kept::<Span>();
    renamings_stay_fair::<Span>();
    plans_become::<Span>();
    locals_give_images::<Span, Span>();
    fields_give_images::<Span, Span>();
    methods_give_images::<Span, Span>();
}

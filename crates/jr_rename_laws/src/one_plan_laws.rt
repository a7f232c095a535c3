//! That each step of a rename's plan has one answer.
ghost use Rattle.jr_rename_laws.specs.OnePlan.{RenamedAreAlike, AlikeBecomeTheSame};
ghost use Rattle.jr_rename_laws.specs.OnePlan.{RewritingIsOne, PlanIsOne};

use crate::new_programs::renamings_stay_fair;
use jr_cursor::one_is_target;
use jr_images::rows_are_named;
use jr_members::members_are_written;
use jr_table::{lookups_are_exact, types_are_exact};
use jr_text::Span;

/// What is renamed with a declaration is one set, and what declarations, rows and scopes become
/// doesn't depend on the order in which it is listed.
pub fn renamed_is_one()
    ensures alike { RenamedAreAlike }
    ensures same { AlikeBecomeTheSame }
{}

/// The files of a program are rewritten in one way: each word has one choice, the first spelling
/// that binds, or the loss with the one thing that is found (JLS 6.4.1, 6.4.2, 6.5).
pub fn rewriting_is_one()
    ensures { RewritingIsOne }
{
    members_are_written::<Span>();
    lookups_are_exact();
    types_are_exact::<Span>();
}

/// In the files of a program a step that renames is planned in one way, or refused for one reason,
/// and not both.
pub fn plan_is_one()
    ensures { PlanIsOne }
{
    members_are_written::<Span>();
    one_is_target();
    rows_are_named::<Span>();
    renamings_stay_fair::<Span>();
    rewriting_is_one();
}

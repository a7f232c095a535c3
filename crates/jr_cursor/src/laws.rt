//! A target is one declaration.
ghost use Rattle.jr_cursor.specs.TargetLaws.{OneIsTarget};

use jr_lex::{items_are_placed, one_answer};
use jr_members::members_are_written;
use jr_table::{lookups_are_exact, types_are_exact};
use jr_text::Span;

/// The identifier at a byte of a file of a program names one declaration at most: no two names that
/// are declared, and no such name and no reference, begin at one byte (JLS 6.1, 6.5).
pub fn one_is_target()
    ensures { OneIsTarget }
{
    items_are_placed();
    one_answer();
    lookups_are_exact();
    types_are_exact::<Span>();
    members_are_written::<Span>();
}

//! What is one in all programs of the same files.
ghost use Rattle.jr_one_plans.specs.OneAnswer.{FilesHaveOneProgram, OneFirstChange, PiecesCrossOnce};

use jr_members::members_are_written;
use jr_text::Span;

/// Programs of the same files have the same rows, each written `super(..)` at one place, and of
/// each written member the same is known.
pub fn files_have_one_program()
    ensures { FilesHaveOneProgram }
{
    members_are_written::<Span>();
}

/// Of changes of dispatch one is the first, whatever becomes of keys and rows.
pub fn one_first_change()
    ensures { OneFirstChange }
{}

/// Two pieces of code that may not change places lose one pair of sites, for one kind of
/// dependence.
pub fn pieces_cross_once<K, L>()
    ensures { PiecesCrossOnce K L }
{}

//! What holds of each rewriting.

ghost use Rattle.jr_rewrite.specs.Puts.{DottedIsParts, SuperIsParts, QualifiedIsParts};
ghost use Rattle.jr_rewrite.specs.RewriteLaws.{RewritingsRead, RewritingsAreOne};

use jr_lex::one_answer;
use jr_text::Mark;

/// The changes of a rewritten file are edits that fit its text, and the spliced text reads as the
/// new tree.
pub fn rewritings_read<A: Mark>()
    ensures { RewritingsRead A.span_from }
{}

/// What the spliced text is read as is the new tree, but for its marks.
pub fn rewritings_are_one<A, B>()
    ensures { RewritingsAreOne A B }
{
    one_answer();
}

/// What is put for a word behind a dot, in up to three parts, are its changes; so is what is put
/// for one behind `super` and for a class behind another.
pub fn changes_are_parts<A: Mark>()
    ensures dotted { DottedIsParts }
    ensures by_super { SuperIsParts }
    ensures qualified { QualifiedIsParts A.span_from }
{}

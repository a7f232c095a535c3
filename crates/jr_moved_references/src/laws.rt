//! What becomes of the places of references.
ghost use Rattle.jr_text.specs.declared.spans.Span.{Span};
ghost use Rattle.jr_moved_references.specs.MovedReferences.{ExpressionReferencesMove};
ghost use Rattle.jr_moved_references.specs.MovedReferences.{StatementReferencesMove};
ghost use Rattle.jr_moved_references.specs.FileReferences.{FileReferencesMove};

use jr_lex::{items_are_placed, one_answer};
use jr_spell::spellings_rebind;
use jr_table::{lookups_are_exact, types_are_exact};
use jr_text::Span;

/// Each reference of a renamed expression, statement or file whose first byte no change touches is
/// bound, at the byte that this one has moved to, to the image of its declaration (JLS 6.5); in a
/// file a written `super(..)` isn't one of these.
pub fn references_move()
    ensures expressions { ExpressionReferencesMove }
    ensures statements { StatementReferencesMove }
    ensures files { FileReferencesMove }
{
    one_answer();
    items_are_placed();
    spellings_rebind::<Span>();
    lookups_are_exact();
    types_are_exact::<Span>();
}

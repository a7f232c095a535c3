//! What becomes of the places of a text that is rewritten.
ghost use Rattle.jr_moved_tokens.specs.MovedTokens.{UntouchedTokensMove};

use jr_lex::{items_are_placed, one_answer};
use jr_text::Mark;

/// Each token of a rewritten file whose first byte no change touches is a token of the new text,
/// as long as it was, at the byte that its first one has moved to (JLS 3.5). No place is told of a
/// token that a change touches.
pub fn untouched_tokens_move<A: Mark>()
    ensures { UntouchedTokensMove A.span_from }
{
    one_answer();
    items_are_placed();
}

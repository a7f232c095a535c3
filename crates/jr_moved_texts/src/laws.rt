//! What holds of texts that move.
ghost use Rattle.jr_moved_texts.specs.Moved.{RunsMove};

/// A run of tokens that changes may move in front of any text in front of which its last token
/// ends: there it is cut into the tokens that it becomes (JLS 3.2).
pub fn runs_move()
    ensures { RunsMove }
{}

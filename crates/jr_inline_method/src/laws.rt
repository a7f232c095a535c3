//! What holds of what inline method makes of a program.
ghost use Rattle.jr_inline_method.specs.Laws.{InlineMethodIsApart};

/// The spot of an inline method is used: the list of statements from the call's on.
pub fn inline_method_is_apart()
    ensures { InlineMethodIsApart }
{}

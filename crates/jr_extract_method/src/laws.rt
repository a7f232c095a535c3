//! What holds of what extract method makes of a program.
ghost use Rattle.jr_extract_method.specs.Laws.{ExtractMethodIsApart};

/// The spots of an extract method are used: the list from the member on that holds the piece, and in
/// that member the statements or the expression.
pub fn extract_method_is_apart()
    ensures { ExtractMethodIsApart }
{}

ghost use Rattle.jr_layout.specs.OneAnswer.{HasOneLineEnd, HasOneGap, HasOneClassEnd};
ghost use Rattle.jr_layout.specs.OneAnswer.{HasOneRemoval, HasOneBlank};

/// A text has one line end.
pub fn text_has_one_line_end()
    ensures { HasOneLineEnd }
{}

/// What stands at a place has one gap.
pub fn place_has_one_gap()
    ensures { HasOneGap }
{}

/// A member is put at the end of a class in one way.
pub fn member_has_one_class_end()
    ensures { HasOneClassEnd }
{}

/// A span is removed in one way.
pub fn span_has_one_removal()
    ensures { HasOneRemoval }
{}

/// One blank stands behind a span.
pub fn span_has_one_blank()
    ensures { HasOneBlank }
{}

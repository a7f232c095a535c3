//! The laws, each the contract of a function that does nothing. `C`, `F`, `M` and `N` are keys of
//! classes, fields, methods and constructors, `L` places, `A` marks.
ghost use Rattle.jr_pieces.specs.Before.{WhatComesBeforeStandsInFront};
ghost use Rattle.jr_pieces.specs.Finding.{WhatIsFoundHasAWay};
ghost use Rattle.jr_pieces.specs.Nesting.{SpansTellWays, StandingListsAreNested};

/// What is evaluated before an expression of a list, and then the expression itself, are the first
/// sites of the list (JLS 15.7).
pub fn what_comes_before_stands_in_front<C, F, M, N, L, A>()
    ensures { WhatComesBeforeStandsInFront C F M N L A }
{}

/// An expression of a list is found by its span, so no other has it: by the numbers of the children
/// through which its way goes.
pub fn spans_tell_ways<A>()
    ensures { SpansTellWays A }
{}

/// A list of statements that stands in tokens of a text has nested spans.
pub fn standing_lists_are_nested<A>()
    ensures { StandingListsAreNested A }
{}

/// What is found by its span has a way that leads there.
pub fn what_is_found_has_a_way<A>()
    ensures { WhatIsFoundHasAWay A }
{}

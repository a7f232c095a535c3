//! The laws on made and removed calls, each the contract of a function that does nothing. `C`, `F`,
//! `M` and `N` are the keys of classes, fields, methods and constructors, and `A` the places of
//! nodes.
ghost use Rattle.jr_runs_calls.specs.Extracts.{ExtractedMethodsAreAlike, ExtractedProgramsAreAlike};
ghost use Rattle.jr_runs_calls.specs.Extracts.{ExtractedValuesAreAlike};
ghost use Rattle.jr_runs_calls.specs.Inlines.{InlinedMethodsAreAlike, InlinedProgramsAreAlike};

/// Programs in which fronts of statement lists have become calls of made methods have the same
/// runs: of static methods, and, where both are well typed, of instance methods called on `this`.
pub fn extracted_programs_are_alike<C, F, M, N, A>()
    ensures alike { ExtractedProgramsAreAlike C F M N A }
    ensures typed { ExtractedMethodsAreAlike C F M N A }
{}

/// Well-typed programs in which expressions have become calls of made methods have the same runs.
pub fn extracted_values_are_alike<C, F, M, N, A>()
    ensures { ExtractedValuesAreAlike C F M N A }
{}

/// Programs in which calls of methods have become blocks with their bodies have the same runs: of
/// static methods, and, where both are well typed, of instance methods called on `this`.
pub fn inlined_programs_are_alike<C, F, M, N, A>()
    ensures alike { InlinedProgramsAreAlike C F M N A }
    ensures typed { InlinedMethodsAreAlike C F M N A }
{}

//! The cases, each group the contract of a function that does nothing.
ghost use Rattle.jr_cover_cases.specs.DependenceCases.{Endless, TwoLoads};
ghost use Rattle.jr_cover_cases.specs.EdgeCases.{EdgeCases};
ghost use Rattle.jr_cover_cases.specs.NeverNullCases.{NeverNullCases};
ghost use Rattle.jr_cover_cases.specs.SiteCases.{SiteCases};
ghost use Rattle.jr_cover_cases.specs.ThrowCases.{ThrowCases};
ghost use Rattle.jr_cover_cases.specs.WrongTurns.{WrongTurns};

/// The sites of small pieces, one for each sentence of the rules on sites.
pub fn site_cases()
    ensures { SiteCases }
{}

/// The edges of small pieces, one for each sentence of the rules on edges.
pub fn edge_cases()
    ensures { EdgeCases }
{}

/// A run that throws in a monitor exits it, at a site to which a path leads from each other site.
pub fn throw_cases()
    ensures { ThrowCases }
{}

/// The dependences of `return this.v+this.f;`, v volatile, and of `while(true){f=1;}`: these and no
/// others.
pub fn dependence_cases()
    ensures two_loads { TwoLoads }
    ensures endless_loop { Endless }
{}

/// Expressions that are never null, and some that aren't.
pub fn never_null_cases()
    ensures { NeverNullCases }
{}

/// What the pieces would have by a wrong rule they don't have.
pub fn wrong_turns()
    ensures { WrongTurns }
{}

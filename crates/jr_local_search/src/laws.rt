//! What holds of the declarations of a list.
ghost use Rattle.jr_local_search.specs.DeclarationLaws.{
  DeclarationsHaveWays,
  DeclaredNames,
  WaysAreDeclared,
};

/// Of the locals that a list declares the first of a name is the first declaration of it.
pub fn declared_names()
    ensures { DeclaredNames }
{}

/// Where a declaration is found by its number, a way leads to its initializer.
pub fn declarations_have_ways()
    ensures { DeclarationsHaveWays }
{}

/// Where a way's nearest element is a declaration, it is found by its number.
pub fn ways_are_declared()
    ensures { WaysAreDeclared }
{}

//! Laws of binding that no call's clause can carry.
ghost use Rattle.jr_table.specs.BindingLaws.{
  AreBound,
  AreReferred,
  AreNoted,
  ExpressionsAreNoted,
};

use jr_text::Mark;

/// What is computed as the type of an expression, and as what its references find, is what the
/// relations of binding say (JLS 6.5, 15), whatever the marks are.
pub fn types_are_exact<A: Mark>()
    ensures bound { AreBound A }
{}

/// What is computed as the references of an expression itself, each with its place and what it
/// finds, is what the relation says (JLS 6.5), whatever the marks are.
pub fn references_are_exact<A: Mark>()
    ensures referred { AreReferred A }
{}

/// The log of a walk holds exactly what an expression, a statement or a list in it notes itself.
pub fn walks_are_exact<A: Mark>()
    ensures noted { AreNoted A }
{}

/// What an expression notes itself is what the relations say: the rules that it breaks itself, each
/// with its place, and what its references are bound to (JLS 6, 8, 15), whatever the marks are.
pub fn notes_are_exact<A: Mark>()
    ensures expressions { ExpressionsAreNoted A }
{}

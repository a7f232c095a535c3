//! Laws that no call's clause can carry.
ghost use Rattle.jr_expr_types.specs.Trees.{PathsLeadToTypes};
ghost use Rattle.jr_expr_types.specs.TypedLaws.{TypesAreAt};

use jr_table::types_are_exact;
use jr_text::Mark;

/// In the slots of a tree, what is found by a path is the type of the node to which it leads.
pub fn paths_lead_to_types()
    ensures { PathsLeadToTypes }
{}

/// In the tree of types of a member a path leads to a type exactly where it leads to an expression
/// that has it (JLS 15).
pub fn types_are_at<A: Mark>()
    ensures { TypesAreAt A }
{
    types_are_exact::<A>();
}

//! Laws that no call's clause can carry.
ghost use Rattle.std.specs.Prelude.{◌≡◌, ◌++◌, ◌<◌, ◌^◌, ◌↔◌, ℕ, List, Option, Some, length};
ghost use Rattle.jr_ast.specs.MemberTree as syntax;
ghost use Rattle.jr_table.specs.Conditions.{AreRows};
ghost use Rattle.jr_table.specs.Faults.{PackageLine, IsClean};
ghost use Rattle.jr_table.specs.Prelude.{prelude_rows};
ghost use Rattle.jr_table.specs.ProgramRows.{AreProgramRows};
ghost use Rattle.jr_table.specs.Rows.{Row};
ghost use Rattle.jr_table.specs.DeclaredItems.{DeclaredItem, declarations_of};
ghost use Rattle.jr_build_rows.specs.ExactRows.{rows_of_declarations};
ghost use Rattle.jr_build_rows.specs.Heads.{UnitsHeads, AreHeaded};
ghost use Rattle.jr_build_hierarchy.specs.Hierarchies.{Hierarchy};
ghost use Rattle.jr_build_hierarchy.specs.Superclasses.{IsHierarchy};

use crate::laws::{hierarchies_are_exact, superclasses_are_sound};

/// Members' classes are declared, and what the grammar says of heads holds of declarations.
pub fn declarations_are_headed<A>()
    ensures { (begins : A → ℕ → ℕ) (us : List (syntax.Unit A)) → UnitsHeads us
        → AreHeaded (declarations_of begins us) }
{}

/// Where there is no fault, these are the rows of the program, and they meet what rows must.
pub fn clean_rows_are_sound()
    ensures rows { (packages : List (Option PackageLine)) (declarations : List DeclaredItem) (h : Hierarchy)
        → IsHierarchy declarations h → AreHeaded declarations → IsClean packages declarations
        → AreProgramRows declarations (prelude_rows ++ rows_of_declarations h declarations) }
    ensures meet { (packages : List (Option PackageLine)) (declarations : List DeclaredItem) (h : Hierarchy)
        → IsHierarchy declarations h → AreHeaded declarations → IsClean packages declarations
        → length (prelude_rows ++ rows_of_declarations h declarations) < 2 ^ 32
        → AreRows (prelude_rows ++ rows_of_declarations h declarations) }
    // No others are.
    ensures only { (declarations : List DeclaredItem) (h : Hierarchy) → IsHierarchy declarations h
        → (rows others : List Row) → AreProgramRows declarations rows → AreProgramRows declarations others
        → rows ≡ others }
{
    hierarchies_are_exact();
    superclasses_are_sound();
}

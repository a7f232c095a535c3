//! Laws that no call's clause can carry.
ghost use Rattle.std.specs.Prelude.{◌≡◌, ℕ, List, Option, Some, ◌↔◌};
ghost use Rattle.jr_table.specs.declared.kinds.DeclKind.TheVariants as kind;
ghost use Rattle.jr_table.specs.Keys.{ClassKey, Ty};
ghost use Rattle.jr_table.specs.DeclaredItems.{DeclaredItem, Written};
ghost use Rattle.jr_table.specs.Faults.{Place, PackageLine, HasFault};
ghost use Rattle.jr_table.specs.Resolving.{Means, IsParent};
ghost use Rattle.jr_build_hierarchy.specs.Hierarchies.{Hierarchy, meaning, parent_key};
ghost use Rattle.jr_build_hierarchy.specs.Superclasses.{
  IsHierarchy,
  HasOneParent,
  HasNoCycle,
  HasParents,
};

/// What a hierarchy finds is what types mean and classes extend.
pub fn hierarchies_are_exact()
    ensures means { (declarations : List DeclaredItem) (h : Hierarchy) → IsHierarchy declarations h
        → (k : ClassKey) (w : Written) (t : Ty)
        → (meaning h k w ≡ Some t) ↔ Means declarations k w t }
    ensures extends { (declarations : List DeclaredItem) (h : Hierarchy) → IsHierarchy declarations h
        → (k p : ClassKey) → (parent_key h k ≡ Some p) ↔ IsParent declarations k p }
{}

/// Where no fault of superclasses is, each class has one superclass, and none is on a cycle.
pub fn superclasses_are_sound()
    ensures one { (declarations : List DeclaredItem) (h : Hierarchy) → IsHierarchy declarations h → HasOneParent declarations }
    ensures parents { (packages : List (Option PackageLine)) (declarations : List DeclaredItem) (h : Hierarchy)
        → IsHierarchy declarations h
        → ((p : Place) → HasFault packages declarations kind.NoSuperclass p → ⊥) → HasParents declarations }
    ensures acyclic { (packages : List (Option PackageLine)) (declarations : List DeclaredItem) (h : Hierarchy)
        → IsHierarchy declarations h
        → ((p : Place) → HasFault packages declarations kind.Cycle p → ⊥) → HasNoCycle declarations }
{}

//! The nodes to which paths lead.
ghost use Rattle.std.specs.Prelude.{◌≡◌, option_map};
ghost use Rattle.jr_ast.specs.MemberTree as tree;
ghost use Rattle.jr_ast.specs.Nodes as pure;
ghost use Rattle.jr_ast.specs.View.{expr_of, stmt_of, member_of, unit_of};

use jr_ast::{Expr, Member, Path, Stmt, Unit};
use jr_paths_nodes::Node;

/// What paths lead to that begin at a unit.
///
/// The calls are the trait's own, over the unit that it lends: where an `impl` holds a call that
/// lends a member, the check compares it with the trait at the whole type of members, which takes
/// more steps than it may.
pub trait PathReads<A>: Sized {
    ghost whole: { Self → tree.Unit A };

    /// The unit where the paths begin.
    fn unit(&self) -> &Unit<A>
        ensures { unit_of result.now ≡ whole self.now };

    /// The expression to which the path leads; `None` exactly where it leads to no expression.
    final fn expr_at(&self, path: &Path) -> Option<&Expr<A>>
        ensures { option_map (λ x. expr_of x.now) result
            ≡ pure.exp_at (pure.unit (whole self.now)) path.now.steps.items }
    {
        Node::Unit(self.unit()).at(path)?.as_expr()
    }

    /// The statement to which the path leads; `None` exactly where it leads to no statement.
    final fn stmt_at(&self, path: &Path) -> Option<&Stmt<A>>
        ensures { option_map (λ x. stmt_of x.now) result
            ≡ pure.stmt_at (pure.unit (whole self.now)) path.now.steps.items }
    {
        Node::Unit(self.unit()).at(path)?.as_stmt()
    }

    /// The member to which the path leads; `None` exactly where it leads to no member.
    final fn member_at(&self, path: &Path) -> Option<&Member<A>>
        ensures { option_map (λ x. member_of x.now) result
            ≡ pure.member_at (pure.unit (whole self.now)) path.now.steps.items }
    {
        Node::Unit(self.unit()).at(path)?.as_member()
    }
}

impl<A> PathReads<A> for Unit<A> {
    ghost whole = { unit_of };

    fn unit(&self) -> &Unit<A> {
        self
    }
}

/// What paths lead to that begin at a member.
pub trait MemberPathReads<A>: Sized {
    ghost whole: { Self → tree.Member A };

    /// The expression to which the path leads from the member; `None` exactly where it leads to no
    /// expression.
    fn expr_at(&self, path: &Path) -> Option<&Expr<A>>
        ensures { option_map (λ x. expr_of x.now) result
            ≡ pure.exp_at (pure.member (whole self.now)) path.now.steps.items };

    /// The statement to which the path leads from the member; `None` exactly where it leads to no
    /// statement.
    fn stmt_at(&self, path: &Path) -> Option<&Stmt<A>>
        ensures { option_map (λ x. stmt_of x.now) result
            ≡ pure.stmt_at (pure.member (whole self.now)) path.now.steps.items };
}

impl<A> MemberPathReads<A> for Member<A> {
    ghost whole = { member_of };

    fn expr_at(&self, path: &Path) -> Option<&Expr<A>> {
        Node::Member(self).at(path)?.as_expr()
    }

    fn stmt_at(&self, path: &Path) -> Option<&Stmt<A>> {
        Node::Member(self).at(path)?.as_stmt()
    }
}

//! Changeable nodes at the end of a path.
ghost use Rattle.std.specs.Prelude.{◌≡◌, ◌≤◌, length, option_map};
ghost use Rattle.std.specs.Borrow.{sem};
ghost use Rattle.jr_ast.specs.MemberTree as tree;
ghost use Rattle.jr_ast.specs.Nodes as pure;
ghost use Rattle.jr_ast.specs.View as view;
ghost use Rattle.jr_paths.specs.PathKinds.{NoMember, NoStmt};
ghost use Rattle.jr_paths.specs.PathLent.{lends_stmt_below_member, lends_expr_below_member};
ghost use Rattle.jr_paths.specs.PathLent.{lends_expr_below_stmt, lends_member_below_unit};
ghost use Rattle.jr_paths.specs.PathLent.{lends_member_at, lends_stmt_at, lends_expr_at};

use crate::turns::turns_of;
use jr_ast::{Expr, Member, MemberKind, Path, Stmt, StmtKind, Unit};
use jr_paths_nodes::{
    ClassLevel, ExprLevel, Far, StmtLevel, class_of_unit, expr_of_member, expr_of_stmt,
    stmt_of_member,
};

/// The expression to which the steps lead from the statement, where they pass no statement.
fn expr_below_stmt<'k, A>(kind: &'k mut StmtKind<A>, steps: &[u32]) -> Option<&'k mut Expr<A>>
    requires { length steps.now ≤ 18446744073709551615 }
    ensures* writes_back { sem 𝓛 (lends_expr_below_stmt A.row kind.entry steps.now result) }
    ensures value { (m : A) → NoStmt (pure.stmt (view.stmt_kind m kind.entry.now)) steps.now
        → option_map (λ x. view.expr_of x.now) result
        ≡ pure.exp_at (pure.stmt (view.stmt_kind m kind.entry.now)) steps.now }
{
    match steps.len() {
        0 => None,
        1 => expr_of_stmt(kind, steps[0] as usize),
        _ => {
            let expr = expr_of_stmt(kind, steps[0] as usize)?;
            <A as ExprLevel<Far>>::below(&mut expr.kind, &steps[1..])
        }
    }
}

/// The expression to which the steps lead from the member, where they pass no member and no
/// statement.
fn expr_below_member<'k, A>(kind: &'k mut MemberKind<A>, steps: &[u32]) -> Option<&'k mut Expr<A>>
    requires { length steps.now ≤ 18446744073709551615 }
    ensures* writes_back { sem 𝓛 (lends_expr_below_member A.row kind.entry steps.now result) }
    ensures value { (m : A) → NoMember (pure.member (view.member_kind m kind.entry.now))
        steps.now → NoStmt (pure.member (view.member_kind m kind.entry.now)) steps.now
        → option_map (λ x. view.expr_of x.now) result
        ≡ pure.exp_at (pure.member (view.member_kind m kind.entry.now)) steps.now }
{
    match steps.len() {
        0 => None,
        1 => expr_of_member(kind, steps[0] as usize),
        _ => {
            let expr = expr_of_member(kind, steps[0] as usize)?;
            <A as ExprLevel<Far>>::below(&mut expr.kind, &steps[1..])
        }
    }
}

/// The statement to which the steps lead from the member, where they pass no member.
fn stmt_below_member<'k, A>(kind: &'k mut MemberKind<A>, steps: &[u32]) -> Option<&'k mut Stmt<A>>
    requires { length steps.now ≤ 18446744073709551615 }
    ensures* writes_back { sem 𝓛 (lends_stmt_below_member A.row kind.entry steps.now result) }
    ensures value { (m : A) → NoMember (pure.member (view.member_kind m kind.entry.now))
        steps.now → option_map (λ x. view.stmt_of x.now) result
        ≡ pure.stmt_at (pure.member (view.member_kind m kind.entry.now)) steps.now }
{
    match steps.len() {
        0 => None,
        1 => stmt_of_member(kind, steps[0] as usize),
        _ => {
            let stmt = stmt_of_member(kind, steps[0] as usize)?;
            <A as StmtLevel<Far>>::below(&mut stmt.kind, &steps[1..])
        }
    }
}

/// The member to which the steps lead.
fn member_below_unit<'k, A>(unit: &'k mut Unit<A>, steps: &[u32]) -> Option<&'k mut Member<A>>
    requires { length steps.now ≤ 18446744073709551615 }
    ensures* writes_back { sem 𝓛 (lends_member_below_unit A.row unit.entry steps.now result) }
    ensures value { option_map (λ x. view.member_of x.now) result
        ≡ pure.member_at (pure.unit (view.unit_of unit.entry.now)) steps.now }
{
    if steps.len() == 0 {
        return None;
    }
    let class = class_of_unit(unit, steps[0] as usize)?;
    <A as ClassLevel<Far>>::below(class, &steps[1..])
}

/// Changeable members at the end of paths.
pub trait MemberPathWrites<A>: Sized {
    /// The tree where the paths begin.
    ghost whole: { Self → tree.Unit A };

    /// The member to which the path leads, to change it; `None` exactly where it leads to no
    /// member.
    fn member_at_mut(&mut self, path: &Path) -> Option<&mut Member<A>>
        ensures* writes_back { sem 𝓛 (lends_member_at Self.row A.row whole self.entry
            path.now.steps.items result) }
        ensures value { option_map (λ x. view.member_of x.now) result
            ≡ pure.member_at (pure.unit (whole self.entry.now)) path.now.steps.items };
}

impl<A> MemberPathWrites<A> for Unit<A> {
    ghost whole = { view.unit_of };

    fn member_at_mut(&mut self, path: &Path) -> Option<&mut Member<A>> {
        member_below_unit(self, path.steps.as_slice())
    }
}

/// Changeable statements at the end of paths.
pub trait StmtPathWrites<A>: Sized {
    /// The tree where the paths begin.
    ghost whole: { Self → tree.Unit A };

    /// The statement to which the path leads, to change it; `None` exactly where it leads to no
    /// statement.
    fn stmt_at_mut(&mut self, path: &Path) -> Option<&mut Stmt<A>>
        ensures* writes_back { sem 𝓛 (lends_stmt_at Self.row A.row whole self.entry
            path.now.steps.items result) }
        ensures value { option_map (λ x. view.stmt_of x.now) result
            ≡ pure.stmt_at (pure.unit (whole self.entry.now)) path.now.steps.items };
}

impl<A> StmtPathWrites<A> for Unit<A> {
    ghost whole = { view.unit_of };

    fn stmt_at_mut(&mut self, path: &Path) -> Option<&mut Stmt<A>> {
        let steps = path.steps.as_slice();
        let turns = turns_of(self, steps);
        let member = member_below_unit(self, &steps[..turns.members])?;
        stmt_below_member(&mut member.kind, &steps[turns.members..])
    }
}

/// Changeable expressions at the end of paths.
pub trait ExprPathWrites<A>: Sized {
    /// The tree where the paths begin.
    ghost whole: { Self → tree.Unit A };

    /// The expression to which the path leads, to change it; `None` exactly where it leads to no
    /// expression.
    fn expr_at_mut(&mut self, path: &Path) -> Option<&mut Expr<A>>
        ensures* writes_back { sem 𝓛 (lends_expr_at Self.row A.row whole self.entry
            path.now.steps.items result) }
        ensures value { option_map (λ x. view.expr_of x.now) result
            ≡ pure.exp_at (pure.unit (whole self.entry.now)) path.now.steps.items };
}

impl<A> ExprPathWrites<A> for Unit<A> {
    ghost whole = { view.unit_of };

    fn expr_at_mut(&mut self, path: &Path) -> Option<&mut Expr<A>> {
        let steps = path.steps.as_slice();
        let turns = turns_of(self, steps);
        let member = member_below_unit(self, &steps[..turns.members])?;
        if turns.stmts <= turns.members {
            return expr_below_member(&mut member.kind, &steps[turns.members..]);
        }
        let stmt = stmt_below_member(&mut member.kind, &steps[turns.members..turns.stmts])?;
        expr_below_stmt(&mut stmt.kind, &steps[turns.stmts..])
    }
}

//! Changeable statements and expressions of statements.
ghost use Rattle.std.specs.Prelude.{◌≡◌, map, option_map, option_and_then};
ghost use Rattle.std.specs.Borrow.{sem};
ghost use Rattle.jr_ast.specs.Nodes as pure;
ghost use Rattle.jr_ast.specs.View as view;
ghost use Rattle.jr_paths_nodes.specs.Reaches.{IsWithin};
ghost use Rattle.jr_paths_nodes.specs.With.{get_from};
ghost use Rattle.jr_paths_nodes.specs.StmtLent.{lends_stmt_among, lends_held_stmt, lends_held_expr};
ghost use Rattle.jr_paths_nodes.specs.StmtLent.{lends_stmt_of_stmt, lends_expr_of_stmt};
ghost use Rattle.jr_paths_nodes.specs.StmtLent.{lends_below_stmt};

use crate::reaches::{One, Twice};
use jr_ast::{Expr, Stmt, StmtKind};

/// The statement of this number, where the first of the row has the number `first`.
pub(crate) fn nth_stmt<A>(
    among: &mut Vec<Stmt<A>>,
    first: usize,
    number: usize,
) -> Option<&mut Stmt<A>>
    ensures* writes_back { sem 𝓛 (lends_stmt_among A.row among.entry first number result) }
    ensures value { option_map (λ x. view.stmt_of x.now) result
        ≡ get_from first (map view.stmt_of among.entry.now.items) number }
{
    if number < first {
        return None;
    }
    among.get_mut(number - first)
}

fn held_stmt<A>(of: &mut Option<Box<Stmt<A>>>) -> Option<&mut Stmt<A>>
    ensures* writes_back { sem 𝓛 (lends_held_stmt A.row of.entry result) }
    ensures value { option_map (λ x. view.stmt_of x.now) result
        ≡ option_map (λ b. view.stmt_of b.value) of.entry.now }
{
    match of {
        Some(of) => Some(&mut **of),
        None => None,
    }
}

pub(crate) fn held_expr<A>(of: &mut Option<Expr<A>>) -> Option<&mut Expr<A>>
    ensures* writes_back { sem 𝓛 (lends_held_expr A.row of.entry result) }
    ensures value { option_map (λ x. view.expr_of x.now) result
        ≡ option_map view.expr_of of.entry.now }
{
    match of {
        Some(of) => Some(of),
        None => None,
    }
}

/// The statement that is the child of this number, if it is one.
pub(crate) fn stmt_of_stmt<A>(kind: &mut StmtKind<A>, number: usize) -> Option<&mut Stmt<A>>
    ensures* writes_back { sem 𝓛 (lends_stmt_of_stmt A.row kind.entry number result) }
    ensures value { (m : A) → option_map (λ x. view.stmt_of x.now) result
        ≡ option_and_then pure.as_stmt
        (pure.child_of (pure.stmt (view.stmt_kind m kind.entry.now)) number) }
{
    match (kind, number) {
        (StmtKind::If(_, yes, _), 1) => Some(&mut **yes),
        (StmtKind::If(_, _, no), 2) => held_stmt(no),
        (StmtKind::While(_, body), 1) => Some(&mut **body),
        (StmtKind::Block(body), _) => nth_stmt(body, 0, number),
        (StmtKind::Sync(_, body), _) => nth_stmt(body, 1, number),
        (StmtKind::If(_, _, _), _) => None,
        (StmtKind::While(_, _), _) => None,
        (StmtKind::Local { .. }, _) => None,
        (StmtKind::Eval(_), _) => None,
        (StmtKind::Return(_), _) => None,
        (StmtKind::Empty, _) => None,
    }
}

/// The expression that is the child of this number, if it is one.
pub fn expr_of_stmt<A>(kind: &mut StmtKind<A>, number: usize) -> Option<&mut Expr<A>>
    ensures* writes_back { sem 𝓛 (lends_expr_of_stmt A.row kind.entry number result) }
    ensures value { (m : A) → option_map (λ x. view.expr_of x.now) result
        ≡ option_and_then pure.as_exp (pure.child_of
        (pure.stmt (view.stmt_kind m kind.entry.now)) number) }
{
    match (kind, number) {
        (StmtKind::Local { init, .. }, 2) => Some(init),
        (StmtKind::Eval(of), 0) => Some(of),
        (StmtKind::If(condition, _, _), 0) => Some(condition),
        (StmtKind::While(condition, _), 0) => Some(condition),
        (StmtKind::Return(value), 0) => held_expr(value),
        (StmtKind::Sync(lock, _), 0) => Some(lock),
        (StmtKind::Local { .. }, _) => None,
        (StmtKind::Eval(_), _) => None,
        (StmtKind::If(_, _, _), _) => None,
        (StmtKind::While(_, _), _) => None,
        (StmtKind::Return(_), _) => None,
        (StmtKind::Sync(_, _), _) => None,
        (StmtKind::Block(_), _) => None,
        (StmtKind::Empty, _) => None,
    }
}

/// A way down from a statement to one below it, in trees with marks of this type.
///
/// The mark is `Self`, so that a call of the way has it where the caller has it: elsewhere the
/// check compares whole types.
pub trait StmtLevel<L>: Sized {
    ghost use Rattle.std.specs.Prelude.{ℕ};

    ghost reach: { ℕ };

    /// What the steps lead to, if they are within reach.
    fn below<'k>(kind: &'k mut StmtKind<Self>, steps: &[u32]) -> Option<&'k mut Stmt<Self>>
        ensures* writes_back { sem 𝓛 (lends_below_stmt Self.row reach kind.entry steps.now result) }
        ensures value { IsWithin reach steps.now → (m : Self)
            → option_map (λ x. view.stmt_of x.now) result
            ≡ pure.stmt_at (pure.stmt (view.stmt_kind m kind.entry.now)) steps.now };
}

impl<A> StmtLevel<One> for A {
    ghost reach = { 1 };

    fn below<'k>(kind: &'k mut StmtKind<A>, steps: &[u32]) -> Option<&'k mut Stmt<A>> {
        if steps.len() != 1 {
            return None;
        }
        stmt_of_stmt(kind, steps[0] as usize)
    }
}

impl<A: StmtLevel<L>, L> StmtLevel<Twice<L>> for A {
    ghost use Rattle.std.specs.Prelude.{◌*◌};

    ghost reach = { 2 * A.reach };

    fn below<'k>(kind: &'k mut StmtKind<A>, steps: &[u32]) -> Option<&'k mut Stmt<A>> {
        let half = steps.len() / 2;
        if half == 0 {
            return <A as StmtLevel<L>>::below(kind, steps);
        }
        let upper = <A as StmtLevel<L>>::below(kind, &steps[..half])?;
        <A as StmtLevel<L>>::below(&mut upper.kind, &steps[half..])
    }
}

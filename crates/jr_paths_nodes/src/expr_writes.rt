//! Changeable expressions of expressions.
ghost use Rattle.std.specs.Prelude.{◌≡◌, map, option_map, option_and_then};
ghost use Rattle.std.specs.Borrow.{sem};
ghost use Rattle.jr_ast.specs.Nodes as pure;
ghost use Rattle.jr_ast.specs.View as view;
ghost use Rattle.jr_paths_nodes.specs.Reaches.{IsWithin};
ghost use Rattle.jr_paths_nodes.specs.With.{arguments_begin, get_from};
ghost use Rattle.jr_paths_nodes.specs.Lent.{lends_expr_among, lends_held, lends_expr_of_expr};
ghost use Rattle.jr_paths_nodes.specs.Lent.{lends_below_expr};

use crate::reaches::{One, Twice};
use jr_ast::{Expr, ExprKind};

/// The expression of this number, where the first of the row has the number `first`.
pub(crate) fn nth_expr<A>(
    among: &mut Vec<Expr<A>>,
    first: usize,
    number: usize,
) -> Option<&mut Expr<A>>
    ensures* writes_back { sem 𝓛 (lends_expr_among A.row among.entry first number result) }
    ensures value { option_map (λ x. view.expr_of x.now) result
        ≡ get_from first (map view.expr_of among.entry.now.items) number }
{
    if number < first {
        return None;
    }
    among.get_mut(number - first)
}

fn operand_mut<A>(of: &mut Option<Box<Expr<A>>>) -> Option<&mut Expr<A>>
    ensures* writes_back { sem 𝓛 (lends_held A.row of.entry result) }
    ensures value { option_map (λ x. view.expr_of x.now) result
        ≡ option_map (λ b. view.expr_of b.value) of.entry.now }
{
    match of {
        Some(of) => Some(&mut **of),
        None => None,
    }
}

/// The number of the first argument.
#[tactic(auto, unfolding(jr_ast::specs::View::expr_kind))]
fn begin_of_arguments<A>(kind: &ExprKind<A>) -> usize
    ensures { (m : A) → result ≡ arguments_begin (view.expr_kind m kind.now) }
{
    match kind {
        ExprKind::Call(None, _, _) => 1,
        ExprKind::Call(Some(_), _, _) => 2,
        ExprKind::Int(_)
        | ExprKind::Bool(_)
        | ExprKind::Null
        | ExprKind::Text(_)
        | ExprKind::Simple(_)
        | ExprKind::Field(_, _)
        | ExprKind::SuperField(_)
        | ExprKind::This
        | ExprKind::ClassLit(_)
        | ExprKind::SuperCall(_, _)
        | ExprKind::New(_, _)
        | ExprKind::Paren(_)
        | ExprKind::Cast(_, _)
        | ExprKind::Unary(_, _)
        | ExprKind::Bump(_, _)
        | ExprKind::Binary(_, _, _)
        | ExprKind::Assign(_, _)
        | ExprKind::Compound(_, _, _) => 1,
    }
}

/// The expression that is the child of this number, if it is one.
pub(crate) fn expr_of_expr<A>(kind: &mut ExprKind<A>, number: usize) -> Option<&mut Expr<A>>
    ensures* writes_back { sem 𝓛 (lends_expr_of_expr A.row kind.entry number result) }
    ensures value { (m : A) → option_map (λ x. view.expr_of x.now) result
        ≡ option_and_then pure.as_exp (pure.child_of
        (pure.exp (view.expr_kind m kind.entry.now)) number) }
{
    let first = begin_of_arguments(kind);
    match (kind, number) {
        (ExprKind::Field(of, _), 0) => Some(&mut **of),
        (ExprKind::Call(target, _, _), 0) => operand_mut(target),
        (ExprKind::Call(_, _, args), _) => nth_expr(args, first, number),
        (ExprKind::SuperCall(_, args), _) => nth_expr(args, 1, number),
        (ExprKind::New(_, args), _) => nth_expr(args, 1, number),
        (ExprKind::Paren(of), 0) => Some(&mut **of),
        (ExprKind::Cast(_, of), 1) => Some(&mut **of),
        (ExprKind::Unary(_, of), 0) => Some(&mut **of),
        (ExprKind::Bump(_, of), 0) => Some(&mut **of),
        (ExprKind::Binary(_, left, _), 0) => Some(&mut **left),
        (ExprKind::Binary(_, _, right), 1) => Some(&mut **right),
        (ExprKind::Assign(to, _), 0) => Some(&mut **to),
        (ExprKind::Assign(_, value), 1) => Some(&mut **value),
        (ExprKind::Compound(_, to, _), 0) => Some(&mut **to),
        (ExprKind::Compound(_, _, value), 1) => Some(&mut **value),
        (ExprKind::Int(_), _) => None,
        (ExprKind::Bool(_), _) => None,
        (ExprKind::Null, _) => None,
        (ExprKind::Text(_), _) => None,
        (ExprKind::Simple(_), _) => None,
        (ExprKind::SuperField(_), _) => None,
        (ExprKind::This, _) => None,
        (ExprKind::ClassLit(_), _) => None,
        (ExprKind::Field(_, _), _) => None,
        (ExprKind::Paren(_), _) => None,
        (ExprKind::Cast(_, _), _) => None,
        (ExprKind::Unary(_, _), _) => None,
        (ExprKind::Bump(_, _), _) => None,
        (ExprKind::Binary(_, _, _), _) => None,
        (ExprKind::Assign(_, _), _) => None,
        (ExprKind::Compound(_, _, _), _) => None,
    }
}

/// A way down from an expression to one below it, in trees with marks of this type.
///
/// The mark is `Self`, so that a call of the way has it where the caller has it: elsewhere the
/// check compares whole types.
pub trait ExprLevel<L>: Sized {
    ghost use Rattle.std.specs.Prelude.{ℕ};

    ghost reach: { ℕ };

    /// What the steps lead to, if they are within reach.
    fn below<'k>(kind: &'k mut ExprKind<Self>, steps: &[u32]) -> Option<&'k mut Expr<Self>>
        ensures* writes_back { sem 𝓛 (lends_below_expr Self.row reach kind.entry steps.now result) }
        ensures value { IsWithin reach steps.now → (m : Self)
            → option_map (λ x. view.expr_of x.now) result
            ≡ pure.exp_at (pure.exp (view.expr_kind m kind.entry.now)) steps.now };
}

impl<A> ExprLevel<One> for A {
    ghost reach = { 1 };

    fn below<'k>(kind: &'k mut ExprKind<A>, steps: &[u32]) -> Option<&'k mut Expr<A>> {
        if steps.len() != 1 {
            return None;
        }
        expr_of_expr(kind, steps[0] as usize)
    }
}

impl<A: ExprLevel<L>, L> ExprLevel<Twice<L>> for A {
    ghost use Rattle.std.specs.Prelude.{◌*◌};

    ghost reach = { 2 * A.reach };

    fn below<'k>(kind: &'k mut ExprKind<A>, steps: &[u32]) -> Option<&'k mut Expr<A>> {
        let half = steps.len() / 2;
        if half == 0 {
            return <A as ExprLevel<L>>::below(kind, steps);
        }
        let upper = <A as ExprLevel<L>>::below(kind, &steps[..half])?;
        <A as ExprLevel<L>>::below(&mut upper.kind, &steps[half..])
    }
}

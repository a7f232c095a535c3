//! The parts of an expression that are expressions.
ghost use Rattle.std.specs.Prelude.{◌≡◌, option_map, slice_get, ⊤};
ghost use Rattle.jr_ast.specs.View.{expr_of, exprs_of};
ghost use Rattle.jr_piece_sites.specs.Parts as pure;
ghost use Rattle.jr_piece_sites.specs.PartsView.{parts_view};

use jr_ast::{Expr, ExprKind};
use std::alloc::AllocError;

/// How the first of two parts is evaluated in front of the second.
#[derive(Clone, Copy, Drop)]
pub(crate) enum Between {
    /// For its value.
    Valued,
    /// As what is assigned: its operand alone (JLS 15.26.1).
    Assigned,
    /// As what is changed: its operand, and then it is read (JLS 15.26.2).
    Changed,
}

/// What an expression is to its parts.
pub(crate) enum Parts<'a, A> {
    Leaf,
    /// A simple name, or one behind `super`.
    Named,
    /// A name behind a dot: what stands in front.
    Dotted(&'a Expr<A>),
    /// One part, of this number.
    One(u32, &'a Expr<A>),
    Two(Between, &'a Expr<A>, &'a Expr<A>),
    /// Arguments, and whether an object is made before them.
    Row(bool, &'a [Expr<A>]),
    /// What a call is made on, and the arguments.
    On(&'a Expr<A>, &'a [Expr<A>]),
}

impl<A> Copy for Parts<'_, A> {}

impl<A> Clone for Parts<'_, A> {
    ghost is_clone = { λ x y. y ≡ x };

    ghost is_infallible = { λ _. ⊤ };

    fn clone(&self) -> Result<Self, AllocError> {
        Ok(*self)
    }
}

/// Which of these an expression is.
#[tactic(auto, unfolding(jr_ast::specs::View::expr_kind))]
pub(crate) fn parts_of<A>(of: &Expr<A>) -> Parts<'_, A>
    ensures { parts_view result ≡ pure.parts_of (expr_of of.now) }
{
    match &of.kind {
        ExprKind::Int(_) => Parts::Leaf,
        ExprKind::Bool(_) => Parts::Leaf,
        ExprKind::Null => Parts::Leaf,
        ExprKind::Text(_) => Parts::Leaf,
        ExprKind::This => Parts::Leaf,
        ExprKind::ClassLit(_) => Parts::Leaf,
        ExprKind::Simple(_) => Parts::Named,
        ExprKind::Field(part, _) => Parts::Dotted(part),
        ExprKind::SuperField(_) => Parts::Named,
        ExprKind::Call(target, _, args) => match target {
            None => Parts::Row(false, args),
            Some(part) => Parts::On(part, args),
        },
        ExprKind::SuperCall(_, args) => Parts::Row(false, args),
        ExprKind::New(_, args) => Parts::Row(true, args),
        ExprKind::Paren(part) => Parts::One(0, part),
        ExprKind::Cast(_, part) => Parts::One(1, part),
        ExprKind::Unary(_, part) => Parts::One(0, part),
        ExprKind::Bump(_, part) => Parts::One(0, part),
        ExprKind::Binary(_, left, right) => Parts::Two(Between::Valued, left, right),
        ExprKind::Assign(to, value) => Parts::Two(Between::Assigned, to, value),
        ExprKind::Compound(_, to, value) => Parts::Two(Between::Changed, to, value),
    }
}

/// The item of this number.
pub(crate) fn nth<T>(all: &[T], number: u32) -> Option<&T>
    ensures { option_map (λ x. x.now) result ≡ slice_get all.now number }
{
    all.get(number as usize)
}

/// The argument that stands behind so many parts.
pub(crate) fn nth_behind<A>(args: &[Expr<A>], front: u32, number: u32) -> Option<&Expr<A>>
    ensures { option_map (λ e. expr_of e.now) result
        ≡ pure.nth_behind (exprs_of args.now) front number }
{
    match number.checked_sub(front) {
        None => None,
        Some(number) => nth(args, number),
    }
}

/// The expression, if it has the number.
pub(crate) fn only<A>(own: u32, of: &Expr<A>, number: u32) -> Option<&Expr<A>>
    ensures { option_map (λ e. expr_of e.now) result ≡ pure.only own (expr_of of.now) number }
{
    if number == own { Some(of) } else { None }
}

fn in_two<'a, A>(first: &'a Expr<A>, second: &'a Expr<A>, number: u32) -> Option<&'a Expr<A>>
    ensures { option_map (λ e. expr_of e.now) result
        ≡ pure.in_two (expr_of first.now) (expr_of second.now) number }
{
    match number {
        0 => Some(first),
        1 => Some(second),
        _ => None,
    }
}

/// What a call is made on, or an argument behind it and the name.
fn in_call<'a, A>(target: &'a Expr<A>, args: &'a [Expr<A>], number: u32) -> Option<&'a Expr<A>>
    ensures { option_map (λ e. expr_of e.now) result
        ≡ pure.in_call (expr_of target.now) (exprs_of args.now) number }
{
    match number.checked_sub(1) {
        None => Some(target),
        Some(number) => nth_behind(args, 1, number),
    }
}

/// The part of this number, if it is an expression.
pub(crate) fn expr_in<'a, A>(parts: Parts<'a, A>, number: u32) -> Option<&'a Expr<A>>
    ensures { option_map (λ e. expr_of e.now) result ≡ pure.exp_in (parts_view parts.entry) number }
{
    match parts {
        Parts::Leaf => None,
        Parts::Named => None,
        Parts::Dotted(part) => only(0, part, number),
        Parts::One(own, part) => only(own, part, number),
        Parts::Two(_, first, second) => in_two(first, second, number),
        Parts::Row(_, args) => nth_behind(args, 1, number),
        Parts::On(target, args) => in_call(target, args, number),
    }
}

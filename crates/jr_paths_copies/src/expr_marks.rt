//! A copy of a tree with other marks: expressions.
ghost use Rattle.std.specs.Prelude.{IfOk, option_map};
ghost use Rattle.std.specs.Fn.{FnReturnsAt};
ghost use Rattle.jr_paths_copies.specs.Same as same;
ghost use Rattle.jr_ast.specs.View.{target_of, expr_of, exprs_of, args_of};

use crate::made::{Made, push_made};
use crate::made_exprs;
use crate::marks::{boxed_ty, mark_by, ty, word};
use jr_ast::{Expr, ExprKind};
use std::alloc::Global;

/// A copy, in a box.
#[cycle(expr_marks)]
pub(crate) fn expr<B: Drop, A, F: Fn(&A) -> B>(
    alloc: Global,
    of: &Expr<A>,
    f: &F,
) -> Made<Box<Expr<B>>>
    requires { F.IsAlwaysCallable f.now }
    ensures { IfOk result (λ x. same.SameExp (FnReturnsAt F.Fn f.now) (expr_of of.now)
        (expr_of x.value)) }
{
    let mark = mark_by(&of.mark, f);
    match &of.kind {
        ExprKind::Int(value) => made_exprs::number(alloc, mark, *value),
        ExprKind::Bool(value) => made_exprs::truth(alloc, mark, *value),
        ExprKind::Null => made_exprs::null(alloc, mark),
        ExprKind::This => made_exprs::this(alloc, mark),
        ExprKind::Text(text) => made_exprs::string(alloc, mark, text),
        ExprKind::Simple(name) => made_exprs::simple(alloc, mark, word(alloc, name, f)),
        ExprKind::SuperField(name) => made_exprs::super_field(alloc, mark, word(alloc, name, f)),
        ExprKind::ClassLit(of_type) => made_exprs::class_literal(
            alloc,
            mark,
            ty(alloc, of_type, f),
        ),
        ExprKind::Field(part, name) => {
            made_exprs::field(alloc, mark, expr(alloc, part, f), word(alloc, name, f))
        }
        ExprKind::Call(target, name, args) => {
            let target = target_expr(alloc, target, f);
            made_exprs::call(
                alloc,
                mark,
                target,
                word(alloc, name, f),
                exprs(alloc, args, f),
            )
        }
        ExprKind::SuperCall(name, args) => {
            made_exprs::super_call(alloc, mark, word(alloc, name, f), exprs(alloc, args, f))
        }
        ExprKind::New(created, args) => {
            made_exprs::create(
                alloc,
                mark,
                boxed_ty(alloc, created, f),
                exprs(alloc, args, f),
            )
        }
        ExprKind::Paren(part) => made_exprs::paren(alloc, mark, expr(alloc, part, f)),
        ExprKind::Cast(to, part) => made_exprs::cast(
            alloc,
            mark,
            boxed_ty(alloc, to, f),
            expr(alloc, part, f),
        ),
        ExprKind::Unary(op, part) => made_exprs::unary(alloc, mark, *op, expr(alloc, part, f)),
        ExprKind::Bump(op, part) => made_exprs::bump(alloc, mark, *op, expr(alloc, part, f)),
        ExprKind::Binary(op, left, right) => {
            made_exprs::binary(
                alloc,
                mark,
                *op,
                expr(alloc, left, f),
                expr(alloc, right, f),
            )
        }
        ExprKind::Assign(to, value) => {
            made_exprs::assign(alloc, mark, expr(alloc, to, f), expr(alloc, value, f))
        }
        ExprKind::Compound(op, to, value) => {
            made_exprs::compound(alloc, mark, *op, expr(alloc, to, f), expr(alloc, value, f))
        }
    }
}

#[cycle(expr_marks)]
fn target_expr<B: Drop, A, F: Fn(&A) -> B>(
    alloc: Global,
    of: &Option<Box<Expr<A>>>,
    f: &F,
) -> Made<Option<Box<Expr<B>>>>
    requires { F.IsAlwaysCallable f.now }
    ensures { IfOk result (λ x. same.SameTarget (FnReturnsAt F.Fn f.now) (target_of of.now)
        (target_of x)) }
{
    match of {
        None => Ok(None),
        Some(of) => {
            let copy = expr(alloc, of, f)?;
            Ok(Some(copy))
        }
    }
}

#[cycle(expr_marks)]
pub(crate) fn exprs<B: Drop, A, F: Fn(&A) -> B>(
    alloc: Global,
    parts: &[Expr<A>],
    f: &F,
) -> Made<Vec<Expr<B>>>
    requires { F.IsAlwaysCallable f.now }
    ensures { IfOk result (λ x. same.SameExps (FnReturnsAt F.Fn f.now) (exprs_of parts.now)
        (exprs_of x.items)) }
{
    let mut copies = Vec::new(alloc);
    for part in parts {
        push_made(&mut copies, expr(alloc, part, f))?;
    }
    Ok(copies)
}

pub(crate) fn maybe_expr<B: Drop, A, F: Fn(&A) -> B>(
    alloc: Global,
    of: &Option<Expr<A>>,
    f: &F,
) -> Made<Option<Box<Expr<B>>>>
    requires { F.IsAlwaysCallable f.now }
    ensures { IfOk result (λ x. same.SameMaybeExp (FnReturnsAt F.Fn f.now)
        (option_map expr_of of.now) (option_map (λ b. expr_of b.value) x)) }
{
    match of {
        None => Ok(None),
        Some(of) => {
            let copy = expr(alloc, of, f)?;
            Ok(Some(copy))
        }
    }
}

pub(crate) fn maybe_args<B: Drop, A, F: Fn(&A) -> B>(
    alloc: Global,
    of: &Option<Vec<Expr<A>>>,
    f: &F,
) -> Made<Option<Vec<Expr<B>>>>
    requires { F.IsAlwaysCallable f.now }
    ensures { IfOk result (λ x. same.SameMaybeExps (FnReturnsAt F.Fn f.now)
        (args_of of.now) (args_of x)) }
{
    match of {
        None => Ok(None),
        Some(of) => {
            let copy = exprs(alloc, of, f)?;
            Ok(Some(copy))
        }
    }
}

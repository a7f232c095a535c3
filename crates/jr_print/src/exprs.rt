//! Expressions as text (JLS 15).
ghost use Rattle.std.specs.Prelude.{◌≡◌, ◌++◌, codes};
ghost use Rattle.jr_ast.specs.View.{expr_of, exprs_of, target_of};
ghost use Rattle.jr_print.specs.Adds.{Adds};
ghost use Rattle.jr_print.specs.ExpressionText.{printed, printed_target, printed_args};
ghost use Rattle.jr_print.specs.ExpressionText.{printed_more};

use crate::operators::{self, before_bumped, behind_bumped};
use crate::parts::{boxed_ty, dot, number, put, string, ty, word};
use crate::starts::before_operand;
use jr_ast::{Expr, ExprKind};
use std::alloc::AllocError;

/// The text of an expression is put behind `out`.
#[cycle(expr_texts)]
#[tactic(auto, unfolding(jr_ast::specs::View::expr_kind))]
pub(crate) fn expr<A>(out: &mut String, of: &Expr<A>) -> Result<(), AllocError>
    ensures { Adds result out.old out.new (printed (expr_of of.now)) }
{
    match &of.kind {
        ExprKind::Int(value) => number(out, *value),
        ExprKind::Bool(value) => put(out, operators::truth(*value)),
        ExprKind::Null => put(out, "null"),
        ExprKind::Text(text) => string(out, text),
        ExprKind::Simple(name) => word(out, name),
        ExprKind::Field(part, name) => {
            expr(out, part)?;
            put(out, dot(part))?;
            word(out, name)
        }
        ExprKind::SuperField(name) => {
            put(out, "super.")?;
            word(out, name)
        }
        ExprKind::This => put(out, "this"),
        ExprKind::ClassLit(of_type) => {
            ty(out, of_type)?;
            put(out, ".class")
        }
        ExprKind::Call(on, name, args) => {
            target(out, on)?;
            word(out, name)?;
            arguments(out, args)
        }
        ExprKind::SuperCall(name, args) => {
            put(out, "super.")?;
            word(out, name)?;
            arguments(out, args)
        }
        ExprKind::New(of_type, args) => {
            put(out, "new ")?;
            boxed_ty(out, of_type)?;
            arguments(out, args)
        }
        ExprKind::Paren(part) => {
            put(out, "(")?;
            expr(out, part)?;
            put(out, ")")
        }
        ExprKind::Cast(to, part) => {
            put(out, "(")?;
            boxed_ty(out, to)?;
            put(out, ") ")?;
            expr(out, part)
        }
        ExprKind::Unary(op, part) => {
            put(out, before_operand(*op, part))?;
            expr(out, part)
        }
        ExprKind::Bump(op, part) => {
            put(out, before_bumped(*op))?;
            expr(out, part)?;
            put(out, behind_bumped(*op))
        }
        ExprKind::Binary(op, left, right) => {
            expr(out, left)?;
            put(out, operators::binary(*op))?;
            expr(out, right)
        }
        ExprKind::Assign(to, value) => {
            expr(out, to)?;
            put(out, " = ")?;
            expr(out, value)
        }
        ExprKind::Compound(op, to, value) => {
            expr(out, to)?;
            put(out, operators::compound(*op))?;
            expr(out, value)
        }
    }
}

#[cycle(expr_texts)]
fn target<A>(out: &mut String, of: &Option<Box<Expr<A>>>) -> Result<(), AllocError>
    ensures { Adds result out.old out.new (printed_target (target_of of.now)) }
{
    match of {
        None => Ok(()),
        Some(of) => {
            expr(out, of)?;
            put(out, dot(of))
        }
    }
}

/// Arguments in their parentheses (JLS 15.12, 15.9, 8.8.7.1).
#[cycle(expr_texts)]
pub(crate) fn arguments<A>(out: &mut String, parts: &[Expr<A>]) -> Result<(), AllocError>
    ensures { Adds result out.old out.new
        (codes "(" ++ printed_args (exprs_of parts.now) ++ codes ")") }
{
    put(out, "(")?;
    list(out, parts)?;
    put(out, ")")
}

/// Expressions with a comma between two.
#[cycle(expr_texts)]
fn list<A>(out: &mut String, parts: &[Expr<A>]) -> Result<(), AllocError>
    ensures { Adds result out.old out.new (printed_args (exprs_of parts.now)) }
{
    match parts.split_first() {
        None => Ok(()),
        Some((first, rest)) => {
            expr(out, first)?;
            more(out, rest)
        }
    }
}

/// Expressions behind others, each with a comma in front of it.
#[cycle(expr_texts)]
fn more<A>(out: &mut String, parts: &[Expr<A>]) -> Result<(), AllocError>
    ensures { Adds result out.old out.new (printed_more (exprs_of parts.now)) }
{
    for part in parts {
        put(out, ", ")?;
        expr(out, part)?;
    }
    Ok(())
}

//! What has been begun is ended: the expression that comes of it.
ghost use Rattle.std.specs.Prelude.{◌≡◌, ◌≤◌, Some, IfOk, option_map, if◌then◌else◌};
ghost use Rattle.jr_ast.specs.Tree as tree;
ghost use Rattle.jr_ast.specs.Marks.{exp_mark};
ghost use Rattle.jr_ast.specs.View.{type_of, expr_of, exprs_of};
ghost use Rattle.jr_pexpr.specs.Marked.{join};
ghost use Rattle.jr_pexpr.specs.Machine as machine;
ghost use Rattle.jr_pexpr.specs.PieceView.{way_view};
ghost use Rattle.jr_pexpr.specs.FrameView.{operand_view, head_view};
ghost use Rattle.jr_pexpr.specs.StackView.{stack};
ghost use Rattle.jr_pexpr.specs.ExpView.{filled, exp_in, plugged, standing};
ghost use Rattle.jr_pexpr.specs.Answers.{IsFilled, IsMade};

use crate::frames::{Head, Operand};
use crate::kinds::is_target;
use crate::made::{Made, in_box, type_in_box};
use crate::pieces::Way;
use crate::stack::Stack;
use jr_ast::{BinOp, BumpOp, Expr, TypeRef, UnOp};
use jr_text::Span;
use std::alloc::Global;

/// What stands in an operand's place, or nothing where it doesn't fit there.
pub(crate) type Filled = Made<Option<Box<Expr<Span>>>>;

/// The expression in a box.
fn fill(alloc: Global, expr: Expr<Span>) -> Filled
    ensures { IsFilled result (Some (expr_of expr)) }
{
    Ok(Some(in_box(alloc, expr)?))
}

#[tactic(auto, using(crate::proofs::OwnMarks::mark_is))]
fn unary(alloc: Global, at: Span, op: UnOp, operand: Box<Expr<Span>>) -> Filled
    ensures { IsFilled result (plugged (machine.in_unary at op) (exp_in operand)) }
{
    let mark = Span {
        from: at.from,
        to: operand.mark.to,
    };
    fill(alloc, Expr::unary(mark, op, operand))
}

/// `++` or `--` in front of what follows it.
fn bump_op(way: Way) -> BumpOp
    ensures { result ≡ machine.in_front (way_view way) }
{
    match way {
        Way::Up => BumpOp::PreInc,
        Way::Down => BumpOp::PreDec,
    }
}

#[tactic(auto, using(crate::proofs::OwnMarks::mark_is))]
fn bump(alloc: Global, at: Span, way: Way, operand: Box<Expr<Span>>) -> Filled
    ensures { IsFilled result (plugged (machine.in_bump at (way_view way)) (exp_in operand)) }
{
    if !is_target(&operand) {
        return Ok(None);
    }
    let mark = Span {
        from: at.from,
        to: operand.mark.to,
    };
    fill(alloc, Expr::bump(mark, bump_op(way), operand))
}

#[tactic(auto, using(crate::proofs::OwnMarks::mark_is))]
fn binary(alloc: Global, op: BinOp, left: Box<Expr<Span>>, right: Box<Expr<Span>>) -> Filled
    ensures { IsFilled result (plugged (machine.in_binary op (exp_in left)) (exp_in right)) }
{
    let mark = Span {
        from: left.mark.from,
        to: right.mark.to,
    };
    fill(alloc, Expr::binary(mark, op, left, right))
}

#[tactic(auto, using(crate::proofs::OwnMarks::mark_is))]
fn assign(alloc: Global, to: Box<Expr<Span>>, value: Box<Expr<Span>>) -> Filled
    ensures { IsFilled result (plugged (machine.in_assign (exp_in to)) (exp_in value)) }
{
    let mark = Span {
        from: to.mark.from,
        to: value.mark.to,
    };
    fill(alloc, Expr::assign(mark, to, value))
}

#[tactic(auto, using(crate::proofs::OwnMarks::mark_is))]
fn compound(alloc: Global, op: BinOp, to: Box<Expr<Span>>, value: Box<Expr<Span>>) -> Filled
    ensures { IsFilled result (plugged (machine.in_compound op (exp_in to)) (exp_in value)) }
{
    let mark = Span {
        from: to.mark.from,
        to: value.mark.to,
    };
    fill(alloc, Expr::compound(mark, op, to, value))
}

#[tactic(auto, using(crate::proofs::OwnMarks::mark_is))]
fn cast(alloc: Global, at: Span, ty: Box<TypeRef<Span>>, operand: Box<Expr<Span>>) -> Filled
    ensures { IsFilled result (plugged (machine.in_cast at (type_of ty.value)) (exp_in operand)) }
{
    let mark = Span {
        from: at.from,
        to: operand.mark.to,
    };
    fill(alloc, Expr::cast(mark, ty, operand))
}

/// A cast to this type.
fn cast_to(alloc: Global, at: Span, ty: TypeRef<Span>, operand: Box<Expr<Span>>) -> Filled
    ensures { IsFilled result (plugged (machine.in_cast at (type_of ty)) (exp_in operand)) }
{
    match type_in_box(alloc, ty) {
        Ok(ty) => cast(alloc, at, ty, operand),
        Err(error) => {
            drop(operand);
            Err(error)
        }
    }
}

/// The operand with `e` in its place, where it fits.
fn plug(alloc: Global, operand: Operand, e: Box<Expr<Span>>) -> Filled
    ensures { IsFilled result (plugged (operand_view operand) (exp_in e)) }
{
    match operand {
        Operand::Unary(at, op) => unary(alloc, at, op, e),
        Operand::Bump(at, way) => bump(alloc, at, way, e),
        Operand::Binary(op, left) => binary(alloc, op, left, e),
        Operand::Assign(to) => assign(alloc, to, e),
        Operand::Compound(op, to) => compound(alloc, op, to, e),
        Operand::Cast(at, ty) => cast_to(alloc, at, ty, e),
    }
}

/// Ends what binds at least so tightly; `None` where what stands in it doesn't fit.
pub(crate) fn reduce(
    alloc: Global,
    mut on: Stack,
    mut e: Box<Expr<Span>>,
    level: u32,
) -> Made<Option<(Stack, Box<Expr<Span>>)>>
    requires { 1 ≤ level }
    ensures { IfOk result (λ made. option_map standing made
        ≡ machine.reduced join level (stack on) (exp_in e)) }
{
    while let Some(operand) = on.pop_operand(level) {
        match plug(alloc, operand, e)? {
            Some(made) => e = made,
            None => return Ok(None),
        }
    }
    Ok(Some((on, e)))
}

/// A creation of this class.
fn create(
    alloc: Global,
    mark: Span,
    ty: TypeRef<Span>,
    args: Vec<Expr<Span>>,
) -> Made<Box<Expr<Span>>>
    ensures { IsMade result (tree.create mark (type_of ty) (exprs_of args.items)) }
{
    match type_in_box(alloc, ty) {
        Ok(ty) => in_box(alloc, Expr::create(mark, ty, args)),
        Err(error) => {
            drop(args);
            Err(error)
        }
    }
}

/// The call, or `new`, with its arguments; `at` is its closing parenthesis.
pub(crate) fn apply(
    alloc: Global,
    head: Head,
    args: Vec<Expr<Span>>,
    at: Span,
) -> Made<Box<Expr<Span>>>
    ensures { IsMade result (machine.applied join at (head_view head) (exprs_of args.items)) }
{
    match head {
        Head::Call(start, target, name) => {
            let mark = Span {
                from: start.from,
                to: at.to,
            };
            match target {
                None => in_box(alloc, Expr::call(mark, name, args)),
                Some(target) => in_box(alloc, Expr::call_on(mark, target, name, args)),
            }
        }
        Head::SuperCall(start, name) => {
            let mark = Span {
                from: start.from,
                to: at.to,
            };
            in_box(alloc, Expr::super_call(mark, name, args))
        }
        Head::Create(start, ty) => {
            let mark = Span {
                from: start.from,
                to: at.to,
            };
            create(alloc, mark, ty, args)
        }
    }
}

//! A token behind an expression.
ghost use Rattle.std.specs.Prelude.{◌≡◌, ◌∷◌, IfOk, option_map, nat_lt, if◌then◌else◌};
ghost use Rattle.jr_ast.specs.Tree as tree;
ghost use Rattle.jr_ast.specs.Marks.{exp_mark};
ghost use Rattle.jr_ast.specs.View.{exprs_of};
ghost use Rattle.jr_pexpr.specs.Marked.{join};
ghost use Rattle.jr_grammar.specs.Shape.{rank_of, level_of};
ghost use Rattle.jr_pexpr.specs.Machine as machine;
ghost use Rattle.jr_pexpr.specs.PieceView.{way_view, piece_view};
ghost use Rattle.jr_pexpr.specs.FrameView.{operand_view, head_view};
ghost use Rattle.jr_pexpr.specs.StackView.{stack};
ghost use Rattle.jr_pexpr.specs.StateView.{state_view};
ghost use Rattle.jr_pexpr.specs.ExpView.{exp_in};
ghost use Rattle.jr_pexpr.specs.Answers.{IsMade, IsNext};

use crate::begin::{at_most, begin};
use crate::frames::{Bracket, Frame, Head, Operand};
use crate::kinds::{cast_of, is_low, is_target};
use crate::made::{Made, in_box};
use crate::pieces::{Piece, Way};
use crate::ranks::{ASSIGNMENT_LEVEL, UNSIGNED_LEVEL, rank};
use crate::reduce::{apply, reduce};
use crate::stack::Stack;
use crate::state::{Mode, Stepped, have, to, want};
use jr_ast::{BinOp, BumpOp, Expr, ExprKind};
use jr_text::Span;
use std::alloc::Global;

fn dot(on: Stack, e: Box<Expr<Span>>) -> Stepped
    ensures { IsNext result (if nat_lt (level_of (exp_in e)) 10 then None else Some
        (machine.dotted (stack on) (exp_in e))) }
{
    if is_low(&e) {
        return Ok(None);
    }
    to(on, Mode::Dotted(e))
}

/// A binary operator.
fn operator(alloc: Global, on: Stack, e: Box<Expr<Span>>, op: BinOp) -> Stepped
    ensures { IsNext result (machine.operated op (machine.reduced join (rank_of op) (stack on)
        (exp_in e))) }
{
    match reduce(alloc, on, e, rank(op))? {
        Some((on, left)) => want(on, Frame::Operand(Operand::Binary(op, left))),
        None => Ok(None),
    }
}

/// The arguments with one more.
fn with_last(mut args: Vec<Expr<Span>>, e: Box<Expr<Span>>) -> Made<Vec<Expr<Span>>>
    ensures { IfOk result (λ made. exprs_of made.items
        ≡ machine.with_last (exprs_of args.items) (exp_in e)) }
{
    args.push(Box::into_inner(e))?;
    Ok(args)
}

fn paren(alloc: Global, start: Span, e: Box<Expr<Span>>, at: Span) -> Made<Box<Expr<Span>>>
    ensures { IsMade result (tree.paren (join start at) (exp_in e)) }
{
    let mark = Span {
        from: start.from,
        to: at.to,
    };
    in_box(alloc, Expr::paren(mark, e))
}

/// The call, or `new`, with a last argument.
fn call(
    alloc: Global,
    head: Head,
    args: Vec<Expr<Span>>,
    e: Box<Expr<Span>>,
    at: Span,
) -> Made<Box<Expr<Span>>>
    ensures { IsMade result (machine.applied join at (head_view head)
        (machine.with_last (exprs_of args.items) (exp_in e))) }
{
    let args = with_last(args, e)?;
    apply(alloc, head, args, at)
}

/// What waits for a closing parenthesis, at this one.
fn close_bracket(alloc: Global, mut on: Stack, e: Box<Expr<Span>>, at: Span) -> Stepped
    ensures { IsNext result (machine.closed join at (Some (machine.have (stack on) (exp_in e)))) }
{
    match on.pop_bracket() {
        Some(Bracket::Paren(start)) => have(on, paren(alloc, start, e, at)),
        Some(Bracket::Args(head, args)) => have(on, call(alloc, head, args, e, at)),
        None => Ok(None),
    }
}

/// A closing parenthesis.
fn close_paren(alloc: Global, on: Stack, e: Box<Expr<Span>>, at: Span) -> Stepped
    ensures { IsNext result (machine.closed join at (machine.reduced join 1 (stack on)
        (exp_in e))) }
{
    match reduce(alloc, on, e, ASSIGNMENT_LEVEL)? {
        Some((on, e)) => close_bracket(alloc, on, e, at),
        None => Ok(None),
    }
}

fn next_argument(mut on: Stack, e: Box<Expr<Span>>) -> Stepped
    ensures { IsNext result (machine.continued (Some (machine.have (stack on) (exp_in e)))) }
{
    match on.pop_bracket() {
        Some(Bracket::Args(head, args)) => match with_last(args, e) {
            Ok(all) => want(on, Frame::Bracket(Bracket::Args(head, all))),
            Err(error) => {
                drop(head);
                Err(error)
            }
        },
        Some(Bracket::Paren(_)) => Ok(None),
        None => Ok(None),
    }
}

/// A comma.
fn comma(alloc: Global, on: Stack, e: Box<Expr<Span>>) -> Stepped
    ensures { IsNext result (machine.continued (machine.reduced join 1 (stack on) (exp_in e))) }
{
    match reduce(alloc, on, e, ASSIGNMENT_LEVEL)? {
        Some((on, e)) => next_argument(on, e),
        None => Ok(None),
    }
}

/// Behind a name in parentheses, which were a cast.
fn cast(alloc: Global, mut on: Stack, frame: Option<Operand>, at: Span, piece: Piece<'_>) -> Stepped
    ensures { IsNext result (machine.casted join (option_map operand_view frame) (stack on) at
        (piece_view piece.entry)) }
{
    let Some(frame) = frame else {
        return Ok(None);
    };
    if UNSIGNED_LEVEL < on.least_level() {
        drop(frame);
        return Ok(None);
    }
    on.push(Frame::Operand(frame))?;
    begin(alloc, on, at, piece)
}

fn behind_name(alloc: Global, on: Stack, e: Box<Expr<Span>>, at: Span, piece: Piece<'_>) -> Stepped
    ensures { IsNext result (machine.casted join (machine.cast_of (exp_in e)) (stack on) at
        (piece_view piece.entry)) }
{
    cast(alloc, on, cast_of(e), at, piece)
}

/// The arguments of a call are to come.
fn args(alloc: Global, on: Stack, head: Head) -> Stepped
    ensures { IsNext result (Some (machine.want
        (machine.in_args (head_view head) tree.end ∷ stack on))) }
{
    want(on, Frame::Bracket(Bracket::Args(head, Vec::new(alloc))))
}

/// An opening parenthesis: behind a name or a field a call, behind a name in parentheses what is
/// cast.
#[tactic(auto, unfolding(jr_ast::specs::View::expr_kind))]
fn open_paren(alloc: Global, on: Stack, e: Box<Expr<Span>>, at: Span) -> Stepped
    ensures { IsNext result (machine.opened join (stack on) (exp_in e) at) }
{
    if !is_target(&e) {
        return behind_name(alloc, on, e, at, Piece::Open);
    }
    let Expr { mark, kind } = Box::into_inner(e);
    match kind {
        ExprKind::Simple(name) => args(alloc, on, Head::Call(mark, None, name)),
        ExprKind::Field(of, name) => args(alloc, on, Head::Call(mark, Some(of), name)),
        ExprKind::SuperField(name) => args(alloc, on, Head::SuperCall(mark, name)),
        other => {
            drop(other);
            Ok(None)
        }
    }
}

/// `=`.
fn assign_to(on: Stack, e: Box<Expr<Span>>) -> Stepped
    ensures { IsNext result (machine.assigned (stack on) (exp_in e) (machine.in_assign
        (exp_in e))) }
{
    if !is_target(&e) {
        return Ok(None);
    }
    at_most(ASSIGNMENT_LEVEL, on, Frame::Operand(Operand::Assign(e)))
}

/// Whether the operator has a compound assignment (JLS 15.26.2).
fn is_compound(op: BinOp) -> bool
    ensures { result ≡ machine.is_compound op }
{
    matches!(
        op,
        BinOp::Add | BinOp::Sub | BinOp::Mul | BinOp::Div | BinOp::Rem
    )
}

/// An operator with `=` behind it.
fn compound(on: Stack, e: Box<Expr<Span>>, op: BinOp) -> Stepped
    ensures { IsNext result (if machine.is_compound op then machine.assigned (stack on)
        (exp_in e) (machine.in_compound op (exp_in e)) else None) }
{
    if !is_compound(op) | !is_target(&e) {
        return Ok(None);
    }
    at_most(
        ASSIGNMENT_LEVEL,
        on,
        Frame::Operand(Operand::Compound(op, e)),
    )
}

fn bump_op(way: Way) -> BumpOp
    ensures { result ≡ machine.behind (way_view way) }
{
    match way {
        Way::Up => BumpOp::PostInc,
        Way::Down => BumpOp::PostDec,
    }
}

#[tactic(auto, using(crate::proofs::OwnMarks::mark_is))]
fn bump(alloc: Global, e: Box<Expr<Span>>, at: Span, way: Way) -> Made<Box<Expr<Span>>>
    ensures { IsMade result (tree.bump (join (exp_mark (exp_in e)) at)
        (machine.behind (way_view way)) (exp_in e)) }
{
    let mark = Span {
        from: e.mark.from,
        to: at.to,
    };
    in_box(alloc, Expr::bump(mark, bump_op(way), e))
}

/// `++` or `--`.
fn bump_behind(alloc: Global, on: Stack, e: Box<Expr<Span>>, at: Span, way: Way) -> Stepped
    ensures { IsNext result (machine.bumped join (stack on) (exp_in e) at (way_view way)) }
{
    if !is_target(&e) | (UNSIGNED_LEVEL < on.least_level()) {
        return Ok(None);
    }
    have(on, bump(alloc, e, at, way))
}

/// A token behind an expression.
#[tactic(auto, unfolding(crate::specs::Machine::extended))]
pub(crate) fn extend(
    alloc: Global,
    on: Stack,
    e: Box<Expr<Span>>,
    at: Span,
    piece: Piece<'_>,
) -> Stepped
    ensures { IsNext result (machine.extended join (stack on) (exp_in e) at
        (piece_view piece.entry)) }
{
    match piece {
        Piece::Dot => dot(on, e),
        Piece::Bump(way) => bump_behind(alloc, on, e, at, way),
        Piece::Operator(op) => operator(alloc, on, e, op),
        Piece::Equals => assign_to(on, e),
        Piece::Compound(op) => compound(on, e, op),
        Piece::Close => close_paren(alloc, on, e, at),
        Piece::Comma => comma(alloc, on, e),
        Piece::Open => open_paren(alloc, on, e, at),
        Piece::Word(_) => behind_name(alloc, on, e, at, piece),
        Piece::Atom(_) => behind_name(alloc, on, e, at, piece),
        Piece::Super => behind_name(alloc, on, e, at, piece),
        Piece::New => behind_name(alloc, on, e, at, piece),
        Piece::Bang => behind_name(alloc, on, e, at, piece),
        Piece::Class => Ok(None),
        Piece::OtherKeyword(_) => Ok(None),
        Piece::OtherSymbol(_) => Ok(None),
    }
}

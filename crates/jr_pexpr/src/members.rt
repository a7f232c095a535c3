//! A token behind a dot, behind `super` and behind `new`.
ghost use Rattle.std.specs.Prelude.{◌≡◌, ◌∷◌, IfOk, option_map};
ghost use Rattle.jr_ast.specs.Tree as tree;
ghost use Rattle.jr_ast.specs.Marks.{exp_mark};
ghost use Rattle.jr_ast.specs.View.{word_of, type_of};
ghost use Rattle.jr_pexpr.specs.Marked.{join};
ghost use Rattle.jr_pexpr.specs.Pieces as pure;
ghost use Rattle.jr_pexpr.specs.Machine as machine;
ghost use Rattle.jr_pexpr.specs.PieceView.{piece_view};
ghost use Rattle.jr_pexpr.specs.StackView.{stack};
ghost use Rattle.jr_pexpr.specs.StateView.{state_view};
ghost use Rattle.jr_pexpr.specs.ExpView.{exp_in};
ghost use Rattle.jr_pexpr.specs.Answers.{IsMade, IsNext};

use crate::begin::word;
use crate::frames::{Bracket, Frame, Head};
use crate::kinds::name_type;
use crate::made::{Made, in_box};
use crate::pieces::Piece;
use crate::stack::Stack;
use crate::state::{Mode, Stepped, have, to, want};
use jr_ast::{Expr, Ident, TypeKind, TypeRef};
use jr_text::Span;
use std::alloc::Global;

#[tactic(auto, using(crate::proofs::OwnMarks::mark_is))]
fn field(alloc: Global, e: Box<Expr<Span>>, at: Span, text: &str) -> Made<Box<Expr<Span>>>
    ensures { IsMade result (tree.field (join (exp_mark (exp_in e)) at) (exp_in e)
        (machine.marked at text.now)) }
{
    let mark = Span {
        from: e.mark.from,
        to: at.to,
    };
    let name = word(alloc, at, text)?;
    in_box(alloc, Expr::field(mark, e, name))
}

/// `.class`.
#[tactic(auto, using(crate::proofs::OwnMarks::mark_is))]
fn class_literal(alloc: Global, on: Stack, e: Box<Expr<Span>>, at: Span) -> Stepped
    ensures { IsNext result (machine.literal_of (stack on) (join (exp_mark (exp_in e)) at)
        (machine.name_type (exp_in e))) }
{
    let mark = Span {
        from: e.mark.from,
        to: at.to,
    };
    match name_type(e) {
        Some(ty) => have(on, in_box(alloc, Expr::class_literal(mark, ty))),
        None => Ok(None),
    }
}

/// A token behind a dot.
pub(crate) fn member(
    alloc: Global,
    on: Stack,
    e: Box<Expr<Span>>,
    at: Span,
    piece: Piece<'_>,
) -> Stepped
    ensures { IsNext result (machine.member join (stack on) (exp_in e) at
        (piece_view piece.entry)) }
{
    match piece {
        Piece::Word(text) => have(on, field(alloc, e, at, text)),
        Piece::Class => class_literal(alloc, on, e, at),
        _ => Ok(None),
    }
}

/// A token behind `super`.
pub(crate) fn behind_super(on: Stack, start: Span, piece: Piece<'_>) -> Stepped
    ensures { IsNext result (machine.behind_super (stack on) start (piece_view piece.entry)) }
{
    match piece {
        Piece::Dot => to(on, Mode::SuperDotted(start)),
        _ => Ok(None),
    }
}

fn super_field(alloc: Global, start: Span, at: Span, text: &str) -> Made<Box<Expr<Span>>>
    ensures { IsMade result (tree.super_field (join start at) (machine.marked at text.now)) }
{
    let mark = Span {
        from: start.from,
        to: at.to,
    };
    let name = word(alloc, at, text)?;
    in_box(alloc, Expr::super_field(mark, name))
}

/// A token behind `super` and a dot.
pub(crate) fn super_member(
    alloc: Global,
    on: Stack,
    start: Span,
    at: Span,
    piece: Piece<'_>,
) -> Stepped
    ensures { IsNext result (machine.super_member join (stack on) start at
        (piece_view piece.entry)) }
{
    match piece {
        Piece::Word(text) => have(on, super_field(alloc, start, at, text)),
        _ => Ok(None),
    }
}

fn class_name(alloc: Global, on: Stack, start: Span, at: Span, text: &str) -> Stepped
    ensures { IsNext result (machine.behind_new (stack on) start at (pure.a_word text.now)) }
{
    let name = word(alloc, at, text)?;
    let ty = TypeRef {
        mark: at,
        kind: TypeKind::Named(None, name),
    };
    to(on, Mode::NewNamed(start, ty))
}

/// A token behind `new`.
pub(crate) fn behind_new(
    alloc: Global,
    on: Stack,
    start: Span,
    at: Span,
    piece: Piece<'_>,
) -> Stepped
    ensures { IsNext result (machine.behind_new (stack on) start at (piece_view piece.entry)) }
{
    match piece {
        Piece::Word(text) => class_name(alloc, on, start, at, text),
        _ => Ok(None),
    }
}

/// A dot behind a class's name.
fn outer(on: Stack, start: Span, ty: TypeRef<Span>) -> Stepped
    ensures { IsNext result (machine.new_outer (stack on) start (type_of ty)) }
{
    match ty.kind {
        TypeKind::Named(None, name) => to(on, Mode::NewDotted(start, name)),
        TypeKind::Named(Some(_), _) => Ok(None),
        TypeKind::Int => Ok(None),
        TypeKind::Boolean => Ok(None),
    }
}

/// A token behind `new` and a class's name.
pub(crate) fn behind_new_name(
    alloc: Global,
    on: Stack,
    start: Span,
    ty: TypeRef<Span>,
    piece: Piece<'_>,
) -> Stepped
    ensures { IsNext result (machine.behind_new_name (stack on) start (type_of ty)
        (piece_view piece.entry)) }
{
    match piece {
        Piece::Dot => outer(on, start, ty),
        Piece::Open => want(
            on,
            Frame::Bracket(Bracket::Args(Head::Create(start, ty), Vec::new(alloc))),
        ),
        _ => Ok(None),
    }
}

fn inner(alloc: Global, on: Stack, start: Span, outer: Ident<Span>, at: Span, text: &str) -> Stepped
    ensures { IsNext result (machine.new_inner join
        (stack on) start (word_of outer) at (pure.a_word text.now)) }
{
    let mark = Span {
        from: outer.mark.from,
        to: at.to,
    };
    let name = word(alloc, at, text)?;
    let ty = TypeRef {
        mark,
        kind: TypeKind::Named(Some(outer), name),
    };
    to(on, Mode::NewNamed(start, ty))
}

/// A token behind `new`, a class's name and a dot.
pub(crate) fn new_inner(
    alloc: Global,
    on: Stack,
    start: Span,
    outer: Ident<Span>,
    at: Span,
    piece: Piece<'_>,
) -> Stepped
    ensures { IsNext result (machine.new_inner join (stack on) start (word_of outer) at
        (piece_view piece.entry)) }
{
    match piece {
        Piece::Word(text) => inner(alloc, on, start, outer, at, text),
        _ => Ok(None),
    }
}

//! A token where an expression is to come.
ghost use Rattle.std.specs.Prelude.{◌≡◌, ◌∷◌, IfOk, option_map};
ghost use Rattle.jr_ast.specs.View.{word_of};
ghost use Rattle.jr_ast.specs.Tree as tree;
ghost use Rattle.jr_grammar.specs.Shape.{sign_level};
ghost use Rattle.jr_pexpr.specs.Marked.{join};
ghost use Rattle.jr_pexpr.specs.Machine as machine;
ghost use Rattle.jr_pexpr.specs.PieceView.{way_view, atom_view, piece_view};
ghost use Rattle.jr_pexpr.specs.FrameView.{frame_view};
ghost use Rattle.jr_pexpr.specs.StackView.{stack};
ghost use Rattle.jr_pexpr.specs.StateView.{state_view};
ghost use Rattle.jr_pexpr.specs.ExpView.{exp_in};
ghost use Rattle.jr_pexpr.specs.Answers.{IsMade, IsNext};

use crate::frames::{Bracket, Frame, Operand};
use crate::made::{Made, in_box};
use crate::pieces::{Atom, Piece, Way};
use crate::ranks::{SIGN_LEVEL, UNSIGNED_LEVEL};
use crate::reduce::apply;
use crate::stack::Stack;
use crate::state::{Mode, Stepped, have, to, want};
use jr_ast::{BinOp, Expr, Ident, Name, UnOp};
use jr_text::Span;
use std::alloc::Global;

const GREATEST_INT: u32 = 2_147_483_647;

/// The greatest literal, which stands only behind a unary minus, is one more than the greatest
/// `int` (JLS 3.10.1).
const GREATEST_LITERAL: u32 = 2_147_483_648;

/// A word at a place.
pub(crate) fn word(alloc: Global, at: Span, text: &str) -> Made<Ident<Span>>
    ensures { IfOk result (λ name. word_of name ≡ machine.marked at text.now) }
{
    let name = Name::new(alloc, text)?;
    Ok(Ident { mark: at, name })
}

fn simple(alloc: Global, at: Span, text: &str) -> Made<Box<Expr<Span>>>
    ensures { IsMade result (tree.name at (machine.marked at text.now)) }
{
    let name = word(alloc, at, text)?;
    in_box(alloc, Expr::simple(at, name))
}

fn string(alloc: Global, at: Span, text: &str) -> Made<Box<Expr<Span>>>
    ensures { IsMade result (tree.string at text.now) }
{
    let text = Name::new(alloc, text)?;
    in_box(alloc, Expr::string(at, text))
}

fn atom_exp(alloc: Global, at: Span, atom: Atom<'_>) -> Made<Box<Expr<Span>>>
    ensures { IsMade result (machine.atom_exp at (atom_view atom.entry)) }
{
    match atom {
        Atom::Number(value) => in_box(alloc, Expr::number(at, value)),
        Atom::Truth(value) => in_box(alloc, Expr::truth(at, value)),
        Atom::Null => in_box(alloc, Expr::null(at)),
        Atom::Text(text) => string(alloc, at, text),
        Atom::This => in_box(alloc, Expr::this(at)),
    }
}

/// Whether the literal is in range, directly behind a minus or not.
fn atom_fits(minus: bool, atom: Atom<'_>) -> bool
    ensures { result ≡ machine.atom_fits minus (atom_view atom.entry) }
{
    match atom {
        Atom::Number(value) => {
            let greatest = if minus {
                GREATEST_LITERAL
            } else {
                GREATEST_INT
            };
            value <= greatest
        }
        Atom::Truth(_) => true,
        Atom::Null => true,
        Atom::Text(_) => true,
        Atom::This => true,
    }
}

#[tactic(auto, unfolding(crate::specs::Machine::begun))]
fn atom(alloc: Global, on: Stack, at: Span, atom: Atom<'_>) -> Stepped
    ensures { IsNext result (machine.begun join (stack on) at
        (piece_view (Piece.Atom atom.entry))) }
{
    if !atom_fits(on.is_behind_minus(), atom) {
        return Ok(None);
    }
    have(on, atom_exp(alloc, at, atom))
}

/// The frame, where what is to come may have so low a level.
pub(crate) fn at_most(level: u32, on: Stack, frame: Frame) -> Stepped
    ensures { IsNext result (machine.at_most level (stack on)
        (machine.want (frame_view frame ∷ stack on))) }
{
    if level < on.least_level() {
        drop(frame);
        return Ok(None);
    }
    want(on, frame)
}

fn unary(on: Stack, at: Span, op: UnOp, level: u32) -> Stepped
    ensures { IsNext result (machine.at_most level (stack on) (machine.want
        (machine.in_unary at op ∷ stack on))) }
{
    at_most(level, on, Frame::Operand(Operand::Unary(at, op)))
}

fn sign(on: Stack, at: Span, op: BinOp) -> Stepped
    ensures { IsNext result (machine.signed (stack on) at op) }
{
    match op {
        BinOp::Add => unary(on, at, UnOp::Plus, SIGN_LEVEL),
        BinOp::Sub => unary(on, at, UnOp::Minus, SIGN_LEVEL),
        _ => Ok(None),
    }
}

fn bump(on: Stack, at: Span, way: Way) -> Stepped
    ensures { IsNext result (machine.at_most sign_level (stack on) (machine.want
        (machine.in_bump at (way_view way) ∷ stack on))) }
{
    at_most(SIGN_LEVEL, on, Frame::Operand(Operand::Bump(at, way)))
}

fn paren(on: Stack, at: Span) -> Stepped
    ensures { IsNext result (Some (machine.want (machine.in_paren at ∷ stack on))) }
{
    want(on, Frame::Bracket(Bracket::Paren(at)))
}

/// A call, or `new`, with no arguments.
fn empty_args(alloc: Global, mut on: Stack, at: Span) -> Stepped
    ensures { IsNext result (machine.emptied join at (stack on)) }
{
    match on.pop_bracket() {
        Some(Bracket::Args(head, args)) => {
            if !args.is_empty() {
                drop(head);
                return Ok(None);
            }
            have(on, apply(alloc, head, args, at))
        }
        Some(Bracket::Paren(_)) => Ok(None),
        None => Ok(None),
    }
}

/// A token that begins an expression, or ends an empty list of arguments.
#[tactic(auto, unfolding(crate::specs::Machine::begun))]
pub(crate) fn begin(alloc: Global, on: Stack, at: Span, piece: Piece<'_>) -> Stepped
    ensures { IsNext result (machine.begun join (stack on) at (piece_view piece.entry)) }
{
    match piece {
        Piece::Word(text) => have(on, simple(alloc, at, text)),
        Piece::Atom(of) => atom(alloc, on, at, of),
        Piece::Super => to(on, Mode::AtSuper(at)),
        Piece::New => to(on, Mode::AtNew(at)),
        Piece::Open => paren(on, at),
        Piece::Close => empty_args(alloc, on, at),
        Piece::Bang => unary(on, at, UnOp::Not, UNSIGNED_LEVEL),
        Piece::Bump(way) => bump(on, at, way),
        Piece::Operator(op) => sign(on, at, op),
        _ => Ok(None),
    }
}

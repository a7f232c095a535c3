//! A token in an expression that is a part of a statement, and in front of one.
ghost use Rattle.std.specs.Prelude.{◌≡◌, ◌&&◌, ◌∷◌, [], Some, option_and_then};
ghost use Rattle.std.specs.Option.{is_some};
ghost use Rattle.jr_ast.specs.StatementTree as tree;
ghost use Rattle.jr_ast.specs.View.{type_of, word_of};
ghost use Rattle.jr_pexpr.specs.ExpView.{exp_in};
ghost use Rattle.jr_pexpr.specs.Machine as expressions;
ghost use Rattle.jr_pexpr.specs.Marked.{join};
ghost use Rattle.jr_pexpr.specs.StateView.{state_view};
ghost use Rattle.jr_pexpr.specs.TokenView.{token_view};
ghost use Rattle.jr_pstmt.specs.Cues as pure;
ghost use Rattle.jr_pstmt.specs.CueView.{cue_view};
ghost use Rattle.jr_pstmt.specs.FrameView.{head_view, slot_view};
ghost use Rattle.jr_pstmt.specs.ListView.{IsNextList};
ghost use Rattle.jr_pstmt.specs.PlaceView.{on, all};
ghost use Rattle.jr_pstmt.specs.Slots.{closes, closer};
ghost use Rattle.jr_pstmt.specs.StatementMachine as machine;

use crate::cues::{Cue, cue_of};
use crate::ends::onto;
use crate::frames::{Block, Branch, Frame, Head, Slot};
use crate::lists::{Listed, Mode, in_expr, ready, to, with_statement};
use crate::places::Place;
use crate::statements::{local, return_nothing, return_value};
use jr_ast::{Expr, Ident, TypeRef};
use jr_pexpr::{State, Token};
use jr_text::Span;
use std::alloc::Global;

/// A token behind `if`, `while` or `synchronized`.
pub(crate) fn open_head(
    alloc: Global,
    place: Place,
    start: Span,
    head: Head,
    cue: Cue<'_>,
) -> Listed
    ensures { IsNextList result (pure.at_open (cue_view cue.entry)
        (machine.in_exp (on place) (all place)
        (machine.for_head start (head_view head)) (expressions.want []))) }
{
    match cue {
        Cue::Open => to(
            place,
            Mode::InExpr(Slot::Head(start, head), State::new(alloc)),
        ),
        _ => Ok(None),
    }
}

/// A token behind the word of a local.
pub(crate) fn begin_init(
    alloc: Global,
    place: Place,
    start: Span,
    is_final: bool,
    ty: TypeRef<Span>,
    name: Ident<Span>,
    cue: Cue<'_>,
) -> Listed
    ensures { IsNextList result (pure.at_equals (cue_view cue.entry)
        (machine.in_exp (on place) (all place)
        (machine.for_local start is_final (type_of ty) (word_of name)) (expressions.want []))) }
{
    match cue {
        Cue::Equals => to(
            place,
            Mode::InExpr(Slot::Local(start, is_final, ty, name), State::new(alloc)),
        ),
        _ => {
            drop(ty);
            Ok(None)
        }
    }
}

fn open_sync(alloc: Global, place: Place, start: Span, lock: Box<Expr<Span>>) -> Listed
    ensures { IsNextList result (Some (machine.ready
        (machine.in_sync start (exp_in lock) tree.end ∷ on place) (all place))) }
{
    ready(onto(
        place,
        Frame::Block(Block::Sync(start, lock, Vec::new(alloc))),
    ))
}

/// A token behind the lock of `synchronized`.
pub(crate) fn behind_lock(
    alloc: Global,
    place: Place,
    start: Span,
    lock: Box<Expr<Span>>,
    cue: Cue<'_>,
) -> Listed
    ensures { IsNextList result (pure.at_open_brace (cue_view cue.entry) (machine.ready
        (machine.in_sync start (exp_in lock) tree.end ∷ on place) (all place))) }
{
    match cue {
        Cue::OpenBrace => open_sync(alloc, place, start, lock),
        _ => Ok(None),
    }
}

/// A value that is returned begins.
fn begin_value(alloc: Global, place: Place, start: Span, at: Span, token: Token<'_>) -> Listed
    ensures { IsNextList result (machine.begin_value join (on place) (all place) start at
        (token_view token.entry)) }
{
    in_expr(
        place,
        Slot::Return(start),
        State::new(alloc).step(alloc, at, token),
    )
}

/// A token behind `return`.
pub(crate) fn behind_return(
    alloc: Global,
    place: Place,
    start: Span,
    at: Span,
    token: Token<'_>,
    cue: Cue<'_>,
) -> Listed
    ensures { IsNextList result (machine.from_returning join (on place) (all place) start at
        (token_view token.entry) (cue_view cue.entry)) }
{
    match cue {
        Cue::Semicolon => with_statement(place, return_nothing(alloc, start, at)),
        _ => begin_value(alloc, place, start, at, token),
    }
}

/// Behind the closing parenthesis of what the head has.
fn behind_head(place: Place, start: Span, head: Head, e: Box<Expr<Span>>) -> Listed
    ensures { IsNextList result (Some (machine.behind_head (on place) (all place) start
        (head_view head) (exp_in e))) }
{
    match head {
        Head::If => ready(onto(place, Frame::Branch(Branch::Then(start, e)))),
        Head::While => ready(onto(place, Frame::Branch(Branch::Loop(start, e)))),
        Head::Sync => to(place, Mode::Locked(start, e)),
    }
}

/// The expression is whole, and behind it at `at` stands the token that ends it there.
fn fill(alloc: Global, place: Place, slot: Slot, at: Span, e: Box<Expr<Span>>) -> Listed
    ensures { IsNextList result (machine.filled join (on place) (all place) (slot_view slot) at
        (closer (slot_view slot)) (exp_in e)) }
{
    match slot {
        Slot::Local(start, is_final, ty, name) => {
            with_statement(place, local(alloc, start, at, is_final, ty, name, e))
        }
        Slot::Return(start) => with_statement(place, return_value(alloc, start, at, e)),
        Slot::Head(start, head) => behind_head(place, start, head, e),
    }
}

fn finish_in(alloc: Global, place: Place, slot: Slot, state: State, at: Span) -> Listed
    ensures { IsNextList result (option_and_then
        (machine.filled join (on place) (all place) (slot_view slot) at
        (closer (slot_view slot))) (expressions.whole join (state_view state))) }
{
    match state.finish(alloc) {
        Ok(Some(e)) => fill(alloc, place, slot, at, e),
        Ok(None) => {
            drop(slot);
            Ok(None)
        }
        Err(error) => {
            drop(slot);
            Err(error)
        }
    }
}

/// Whether the token ends the expression there.
fn closes(slot: &Slot, cue: Cue<'_>) -> bool
    ensures { result ≡ closes (slot_view slot.now) (cue_view cue.entry) }
{
    match slot {
        Slot::Local(_, _, _, _) => matches!(cue, Cue::Semicolon),
        Slot::Return(_) => matches!(cue, Cue::Semicolon),
        Slot::Head(_, _) => matches!(cue, Cue::Close),
    }
}

/// Whether the token ends the expression there, which is whole.
pub(crate) fn ends_value(slot: &Slot, state: &State, token: Token<'_>) -> bool
    ensures { result ≡ (closes (slot_view slot.now) (pure.cue_of (token_view token.entry))
        && is_some (expressions.whole join (state_view state.now))) }
{
    closes(slot, cue_of(token)) & state.is_whole()
}

/// A token in the expression, or behind it.
pub(crate) fn step_value(
    alloc: Global,
    place: Place,
    slot: Slot,
    state: State,
    at: Span,
    token: Token<'_>,
) -> Listed
    ensures { IsNextList result (machine.from_exp join (on place) (all place) (slot_view slot)
        (state_view state) at (token_view token.entry)
        (pure.cue_of (token_view token.entry))) }
{
    if ends_value(&slot, &state, token) {
        finish_in(alloc, place, slot, state, at)
    } else {
        in_expr(place, slot, state.step(alloc, at, token))
    }
}

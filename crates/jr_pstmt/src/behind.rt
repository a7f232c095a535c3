//! A token behind a statement (JLS 14.5, 14.9).
ghost use Rattle.std.specs.Prelude.{◌≡◌, ◌∷◌, Some};
ghost use Rattle.jr_pexpr.specs.ExpView.{exp_in};
ghost use Rattle.jr_pexpr.specs.Marked.{join};
ghost use Rattle.jr_pexpr.specs.TokenView.{token_view};
ghost use Rattle.jr_pstmt.specs.CueView.{cue_view};
ghost use Rattle.jr_pstmt.specs.ListView.{IsNextList};
ghost use Rattle.jr_pstmt.specs.PlaceView.{on, all};
ghost use Rattle.jr_pstmt.specs.StatementMachine as machine;
ghost use Rattle.jr_pstmt.specs.StatementView.{stmt_in};

use crate::begin::begin;
use crate::cues::Cue;
use crate::ends::{end, onto};
use crate::frames::{Branch, Frame};
use crate::lists::{Listed, ready};
use crate::places::Place;
use crate::statements::{if_else, while_loop};
use jr_ast::{Expr, Stmt};
use jr_pexpr::Token;
use jr_text::Span;
use std::alloc::Global;

/// The statement behind `else` is to come.
fn want_else(
    place: Place,
    start: Span,
    condition: Box<Expr<Span>>,
    first: Box<Stmt<Span>>,
) -> Listed
    ensures { IsNextList result (Some (machine.ready
        (machine.in_else start (exp_in condition) (stmt_in first) ∷ on place) (all place))) }
{
    ready(onto(place, Frame::Branch(Branch::Else(start, condition, first))))
}

/// An `else`, which goes to the nearest `if` that has none.
fn take_by_if(alloc: Global, mut place: Place, mut stmt: Box<Stmt<Span>>) -> Listed
    ensures { IsNextList result
        (machine.taken_by_if join (on place) (all place) (stmt_in stmt)) }
{
    while let Some(frame) = place.pop() {
        match frame {
            Frame::Block(block) => {
                drop(block);
                return Ok(None);
            }
            Frame::Branch(branch) => match branch {
                Branch::Then(start, condition) => {
                    return want_else(place, start, condition, stmt);
                }
                Branch::Else(start, condition, first) => {
                    stmt = if_else(alloc, start, condition, first, stmt)?;
                }
                Branch::Loop(start, condition) => {
                    stmt = while_loop(alloc, start, condition, stmt)?;
                }
            },
        }
    }
    Ok(None)
}

/// A token that isn't `else`.
fn begin_next(
    alloc: Global,
    place: Place,
    stmt: Box<Stmt<Span>>,
    at: Span,
    token: Token<'_>,
    cue: Cue<'_>,
) -> Listed
    ensures { IsNextList result (machine.from_place join
        (machine.ended join (on place) (all place) (stmt_in stmt)) at
        (token_view token.entry) (cue_view cue.entry)) }
{
    let place = end(alloc, place, stmt)?;
    begin(alloc, place, at, token, cue)
}

/// A token behind a statement.
pub(crate) fn behind_stmt(
    alloc: Global,
    place: Place,
    stmt: Box<Stmt<Span>>,
    at: Span,
    token: Token<'_>,
    cue: Cue<'_>,
) -> Listed
    ensures { IsNextList result (machine.from_done join (on place) (all place) (stmt_in stmt) at
        (token_view token.entry) (cue_view cue.entry)) }
{
    match cue {
        Cue::Else => take_by_if(alloc, place, stmt),
        _ => begin_next(alloc, place, stmt, at, token, cue),
    }
}

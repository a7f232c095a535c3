//! How far a list of statements has been read (JLS 14.2).
ghost use Rattle.std.specs.Prelude.{◌≡◌, Some, IfOk, option_map};
ghost use Rattle.std.specs.Result.{IsOkAnd};
ghost use Rattle.jr_pexpr.specs.StateView.{state_view};
ghost use Rattle.jr_pstmt.specs.FrameView.{slot_view};
ghost use Rattle.jr_pstmt.specs.ListView.{list_state, mode_view, IsNextList};
ghost use Rattle.jr_pstmt.specs.OwnMachine.{super_read};
ghost use Rattle.jr_pstmt.specs.PlaceView.{on, all, place_view};
ghost use Rattle.jr_pstmt.specs.StatementMachine as machine;
ghost use Rattle.jr_pstmt.specs.StatementView.{stmt_in};

use crate::frames::{Head, Slot};
use crate::made::Made;
use crate::places::Place;
use crate::type_state::TypeState;
use jr_ast::{Expr, Ident, Stmt, TypeRef};
use jr_pexpr::State;
use jr_text::Span;
use std::alloc::Global;

/// What may come next.
#[derive(Drop)]
pub(crate) enum Mode {
    /// A statement may come, or the end of the innermost list.
    Ready,
    /// Behind a statement.
    Done(Box<Stmt<Span>>),
    /// Behind `if`, `while` or `synchronized`.
    Headed(Span, Head),
    /// Behind `return`.
    Returning(Span),
    /// In an expression.
    InExpr(Slot, State),
    /// In a statement expression, or in what may still become the type of a local.
    InEval(State),
    /// Behind the lock of `synchronized`.
    Locked(Span, Box<Expr<Span>>),
    /// In the type of a local, which is `final` or not.
    InType(Span, bool, TypeState),
    /// Behind the word of a local.
    Named(Span, bool, TypeRef<Span>, Ident<Span>),
}

/// How far a list of statements has been read.
#[derive(Drop)]
pub struct ListState {
    pub(crate) place: Place,
    pub(crate) mode: Mode,
}

/// The state behind a token; `None` where the token can't stand there.
pub(crate) type Listed = Made<Option<ListState>>;

pub(crate) fn to(place: Place, mode: Mode) -> Listed
    ensures { IsNextList result (Some (mode_view (place_view place) mode)) }
{
    Ok(Some(ListState { place, mode }))
}

/// A statement may come.
pub(crate) fn ready(made: Made<Place>) -> Listed
    ensures { IfOk result (λ next. IsOkAnd made (λ p.
        option_map list_state next ≡ Some (machine.ready (on p) (all p)))) }
{
    to(made?, Mode::Ready)
}

/// The statement that was made stands there.
pub(crate) fn with_statement(place: Place, made: Made<Box<Stmt<Span>>>) -> Listed
    ensures { IfOk result (λ next. IsOkAnd made (λ s.
        option_map list_state next ≡ Some (machine.done (on place) (all place) (stmt_in s)))) }
{
    to(place, Mode::Done(made?))
}

/// In the expression, if it goes on.
pub(crate) fn in_expr(place: Place, slot: Slot, next: Made<Option<State>>) -> Listed
    ensures { IfOk result (λ to. IsOkAnd next (λ s. option_map list_state to
        ≡ option_map (machine.in_exp (on place) (all place) (slot_view slot))
        (option_map state_view s))) }
{
    match next {
        Ok(Some(state)) => to(place, Mode::InExpr(slot, state)),
        Ok(None) => {
            drop(slot);
            Ok(None)
        }
        Err(error) => {
            drop(slot);
            Err(error)
        }
    }
}

impl ListState {
    /// Nothing has been read.
    pub fn new(alloc: Global) -> ListState
        ensures { list_state result ≡ machine.start }
    {
        ListState {
            place: Place::new(alloc),
            mode: Mode::Ready,
        }
    }

    /// Behind `super` as the first token, which is at `at`.
    pub fn behind_super(alloc: Global, at: Span) -> ListState
        ensures { list_state result ≡ super_read at }
    {
        ListState {
            place: Place::new(alloc),
            mode: Mode::InEval(State::behind_super(alloc, at)),
        }
    }
}

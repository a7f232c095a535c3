//! One step of reading a list of statements, and what is whole.
ghost use Rattle.std.specs.Prelude.{◌≡◌, IfOk, option_map};
ghost use Rattle.std.specs.Option.{is_some};
ghost use Rattle.jr_pexpr.specs.Machine as expressions;
ghost use Rattle.jr_pexpr.specs.Marked.{join};
ghost use Rattle.jr_pexpr.specs.StateView.{state_view};
ghost use Rattle.jr_pexpr.specs.TokenView.{token_view};
ghost use Rattle.jr_pstmt.specs.CueTests.{ends_eval};
ghost use Rattle.jr_pstmt.specs.CueView.{cue_view};
ghost use Rattle.jr_pstmt.specs.Cues as pure;
ghost use Rattle.jr_pstmt.specs.InPlace.{GoesTo};
ghost use Rattle.jr_pstmt.specs.ListView.{list_state, IsNextList};
ghost use Rattle.jr_pstmt.specs.PlaceView.{on, all};
ghost use Rattle.jr_pstmt.specs.StatementMachine as machine;
ghost use Rattle.jr_pstmt.specs.StatementView.{stmt_in, stmts_in};

use crate::begin::begin;
use crate::behind::behind_stmt;
use crate::cues::{Cue, cue_of};
use crate::ends::end;
use crate::lists::{ListState, Mode};
use crate::locals::{step_eval, step_type};
use crate::made::Made;
use crate::places::Place;
use crate::values::{begin_init, behind_lock, behind_return, ends_value, open_head, step_value};
use jr_ast::Stmt;
use jr_pexpr::{State, Token};
use jr_text::Span;
use std::alloc::Global;
use std::mem;

/// The list behind its last statement.
fn finish_behind(
    alloc: Global,
    place: Place,
    stmt: Box<Stmt<Span>>,
) -> Made<Option<Vec<Stmt<Span>>>>
    ensures { IfOk result (λ made. option_map stmts_in made
        ≡ machine.whole_at (machine.ended join (on place) (all place) (stmt_in stmt))) }
{
    let place = end(alloc, place, stmt)?;
    Ok(place.into_stmts())
}

/// The expression goes on.
fn value_on(alloc: Global, state: &mut State, at: Span, token: Token<'_>) -> Made<bool>
    ensures { GoesTo result (state_view state.new)
        (expressions.step join (state_view state.old) at (token_view token.entry)) }
{
    match mem::replace(state, State::new(alloc)).step(alloc, at, token)? {
        Some(next) => {
            drop(mem::replace(state, next));
            Ok(true)
        }
        None => Ok(false),
    }
}

/// The statement expression goes on.
fn eval_on(alloc: Global, state: &mut State, at: Span, token: Token<'_>) -> Made<bool>
    ensures { GoesTo result (state_view state.new)
        (expressions.statement_step join (state_view state.old) at (token_view token.entry)) }
{
    match mem::replace(state, State::new(alloc)).statement_step(alloc, at, token)? {
        Some(next) => {
            drop(mem::replace(state, next));
            Ok(true)
        }
        None => Ok(false),
    }
}

/// Whether a statement expression, or the type of a local, may end with the token.
fn ends_eval(token: Token<'_>) -> bool
    ensures { result ≡ ends_eval (pure.cue_of (token_view token.entry)) }
{
    match cue_of(token) {
        Cue::Semicolon => true,
        Cue::Word(_) => true,
        _ => false,
    }
}

impl ListState {
    /// The state behind a token at `at`; `None` exactly where no list goes on with it.
    fn behind(self, alloc: Global, at: Span, token: Token<'_>) -> Made<Option<ListState>>
        ensures { IsNextList result
            (machine.step join (list_state self) at (token_view token.entry)) }
    {
        let ListState { place, mode } = self;
        let cue = cue_of(token);
        match mode {
            Mode::Ready => begin(alloc, place, at, token, cue),
            Mode::Done(stmt) => behind_stmt(alloc, place, stmt, at, token, cue),
            Mode::Headed(start, head) => open_head(alloc, place, start, head, cue),
            Mode::Returning(start) => behind_return(alloc, place, start, at, token, cue),
            Mode::InExpr(slot, state) => step_value(alloc, place, slot, state, at, token),
            Mode::InEval(state) => step_eval(alloc, place, state, at, token),
            Mode::Locked(start, lock) => behind_lock(alloc, place, start, lock, cue),
            Mode::InType(start, is_final, ty) => {
                step_type(alloc, place, start, is_final, ty, at, cue)
            }
            Mode::Named(start, is_final, ty, name) => {
                begin_init(alloc, place, start, is_final, ty, name, cue)
            }
        }
    }

    /// Goes on as `behind` does, with a state that is moved out and in.
    fn replace(&mut self, alloc: Global, at: Span, token: Token<'_>) -> Made<bool>
        ensures { GoesTo result (list_state self.new)
            (machine.step join (list_state self.old) at (token_view token.entry)) }
    {
        let list = mem::replace(self, ListState::new(alloc));
        match list.behind(alloc, at, token)? {
            Some(next) => {
                drop(mem::replace(self, next));
                Ok(true)
            }
            None => Ok(false),
        }
    }

    /// Goes on with a token at `at`; `false` exactly where no list goes on with it. Most tokens
    /// stand in expressions, where nothing is moved but what has been read of the expression.
    pub fn step(&mut self, alloc: Global, at: Span, token: Token<'_>) -> Made<bool>
        ensures { GoesTo result (list_state self.new)
            (machine.step join (list_state self.old) at (token_view token.entry)) }
    {
        match &mut self.mode {
            Mode::InExpr(slot, state) => {
                if ends_value(slot, state, token) {
                    self.replace(alloc, at, token)
                } else {
                    value_on(alloc, state, at, token)
                }
            }
            Mode::InEval(state) => {
                if ends_eval(token) {
                    self.replace(alloc, at, token)
                } else {
                    eval_on(alloc, state, at, token)
                }
            }
            _ => self.replace(alloc, at, token),
        }
    }

    /// Whether what has been read is a list of statements.
    pub fn is_whole(&self) -> bool
        ensures { result ≡ is_some (machine.whole join (list_state self.now)) }
    {
        match &self.mode {
            Mode::Ready => self.place.is_empty(),
            Mode::Done(_) => self.place.has_no_list(),
            _ => false,
        }
    }

    /// The statements that have been read; `None` where the list isn't whole.
    pub fn finish(self, alloc: Global) -> Made<Option<Vec<Stmt<Span>>>>
        ensures { IfOk result (λ made. option_map stmts_in made
            ≡ machine.whole join (list_state self)) }
    {
        let ListState { place, mode } = self;
        match mode {
            Mode::Ready => Ok(place.into_stmts()),
            Mode::Done(stmt) => finish_behind(alloc, place, stmt),
            other => {
                drop(other);
                Ok(None)
            }
        }
    }
}

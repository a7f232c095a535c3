//! One step of reading an expression, and what is whole.
ghost use Rattle.std.specs.Prelude.{◌≡◌, [], IfOk, option_map, Some};
ghost use Rattle.std.specs.Option.{is_some};
ghost use Rattle.jr_pexpr.specs.TokenView.{token_view};
ghost use Rattle.jr_pexpr.specs.PieceView.{piece_view};
ghost use Rattle.jr_pexpr.specs.Machine as machine;
ghost use Rattle.jr_pexpr.specs.Marked.{join, span_step, span_whole, span_statement_step};
ghost use Rattle.jr_pexpr.specs.Marked.{span_statement_whole};
ghost use Rattle.jr_pexpr.specs.StackView.{stack};
ghost use Rattle.jr_pexpr.specs.Stacks.{is_start};
ghost use Rattle.jr_pexpr.specs.StateView.{state_view};
ghost use Rattle.jr_pexpr.specs.ExpView.{exp_in, filled, placed};
ghost use Rattle.jr_pexpr.specs.Answers.{IsFilled, IsNext};

use crate::begin::begin;
use crate::extend::extend;
use crate::kinds::{is_statement, is_target};
use crate::members::{behind_new, behind_new_name, behind_super, member, new_inner, super_member};
use crate::pieces::{Piece, piece_of};
use crate::ranks::ASSIGNMENT_LEVEL;
use crate::reduce::{Filled, reduce};
use crate::stack::Stack;
use crate::state::{Mode, State, Stepped};
use crate::tokens::Token;
use jr_ast::Expr;
use jr_text::Span;
use std::alloc::{AllocError, Global};

fn step_piece(alloc: Global, state: State, at: Span, piece: Piece<'_>) -> Stepped
    ensures { IsNext result (machine.stepped join (state_view state) at (piece_view piece.entry)) }
{
    let State { on, mode } = state;
    match mode {
        Mode::Want => begin(alloc, on, at, piece),
        Mode::Have(e) => extend(alloc, on, e, at, piece),
        Mode::Dotted(e) => member(alloc, on, e, at, piece),
        Mode::AtSuper(start) => behind_super(on, start, piece),
        Mode::SuperDotted(start) => super_member(alloc, on, start, at, piece),
        Mode::AtNew(start) => behind_new(alloc, on, start, at, piece),
        Mode::NewNamed(start, ty) => behind_new_name(alloc, on, start, ty, piece),
        Mode::NewDotted(start, outer) => new_inner(alloc, on, start, outer, at, piece),
    }
}

/// The expression that comes of all that has been begun; `None` where a bracket is open.
fn finish_on(alloc: Global, on: Stack, e: Box<Expr<Span>>) -> Filled
    ensures { IsFilled result (machine.whole_of (machine.reduced join 1 (stack on) (exp_in e))) }
{
    match reduce(alloc, on, e, ASSIGNMENT_LEVEL)? {
        Some((on, e)) => { if on.is_empty() { Ok(Some(e)) } else { Ok(None) } }
        None => Ok(None),
    }
}

/// The state where a statement expression can still come of it.
fn keep_open(next: State) -> Option<State>
    ensures { option_map state_view result ≡ machine.kept_open (Some (state_view next)) }
{
    if next.on.is_open() {
        Some(next)
    } else {
        drop(next);
        None
    }
}

impl State {
    /// Nothing has been read: an expression is to come.
    pub fn new(alloc: Global) -> State
        ensures { state_view result ≡ machine.want [] }
    {
        State {
            on: Stack::new(alloc),
            mode: Mode::Want,
        }
    }

    /// The state behind a token at `at`; `None` exactly where no expression goes on with it.
    pub fn step(
        self,
        alloc: Global,
        at: Span,
        token: Token<'_>,
    ) -> Result<Option<State>, AllocError>
        ensures { IsNext result (span_step (state_view self) (placed at (token_view token.entry))) }
    {
        step_piece(alloc, self, at, piece_of(token))
    }

    /// The state behind a token at `at`; `None` exactly where no statement expression goes on with
    /// it (JLS 14.8).
    pub fn statement_step(
        self,
        alloc: Global,
        at: Span,
        token: Token<'_>,
    ) -> Result<Option<State>, AllocError>
        ensures { IsNext result (span_statement_step (state_view self)
            (placed at (token_view token.entry))) }
    {
        match self.step(alloc, at, token)? {
            Some(next) => Ok(keep_open(next)),
            None => Ok(None),
        }
    }

    /// Whether nothing has been read.
    pub fn is_start(&self) -> bool
        ensures { result ≡ is_start (state_view self.now) }
    {
        match &self.mode {
            Mode::Want => self.on.is_empty(),
            _ => false,
        }
    }

    /// Whether what has been read is an expression.
    pub fn is_whole(&self) -> bool
        ensures { result ≡ is_some (span_whole (state_view self.now)) }
    {
        match &self.mode {
            Mode::Have(e) => self.on.ends(is_target(e)),
            _ => false,
        }
    }

    /// Whether what has been read is a statement expression (JLS 14.8).
    pub fn is_statement(&self) -> bool
        ensures { result ≡ is_some (span_statement_whole (state_view self.now)) }
    {
        match &self.mode {
            Mode::Have(e) => self.on.ends(is_target(e)) && self.on.is_form(is_statement(e)),
            _ => false,
        }
    }

    /// The expression that has been read; `None` where it isn't whole.
    pub fn finish(self, alloc: Global) -> Result<Option<Box<Expr<Span>>>, AllocError>
        ensures { IsFilled result (span_whole (state_view self)) }
    {
        let State { on, mode } = self;
        match mode {
            Mode::Have(e) => finish_on(alloc, on, e),
            other => {
                drop(other);
                Ok(None)
            }
        }
    }
}

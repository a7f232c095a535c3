//! `super(..)` first in the body of a constructor (JLS 8.8.7.1).
ghost use Rattle.std.specs.Prelude.{◌≡◌, IfOk, Some, option_map, option_and_then};
ghost use Rattle.jr_ast.specs.View.{exprs_of};
ghost use Rattle.jr_pexpr.specs.Marked.{join};
ghost use Rattle.jr_pexpr.specs.TokenView.{token_view};
ghost use Rattle.jr_pstmt.specs.CueView.{cue_view};
ghost use Rattle.jr_pstmt.specs.Cues as pure;
ghost use Rattle.jr_punit_members.specs.ArgView.{arg_state};
ghost use Rattle.jr_punit_members.specs.HeadView.{constructor_view, body_view};
ghost use Rattle.jr_pstmt.specs.ArgumentMachine as arguments;
ghost use Rattle.jr_pstmt.specs.StatementMachine as statements;
ghost use Rattle.jr_pstmt.specs.OwnMachine as machine;
ghost use Rattle.jr_punit_members.specs.OwnView.{own_state, IsNextOwn};

use crate::args::ArgState;
use crate::bodies::{from_body, in_body, in_box};
use crate::heads::{Body, Constructor};
use crate::own::{OwnState, OwnStepped};
use jr_ast::Expr;
use jr_pexpr::Token;
use jr_pstmt::{Cue, ListState, Made, is_close, is_open, is_super};
use jr_text::Span;
use std::alloc::Global;

/// The body of a constructor without a written `super(..)`.
fn without_super(alloc: Global, of: Box<Constructor>) -> Made<Box<Body>>
    ensures { IfOk result (λ made. body_view made.value
        ≡ machine.without_super (constructor_view of.value)) }
{
    Ok(Box::new(alloc, Body::Constructor(of, None))?)
}

/// The first token of the body.
fn first_in_body(alloc: Global, of: Box<Constructor>, at: Span, token: Token<'_>) -> OwnStepped
    ensures { IsNextOwn result (machine.from_body join
        (machine.without_super (constructor_view of.value)) statements.start at
        (token_view token.entry) (pure.cue_of (token_view token.entry))) }
{
    let body = without_super(alloc, of)?;
    let items = in_box(alloc, ListState::new(alloc))?;
    from_body(alloc, body, items, at, token)
}

/// The first token of a constructor's body, or its closing brace.
pub fn from_constructor(
    alloc: Global,
    of: Box<Constructor>,
    at: Span,
    token: Token<'_>,
) -> OwnStepped
    ensures { IsNextOwn result (machine.from_constructor join (constructor_view of.value) at
        (token_view token.entry) (pure.cue_of (token_view token.entry))) }
{
    if is_super(token) {
        return Ok(Some(OwnState::AtSuper(of, at)));
    }
    first_in_body(alloc, of, at, token)
}

/// A token behind `super`, which is the first of a statement.
fn second_in_body(
    alloc: Global,
    of: Box<Constructor>,
    start: Span,
    at: Span,
    token: Token<'_>,
) -> OwnStepped
    ensures { IsNextOwn result (machine.from_body join
        (machine.without_super (constructor_view of.value)) (machine.super_read start) at
        (token_view token.entry) (pure.cue_of (token_view token.entry))) }
{
    let body = without_super(alloc, of)?;
    let items = in_box(alloc, ListState::behind_super(alloc, start))?;
    from_body(alloc, body, items, at, token)
}

/// A token behind `super`, which is the first token of a constructor's body.
pub fn from_super(
    alloc: Global,
    of: Box<Constructor>,
    start: Span,
    at: Span,
    token: Token<'_>,
) -> OwnStepped
    ensures { IsNextOwn result (machine.from_super join (constructor_view of.value) start at
        (token_view token.entry) (pure.cue_of (token_view token.entry))) }
{
    if is_open(token) {
        return Ok(Some(OwnState::InSuper(of, ArgState::new(alloc))));
    }
    second_in_body(alloc, of, start, at, token)
}

/// A closing parenthesis behind what may be whole arguments.
fn end_arguments(alloc: Global, of: Box<Constructor>, args: ArgState) -> OwnStepped
    ensures { IsNextOwn result (option_and_then
        (machine.arguments_closed (constructor_view of.value) pure.a_close)
        (arguments.whole join (arg_state args))) }
{
    match args.finish(alloc)? {
        Some(args) => Ok(Some(OwnState::BehindSuper(of, args))),
        None => Ok(None),
    }
}

/// The arguments go on.
fn arguments_go_on(
    alloc: Global,
    of: Box<Constructor>,
    args: ArgState,
    at: Span,
    token: Token<'_>,
) -> OwnStepped
    ensures { IsNextOwn result (option_map (machine.in_super (constructor_view of.value))
        (arguments.step join (arg_state args) at (token_view token.entry))) }
{
    match args.step(alloc, at, token)? {
        Some(args) => Ok(Some(OwnState::InSuper(of, args))),
        None => Ok(None),
    }
}

/// A token in the arguments of `super(..)`, or its closing parenthesis.
pub fn from_arguments(
    alloc: Global,
    of: Box<Constructor>,
    args: ArgState,
    at: Span,
    token: Token<'_>,
) -> OwnStepped
    ensures { IsNextOwn result (machine.from_arguments join (constructor_view of.value)
        (arg_state args) at (token_view token.entry) (pure.cue_of (token_view token.entry))) }
{
    let ends = is_close(token) & args.is_whole();
    if ends {
        return end_arguments(alloc, of, args);
    }
    arguments_go_on(alloc, of, args, at, token)
}

/// A token behind `super(..)`.
pub fn behind_super(
    alloc: Global,
    of: Box<Constructor>,
    args: Vec<Expr<Span>>,
    cue: Cue<'_>,
) -> OwnStepped
    ensures { IsNextOwn result (pure.at_semicolon (cue_view cue.entry)
        (machine.with_super (constructor_view of.value) (exprs_of args.items))) }
{
    match cue {
        Cue::Semicolon => in_body(alloc, Body::Constructor(of, Some(args))),
        _ => Ok(None),
    }
}

//! How far arguments have been read (JLS 15.12).
ghost use Rattle.std.specs.Prelude.{◌≡◌, IfOk, option_map, option_and_then};
ghost use Rattle.std.specs.Option.{is_some};
ghost use Rattle.jr_ast.specs.View.{expr_of, exprs_of, args_of};
ghost use Rattle.jr_pexpr.specs.Marked.{join};
ghost use Rattle.jr_pexpr.specs.Machine as expressions;
ghost use Rattle.jr_pexpr.specs.StateView.{state_view};
ghost use Rattle.jr_pexpr.specs.TokenView.{token_view};
ghost use Rattle.jr_pstmt.specs.Cues.{a_comma};
ghost use Rattle.jr_pstmt.specs.ArgumentMachine as machine;
ghost use Rattle.jr_punit_members.specs.ArgView.{arg_state, IsNextArg};

use jr_ast::Expr;
use jr_pexpr::{State, Token};
use jr_pstmt::{Made, is_comma};
use jr_text::Span;
use std::alloc::Global;

/// In an argument, behind others of which each has its comma.
#[derive(Drop)]
pub struct ArgState {
    args: Vec<Expr<Span>>,
    last: State,
}

/// The state behind a token; `None` where the token can't stand there.
type Stepped = Made<Option<ArgState>>;

/// The arguments with one more.
fn with_last(mut args: Vec<Expr<Span>>, e: Box<Expr<Span>>) -> Made<Vec<Expr<Span>>>
    ensures { IfOk result (λ made. exprs_of made.items
        ≡ expressions.with_last (exprs_of args.items) (expr_of e.value)) }
{
    args.push(Box::into_inner(e))?;
    Ok(args)
}

/// Behind the comma of the argument.
fn begin_next(alloc: Global, args: Vec<Expr<Span>>, e: Box<Expr<Span>>) -> Stepped
    ensures { IsNextArg result
        (machine.next_argument (exprs_of args.items) a_comma (expr_of e.value)) }
{
    let args = with_last(args, e)?;
    let last = State::new(alloc);
    Ok(Some(ArgState { args, last }))
}

/// A comma behind what may be a whole argument.
fn next_argument(alloc: Global, args: Vec<Expr<Span>>, last: State) -> Stepped
    ensures { IsNextArg result (option_and_then (machine.next_argument (exprs_of args.items)
        a_comma) (expressions.whole join (state_view last))) }
{
    match last.finish(alloc)? {
        Some(e) => begin_next(alloc, args, e),
        None => Ok(None),
    }
}

/// The argument goes on.
fn argument_goes_on(
    alloc: Global,
    args: Vec<Expr<Span>>,
    last: State,
    at: Span,
    token: Token<'_>,
) -> Stepped
    ensures { IsNextArg result (option_map (machine.in_argument (exprs_of args.items))
        (expressions.step join (state_view last) at (token_view token.entry))) }
{
    match last.step(alloc, at, token)? {
        Some(last) => Ok(Some(ArgState { args, last })),
        None => Ok(None),
    }
}

/// The last argument, where it is whole.
fn finish_last(alloc: Global, args: Vec<Expr<Span>>, last: State) -> Made<Option<Vec<Expr<Span>>>>
    ensures { IfOk result (λ made. args_of made
        ≡ option_map (expressions.with_last (exprs_of args.items))
        (expressions.whole join (state_view last))) }
{
    match last.finish(alloc)? {
        Some(e) => Ok(Some(with_last(args, e)?)),
        None => Ok(None),
    }
}

impl ArgState {
    /// Nothing has been read.
    pub fn new(alloc: Global) -> ArgState
        ensures { arg_state result ≡ machine.start }
    {
        ArgState {
            args: Vec::new(alloc),
            last: State::new(alloc),
        }
    }

    /// The state behind a token at `at`; `None` exactly where no arguments go on with it.
    pub fn step(self, alloc: Global, at: Span, token: Token<'_>) -> Stepped
        ensures { IsNextArg result
            (machine.step join (arg_state self) at (token_view token.entry)) }
    {
        let ArgState { args, last } = self;
        let ends = is_comma(token) & last.is_whole();
        if ends {
            return next_argument(alloc, args, last);
        }
        argument_goes_on(alloc, args, last, at, token)
    }

    /// Whether what has been read are arguments, none at all too.
    pub fn is_whole(&self) -> bool
        ensures { result ≡ is_some (machine.whole join (arg_state self.now)) }
    {
        self.last.is_whole() | (self.args.is_empty() & self.last.is_start())
    }

    /// The arguments that have been read; `None` where they aren't whole.
    pub fn finish(self, alloc: Global) -> Made<Option<Vec<Expr<Span>>>>
        ensures { IfOk result (λ made. args_of made ≡ machine.whole join (arg_state self)) }
    {
        let ArgState { args, last } = self;
        let none = args.is_empty() & last.is_start();
        if none {
            drop(last);
            return Ok(Some(args));
        }
        finish_last(alloc, args, last)
    }
}

//! The two rules that are read: expressions, and statement expressions.
ghost use Rattle.std.specs.Prelude.{◌≡◌, IfOk, option_map};
ghost use Rattle.std.specs.Option.{is_some};
ghost use Rattle.jr_pexpr.specs.TokenView.{token_view};
ghost use Rattle.jr_pexpr.specs.StateView.{state_view};
ghost use Rattle.jr_pexpr.specs.ExpView.{placed};
ghost use Rattle.jr_pexpr.specs.Answers.{IsNext};

use crate::state::{State, Stepped};
use crate::tokens::Token;
use jr_text::Span;
use std::alloc::Global;

/// What is read.
#[derive(Clone, Copy)]
pub(crate) enum Rule {
    /// An expression (JLS 15).
    Expression,
    /// A statement expression (JLS 14.8).
    StatementExpression,
}

impl Rule {
    ghost use Rattle.jr_pexpr.specs.Walks.{rule_step, rule_whole};

    /// The state behind a token at `at`; `None` exactly where nothing that is read goes on with it.
    pub(crate) fn step(self, alloc: Global, state: State, at: Span, token: Token<'_>) -> Stepped
        ensures { IsNext result (rule_step self (state_view state)
            (placed at (token_view token.entry))) }
    {
        match self {
            Rule::Expression => state.step(alloc, at, token),
            Rule::StatementExpression => state.statement_step(alloc, at, token),
        }
    }

    /// Whether what has been read is whole.
    pub(crate) fn is_whole(self, state: &State) -> bool
        ensures { result ≡ is_some (rule_whole self (state_view state.now)) }
    {
        match self {
            Rule::Expression => state.is_whole(),
            Rule::StatementExpression => state.is_statement(),
        }
    }
}

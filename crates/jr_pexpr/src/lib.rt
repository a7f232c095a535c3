//! Expressions: how tokens are read as trees, by a machine that reads one token at a time.
//!
//! [`parse_expr`] and [`parse_sexpr`] answer the longest expression that the tokens from an item on
//! begin with, or a fault of syntax exactly where there is none. It knows no declarations.
//!
//! `tokens` (the token that an item is), `pieces` (what a token can be in an expression), `frames`
//! (what has been begun: what waits for an operand, what waits for its closing token), `stack`,
//! `state`, `steps` (one step, by its part: `begin`, `extend`, `members`, `reduce`), `starts` (what
//! a statement asks of the expression that it begins with). Each function has one exact clause by
//! the definition of `specs/Machine`. `rules`, `walks`, `parsing`: the items are walked once, and a
//! second time only where reading went on behind the longest expression.
//!
//! Expressions move in boxes from the state to a frame and into the tree; nothing is copied but
//! words and strings. A parser of statements holds a [`State`] and steps it.
#![tactic(auto)]

mod begin;
mod extend;
mod faults;
mod frames;
mod kinds;
mod laws;
mod made;
mod members;
mod parsing;
mod pieces;
mod ranks;
mod reduce;
mod rules;
mod stack;
mod starts;
mod state;
mod steps;
mod tokens;
mod walks;

pub use faults::ParseFault;
pub use laws::{
    expression_is_longest, expression_stop_is_exact, marked_steps_alike, marks_are_spans,
    one_answer, one_expression, one_marked_expression, one_statement_expression,
    statement_expression_is_longest, statement_expression_stop_is_exact,
};
pub use parsing::{parse_expr, parse_sexpr};
pub use state::State;
pub use tokens::{Token, token_at};

//! Trees as text: what an expression, a statement or a member is printed as. It stands on no
//! reader, and knows no declarations.
//!
//! [`expr_text`], [`stmt_text`], [`member_text`] walk a tree and put its text at the end of one
//! buffer (`exprs`, `stmts`, `members`, `parts`, `operators`); each small function says which bytes
//! it has put. Whether a sign needs a space behind it is found before its operand is printed:
//! `starts` goes down the operand's left edge to its first text, once for each sign. `laws`: what
//! is printed reads as the tree, and marks play no part.
#![tactic(auto)]

mod exprs;
mod laws;
mod members;
mod operators;
mod parts;
mod starts;
mod stmts;
mod texts;

pub use laws::{
    expression_reads_back, member_reads_back, printing_ignores_marks, statement_reads_back,
};
pub use texts::{expr_text, member_text, stmt_text};

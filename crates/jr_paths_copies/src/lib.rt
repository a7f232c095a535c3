//! Copies of trees with other marks, the lower half of `jr_paths: with_marks`.
//!
//! A copy is the same tree but for its marks (`specs/Same`). There is one cycle of calls a sort
//! of tree (`expr_marks`, `stmt_marks`, `member_marks`). An arm copies a node's parts and hands
//! them to a small function outside of the cycle that makes the node (`made_exprs`, `made_stmts`),
//! so nothing in a cycle holds a tree by value.
#![tactic(auto)]

mod expr_marks;
mod made;
mod made_exprs;
mod made_stmts;
mod marks;
mod member_marks;
mod stmt_marks;

pub use marks::{mark_by, words};
pub use member_marks::classes;

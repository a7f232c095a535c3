//! Nodes of trees and their children, and ways down to nodes that are changed: the lower half of
//! `jr_paths`.
//!
//! A path is a list of numbers: the child's number at each level, in text order. Reads: `nodes`,
//! with `children` and `seeks`. Writes: a call that hands out a `&mut` can be no recursion and no
//! loop here, so a walk goes by levels (`reaches`): `One` takes a step, `Twice<L>` walks a path's
//! halves by `L`, and `Far` nests sixty-four of them. There is a way down from member to member,
//! from statement to statement, from expression to expression (`member_writes`, `stmt_writes`,
//! `expr_writes`). `specs/With` says what a tree is with a node replaced, and `laws` has what holds
//! of it.
#![tactic(auto)]

mod children;
mod expr_writes;
mod laws;
mod member_writes;
mod nodes;
mod reaches;
mod seeks;
mod stmt_writes;

pub use expr_writes::ExprLevel;
pub use laws::one_child_is_replaced;
pub use member_writes::{ClassLevel, class_of_unit, expr_of_member, stmt_of_member};
pub use nodes::Node;
pub use reaches::{Far, One, Twice};
pub use stmt_writes::{StmtLevel, expr_of_stmt};

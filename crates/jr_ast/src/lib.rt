//! Trees of Java sources, generic in a mark for each node.
//!
//! Three things stand side by side: the Rust types, the pure trees that clauses speak of
//! (`specs/Tree`, `StatementTree`, `MemberTree`), and the views from the ones to the others
//! (`specs/View`), which alone know the generated constructors. All definitions of the crates above
//! are over pure trees. It knows no tokens, no declarations and no text.
//!
//! A [`Name`] is a text that its copies share, so that copying a name takes no memory. Expressions,
//! statements, members, classes and units have constructor functions (`exprs`, `stmts`, `members`).
//! `StmtKind` is dropped by a loop that goes on with the last statement it holds: a text within the
//! limits nests thousands of statements, and a call for each would take too much stack.
//!
//! Walks of paths, writes through them and copies with other marks are in `jr_paths`.
#![tactic(auto)]

mod exprs;
mod members;
mod names;
mod operators;
mod parts;
mod paths;
mod stmts;

pub use exprs::{Expr, ExprKind};
pub use members::{Class, Member, MemberKind, Unit};
pub use names::{Ident, Name};
pub use operators::{BinOp, BumpOp, ModWord, UnOp};
pub use parts::{Modifier, Param, TypeKind, TypeRef};
pub use paths::Path;
pub use stmts::{Stmt, StmtKind};

//! Walks of paths, writes through them, and copies of trees with other marks: what stands on
//! `jr_ast` and no command uses yet.
//!
//! A path is a list of numbers: the child's number at each level, in text order. Reads and writes
//! are methods of public traits of the trees, since a crate can't add methods to a type of another.
//! A read answers None exactly where the path leads to no node of the kind asked for. A write
//! replaces that node and nothing else. `with_marks` gives the same tree but for its marks.
//!
//! Here are the public calls alone, so that a wrong body is tried at little cost. Below them,
//! `jr_paths_nodes` has nodes, their children and the ways down, and `jr_paths_copies` the copies
//! of parts. A write goes from member to member, then from statement to statement, then from
//! expression to expression: `turns` finds where a path turns from one to the next, and
//! `path_writes` joins them.
#![tactic(auto)]

mod path_writes;
mod paths;
mod turns;
mod with_marks;

pub use jr_paths_nodes::{Node, one_child_is_replaced};
pub use path_writes::{ExprPathWrites, MemberPathWrites, StmtPathWrites};
pub use paths::{MemberPathReads, PathReads};
pub use with_marks::WithMarks;

//! What an expression says: its notes and the tree of its types, made in one walk (JLS 6, 15). It
//! is the lower half of `jr_bind`, and knows no statements and no other member's body.
//!
//! `places`: a [`Place`] is what is known where an expression stands (`specs/Places: Knows`).
//! `walk` goes over expressions, a small function an arm (`names`, `fields`, `invocations`,
//! `operators`, `type_names`), each of which answers a [`Meaning`], writes its notes into a log
//! (`notes`: what a reference finds, or a rule that is broken) and its nodes behind the slots of a
//! tree of types (`typing`). What statements and declarations take of it too is public: `kinds`,
//! `rows`, `abouts`, `args`, `findings`, `variables`, `calls`.
#![tactic(auto)]

mod abouts;
mod args;
mod calls;
mod fields;
mod findings;
mod invocations;
mod kinds;
mod meanings;
mod names;
mod notes;
mod operators;
mod places;
mod rows;
mod type_names;
mod typing;
mod variables;
mod walk;

pub use abouts::{has_final, kind_at};
pub use args::Args;
pub use calls::ctor_in;
pub use findings::{Finding, Note, Sought};
pub use invocations::{is_object_method, put_method};
pub use kinds::{class_in, is_boolean, suits};
pub use meanings::{Meaning, Role};
pub use notes::{is_nothing, is_one, one_row, put_raw, put_unless, put_when};
pub use places::Place;
pub use rows::{class_found, decl_at, row_at, type_in};
pub use type_names::written_type;
pub use typing::{more_parts, put_leaf};
pub use walk::{walk_args, walk_expr};

//! What is known of members, kept over a change: what was bound of those that the change doesn't
//! reach stays, and all others are bound anew.
//!
//! `laws`: `bounds_last`. What is right of a member (`jr_bind: IsBound`) is right of it where rows
//! are the same but for some names, if the member has none of these names and refers to nothing by
//! them. `rebinding`: [`rebind_members`] has the clauses of `jr_program: bind_members`, and is
//! given what was bound before. Where two tables are apart by names alone, a member of a file that
//! stays, whose key is the earlier one's and which avoids the names (`sparing`), keeps its bound;
//! each other is bound. Where tables differ in more, or members are more or fewer, all are bound.
//! That bounds are kept at all is measured and not promised. `former`: what was bound before can be
//! had back, exactly and without memory, as long as what is bound now is whole. It knows no
//! refactoring.
#![tactic(auto)]

mod changed;
mod former;
mod laws;
mod rebinding;
mod sparing;

pub use changed::ChangedProgram;
pub use former::{Former, Replaced};
pub use laws::bounds_last;
pub use rebinding::rebind_members;

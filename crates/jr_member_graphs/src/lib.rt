//! The graph of a member's sites, by the flags of its own locals.
//!
//! `specs/MemberLocals`: what a member's locals begin with, which are assigned, and what is never
//! null in it. `specs/OwnFlags`: what is known of the member with its own flags, by which a test for
//! null stands exactly where the value may be null. `laws`: of any flags that are a member's own
//! (`specs/GivenFlags`).
//!
//! `gather`: one walk over the statements, for the writes of expressions and the initializers
//! (`specs/Notes`); `flags`: flags are made of these one by one; `members`, `graphs`; `values`: which
//! values can't be null, and so come to no null in runs (`specs/NeverNullRuns`).
#![tactic(auto)]

mod flags;
mod gather;
mod graphs;
mod laws;
mod members;
mod values;

pub use graphs::member_graph;
pub use jr_cfg::CfgFault;
pub use jr_sites::{PlacedSite, SiteGraph};
pub use laws::flags_tell_the_member;
pub use members::own_flags;
pub use values::never_null;

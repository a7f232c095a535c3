//! How tokens are read as members that are no classes (JLS 8.3, 8.4, 8.8): the lower half of
//! `jr_punit`.
//!
//! `own` is such a member. It hands each token to lists of statements, `params`, `args`, types and
//! expressions; `leads`, `beginnings`, `heads`, `fields`, `bodies`, `constructors` are its parts.
//! Each layer is an enum with the states of its machine, and each function has one exact clause by
//! it. A machine steps in place, `true` where it went on.
#![tactic(auto)]

mod args;
mod beginnings;
mod bodies;
mod constructors;
mod fields;
mod heads;
pub mod leads;
pub mod own;
mod params;

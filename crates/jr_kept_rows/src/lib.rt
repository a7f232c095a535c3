//! What becomes of a program's declarations where one list of statements of a body is made anew:
//! nothing. Laws alone; nothing in it is executed.
//!
//! [`extracts_keep_programs`], [`inlines_keep_programs`]: a program that is read as the trees which
//! extract or inline local makes has the rows of the old one, and its static fields begin with what
//! they began with. `specs/Staying` says it. For any refactoring that changes lists of statements
//! alone the law is `proofs/SamePrograms: programs_stay`: it owes that keys and rows stay, that
//! places without locals see what they saw, that no spot is but a list, and that it makes one thing
//! (`proofs/Heads: LeavesHeads`, `jr_one_plans: MakeAlike`).
#![tactic(auto)]

mod laws;

pub use laws::{extracts_keep_programs, inlines_keep_programs};

//! Rename: its one call [`plan`] answers the edits of a rename, or the first refusal that applies
//! (JLS 6). It knows no session and no other refactoring.
//!
//! `steps`: [`plan`] finds the file of the step's name. `plans`: lists the written members, once
//! for all that ask of them, and asks for the target. `targets`: what is renamed with it, a method
//! of the prelude, a clash. `answers`: makes the table of the new program, asks for dispatch, and
//! has the program rewritten. Each of these answers from its place in the order of refusals on
//! (`specs/Answers`), so that the clause of each is that of the next or a refusal. `pairs` compares
//! the rows of both tables. `afters`: what is known of the new table.
//!
//! `clashes` asks by the kind of the target with what a new name collides. `locals`: of a local or
//! parameter one walk over its member (`walks`) keeps who is in scope, the number of the next
//! local, whether the local has the name already, and the least number of one that it would meet
//! (JLS 6.3, 6.4). `rows`, `row_clashes`: of all else the first row tells; only rows that have the
//! new name are compared.
#![tactic(auto)]

mod afters;
mod answers;
mod clashes;
mod locals;
mod pairs;
mod plans;
mod row_clashes;
mod rows;
mod steps;
mod targets;
mod walks;

pub use afters::After;
pub use plans::plan_at;
pub use steps::plan;

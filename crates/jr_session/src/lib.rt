//! Sessions: the sources of a program while they are changed, what can be undone, what is shown of
//! them, and what a refactoring promises. It knows no refactoring from inside: it asks for a plan.
//!
//! Contracts see a [`Session`] as the `State` of `specs/States`, and what a step does as the
//! relation of `specs/Stepping`; why it is refused is in `Refusing`, and of a refactoring,
//! whichever it is, in `Refactored`; what an accepted one promises is in `Promises`. A refactoring
//! that is added has a record and a line in `Asked`, and lines in `RequestView` and `PlansRead`.
//! What is kept beside the texts is an invariant (`Kept`), which says that it is what reading and
//! analysing from scratch give; no public clause mentions it.
//!
//! `steps` sends a step to the call that answers it. `sessions`, `begins`, `edits`, `shows`,
//! `dependence_shows`. `renames`, `extracts`: whether a refactoring can be asked for (1 to 3), and
//! `requests`: any that can. `changes`: what a step changed, for undoing. `splices`: what an edit
//! would make of a file. `turns`: files get other texts with their readings, the last first, and
//! the old ones go on two lists; each step takes the room for the lists first, so that nothing
//! fails once it has begun. `plans` analyses and plans; `refactorings` makes the edits, whatever
//! planned them, and refuses them for a lost dependence behind all that is wrong with what they
//! make; `made`: the new texts, or the length that is too long; `tries` reads and binds the new
//! program, and puts all back where something is wrong. `laws`: one reply and one state a step
//! (`step_has_one_answer`), the first reason of a refusal (`renames_are_refused_first`), what an
//! accepted refactoring promises, from its step alone (`accepted_refactorings_keep_programs`).
#![tactic(auto)]

mod begins;
mod changes;
mod dependence_shows;
mod edits;
mod extracts;
mod laws;
mod made;
mod plans;
mod refactorings;
mod renames;
mod requests;
mod sessions;
mod shows;
mod splices;
mod steps;
mod tries;
mod turns;

pub use begins::BeginFault;
pub use laws::{
    accepted_refactorings_keep_programs, renames_are_refused_first, step_has_one_answer,
};
pub use sessions::Session;
pub use shows::MAX_SHOWN_LEN;

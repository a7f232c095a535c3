//! Programs without faults and errors have resolved code, and it is well typed. Definitions and
//! laws alone; nothing in it is executed.
//!
//! `programs_have_code`: what breaks no rule is bound, so each such program has a resolved one
//! (`jr_code: IsCodeOf`). `sound_programs_are_well_typed`: any code of its is well typed (`jr_runs:
//! WellTyped`). `sound_runs_fit`: so its runs are made on what fits, and end with what fits, and
//! none is cut as ill typed but by an answer from outside (`specs/Misfits`).
#![tactic(auto)]

mod laws;

pub use laws::{programs_have_code, sound_programs_are_well_typed, sound_runs_fit};

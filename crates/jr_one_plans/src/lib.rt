//! What any refactoring needs for that a step has one plan (`jr_plan: HasOnePlan`): laws alone.
//!
//! As clauses: programs of the same files are one program (`files_have_one_program`), of changes of
//! dispatch one is the first (`one_first_change`), and two pieces that may not change places lose
//! one pair of sites (`pieces_cross_once`). What holds of any region and transform is said by
//! lemmas, as no clause can quantify over these: by two regions that are alike one thing is chosen
//! for each word (`proofs/RegionsAgree`); where spots are apart and make one thing a program is
//! rewritten in one way (`OneFile: files_one`); and then a refactoring that finds alike has one
//! plan (`DoAlike: one_plan`).
#![tactic(auto)]

mod laws;

pub use laws::{files_have_one_program, one_first_change, pieces_cross_once};

//! What a session answers, and what a refactoring plans.

use crate::lists::{EditLists, Lines, Names, Renaming};
use crate::refusals::Refusal;
use crate::sites::DepPair;

/// What a session answers to a step.
#[derive(Drop)]
pub enum Reply {
    Edited,
    /// The files whose text has changed, in the order of the session, and how many references are
    /// spelled otherwise than they were, but for their new names.
    Refactored { files: Names, respelled: u32 },
    Shown(Lines),
    Undone,
    Redone,
    Refused(Refusal),
}

/// What a refactoring plans, or why it doesn't.
#[derive(Drop)]
pub enum Outcome {
    /// The edits of each file, what declarations become, how many references are spelled otherwise,
    /// and the dependence that would be lost, where there is one.
    Planned {
        edits: EditLists,
        renaming: Renaming,
        respelled: u32,
        lost: Option<DepPair>,
    },
    Refused(Refusal),
}

//! What passes between a script, a session and a report: plain data, and no body of a program.
//!
//! A [`Step`] is what a script asks for, a [`Reply`] what the session answers, a [`Refusal`] why
//! not, and an [`Outcome`] what a refactoring plans. Contracts see them as the plain values of
//! `specs/`, with keys as those of `jr_table`, and kept texts as their bytes; one view a type.
//! `decl_texts` writes declarations.
#![tactic(auto)]

mod decl_texts;
mod lists;
mod needs;
mod refusals;
mod replies;
mod sites;
mod steps;

pub use decl_texts::{
    class_text, constructor_text, decl_text, field_text, local_text, member_text, method_text,
};
pub use lists::{EditLists, Lines, Names, Renaming};
pub use needs::Need;
pub use refusals::Refusal;
pub use replies::{Outcome, Reply};
pub use sites::{DepPair, SiteAt};
pub use steps::{Step, What};

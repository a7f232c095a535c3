//! The sources of a program: files with names of their own, what each reads as, their first fault,
//! and what is analysed of them where they have none. It knows no step of a session.
//!
//! `sources`: names and texts; contracts see a list of them. `faults`, `readings`: a text is lexed
//! once, measured and parsed. `kept`: the readings of all files, side by side, since the table is
//! built from a slice of units; one of them is exchanged for another without memory.
//! `first_faults`: the first of the faults. `reading_laws`: a text has one unit, or one fault.
//!
//! `analyses`, `programs`: the first fault of a file, or else of declarations, is told; where there
//! is none the table and all bound members are kept. `analyse` may be given what was analysed of
//! earlier sources with which files' texts are the same, and binds by it (`jr_cache`);
//! `analyse_with` takes the table from the caller, who knows that it is that of the sources if
//! these read; `analyse_same` that of the earlier sources. What was given isn't lost: it can be had
//! back, without memory, as long as the new analysis is whole (`FormerAnalysis`). `binds`: written
//! members are bound. `broken`, `errors`: the first rule that a member breaks. `asks`: what refuses
//! a refactoring before its sources are analysed. `whole`: sources without faults and errors, as
//! they are lent to refactorings.
#![tactic(auto)]

mod analyses;
mod asks;
mod binds;
mod broken;
mod errors;
mod faults;
mod first_faults;
mod kept;
mod programs;
mod reading_laws;
mod readings;
mod sources;
mod whole;

pub use analyses::{Analysed, Analysis, EarlierAnalysis, FormerAnalysis, SourceFault};
pub use asks::refusal_of_request;
pub use errors::first_error;
pub use faults::{FaultKind, ReadingFault};
pub use kept::Readings;
pub use programs::{analyse, analyse_same, analyse_with, forget_known, keep_analysis};
pub use reading_laws::text_has_one_reading;
pub use readings::{Reading, read};
pub use sources::{MAX_FILES, MAX_TOTAL_LEN, Sources};
pub use whole::Whole;

//! Which resolved code (`jr_runs`) sources have: relations on trees and on what binding says of
//! them (`jr_table`). Definitions and laws alone; nothing in it is executed.
//!
//! `specs/Coded`: expressions; `CodedStatements`; `CodedMembers`: methods, initializers, written
//! and implicit `super()`, default constructors, classes, files and the prelude; `RunRows`: what
//! runs need of a table's rows; `CodedFields`: what static fields begin with; `Programs`: all of it
//! for whole sources. What isn't declared has fixed answers, so that sources have one resolved
//! program. `RunKeys`: keys are the table's, and a place tells the member and the byte.
//! `Exchanged`: a map of what is declared, as one of all keys.
#![tactic(auto)]

mod laws;

pub use laws::{code_is_one, exchanges_undo_themselves};

//! How tokens are read as statements: the machine of lists of statements in a body, and of types
//! (JLS 14, 4). It is the lower half of `jr_punit`, which holds the machine and has its laws.
//!
//! `lists` (a place and a mode) and what it calls: `begin` (where a statement may come), `behind`
//! (behind one, `else`), `values` (expressions that are parts of statements), `locals` (statement
//! expressions, and locals), `frames` and `places` (what has been begun, with a count of the lists
//! in it), `ends` (a statement goes into the innermost list and ends the `if`, `else` and `while`
//! before it, in a loop), `statements` (each made in a box). `cues`, `cue_tests`: a token by what
//! it can be outside of expressions. `type_state`: how far a type has been read.
//!
//! Nothing calls itself for each level of statements. It knows no members and no declarations.
#![tactic(auto)]

mod begin;
mod behind;
mod cue_tests;
mod cues;
mod ends;
mod frames;
mod list_steps;
mod lists;
mod locals;
mod made;
mod places;
mod statements;
mod type_state;
mod values;

pub use cue_tests::{is_close, is_close_brace, is_comma, is_open, is_semicolon, is_super};
pub use cues::{Cue, cue_of};
pub use lists::ListState;
pub use made::Made;
pub use type_state::{TypeState, word};

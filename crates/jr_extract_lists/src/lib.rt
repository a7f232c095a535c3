//! What extract local makes of a list of statements: the declaration in front of the statement, the
//! name in the expression's place, and all else spelled so that it means what it did (JLS 6, 14.4).
//! It knows no refusal, and nothing outside of the list.
//!
//! `targets`: what is extracted, with all that is known of it (`specs/Targets`). `written_types`:
//! how the type is written (`specs/WrittenTypes`). `texts`: the name in the expression's place, and
//! the declaration (`specs/Texts`). `walks`: what becomes of the expression, of its statement and
//! of those behind it, each in a place of its own (`specs/Walked`). `starts`: what is gathered in
//! front of the statement.
#![tactic(auto)]

mod starts;
mod targets;
mod texts;
mod walks;
mod written_types;

pub use targets::{Request, Target, target_of, written_at};
pub use walks::{ListOutput, StatementPlace, find_statement, list_output, piece_output};

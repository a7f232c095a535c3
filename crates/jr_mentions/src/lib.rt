//! Members that mention none of some names. Where rows are the same but for the names of some
//! fields and methods, what refers to none by these names is bound as before. It knows no
//! refactoring.
//!
//! `rows`: [`apart`] compares two tables in one walk and answers the names but for which they are
//! the same, or none. `avoiding`: whether a member's tree refers to a variable, field or method by
//! one of the names. Neither takes memory. `laws`: lookups of other names answer the same
//! (`apart_look_alike`); a part that avoids the names breaks the same rules and is bound the same
//! (`parts_last`); its expressions have the same types (`types_last`).
#![tactic(auto)]

mod avoiding;
mod laws;
mod names;
mod rows;

pub use laws::{apart_look_alike, parts_last, types_last};
pub use names::Apart;
pub use rows::apart;

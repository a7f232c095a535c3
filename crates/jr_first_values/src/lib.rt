//! What the static fields of a program begin with (`jr_code: CodedFields`): each program without
//! faults of declarations has first values, and just one for each field. Definitions and laws
//! alone; nothing in it is executed.
#![tactic(auto)]

mod laws;

pub use laws::first_values_stand;

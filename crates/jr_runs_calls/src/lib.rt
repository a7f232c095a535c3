//! Calls that one of two programs makes and the other doesn't: definitions and laws alone, over
//! resolved code (`jr_runs`), as nothing in it is executed.
//!
//! `specs/MadeMethods`: a method that the new program alone has, and its calls. `specs/Extracts`:
//! the front of a statement list, or an expression, has become such a call. `specs/Inlines`: a call
//! has become a block with the method's body. The laws stand on functions that do nothing. Their
//! proofs show the form for every made and removed call: the method is unfolded where its call
//! stands, and never paired with another. A call on an object needs that all calls are well made.
#![tactic(auto)]

mod laws;

pub use laws::{
    extracted_programs_are_alike, extracted_values_are_alike, inlined_programs_are_alike,
};

//! What holds where a way leads in a list of statements that a refactoring walks in parts: the
//! nearest element of an expression, the expression, and what a walk of each rests on. It has laws
//! alone, for extract and inline local.
//!
//! `specs/ReadyWays`: parts of what is ready to be walked are so ([`ways_are_ready`],
//! [`values_are_ready`]). `specs/Elements`: the nearest element ([`elements_hold_it`]), in which one
//! expression has a span ([`one_has_the_span`]). `specs/Unbased`: where a parent begins doesn't
//! matter to spans ([`spans_have_no_base`]).
#![tactic(auto)]

mod laws;

pub use laws::{
    elements_hold_it, one_has_the_span, spans_have_no_base, values_are_ready, ways_are_ready,
};

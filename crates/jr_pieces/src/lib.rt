//! Where in a member an expression stands, and what is a function of that place alone. It has
//! definitions and laws, and knows neither text nor names.
//!
//! `specs/Ways`: the ways from a list of statements down to an expression, as data. By recursion on
//! a way are said: the nearest statement with what is known there (`Nearest`), the innermost
//! construct that keeps the place from being straight below the list (`Bars`), what is evaluated
//! before it, and whether it is evaluated at all (`Before`).
#![tactic(auto)]

mod laws;

pub use laws::{
    spans_tell_ways, standing_lists_are_nested, what_comes_before_stands_in_front,
    what_is_found_has_a_way,
};

//! Small programs whose sites, edges and dependences are computed: one for each sentence of the
//! rules by which `jr_cover` makes them. Expected values are those of the rules, not of the
//! definitions. Nothing in it is executed.
//!
//! `specs/Samples`: the trees, and what is known of their names; `SiteCases`, `EdgeCases`,
//! `ThrowCases`, `DependenceCases`, `NeverNullCases`; `WrongTurns`: what a wrong rule would give.
#![tactic(auto)]

mod laws;

pub use laws::{
    dependence_cases, edge_cases, never_null_cases, site_cases, throw_cases, wrong_turns,
};

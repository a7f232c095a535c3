//! Where a local is named behind its declaration in a text: laws.
//!
//! `laws`: names stand at their words, which have as many bytes as their texts, and what stands
//! behind a declaration has nested spans ([`bodies_are_spelled`], `specs/MarkLaws`).
#![tactic(auto)]

mod laws;

pub use laws::bodies_are_spelled;

//! Inline method: what it finds, why it is refused by itself, and what it makes of a program, as a
//! refactoring of jr_plan. It has definitions and laws alone so far.
//!
//! [`inline_method_is_apart`]: its spot is used (`jr_plan: IsFit.apart`).
//!
//! `specs/Calling`: the call, its form, what it is made on, the method. `Refusing`: refusals.
//! `Regions`: what is seen around the call, in its arguments and in the copied body. `Inlining`: the
//! block, the spot, the transform. `InlineMethod`: the refactoring.
#![tactic(auto)]

mod laws;

pub use laws::inline_method_is_apart;

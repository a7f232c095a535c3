//! Extract local and inline local: what each finds, why it is refused by itself, and what it makes
//! of a program, as refactorings of jr_plan. It has definitions and laws alone so far.
//!
//! `specs/Selecting`, `Inlining`: what is found, and the refusals of each, the first that applies.
//! `specs/Extracted`, `Inlined`: regions (`Scopes`), spots, what is lost, and the pair of sites
//! that may not change places (`Crossing`, by what `BodyFacts` says of a body's nodes).
//! `Soundness`: what holds of the regions (`regions_are_sound`). Spaces between neighbours:
//! `jr_moved_texts`.
#![tactic(auto)]

mod laws;

pub use laws::regions_are_sound;

//! What the plans of extract local and inline local share: where a body begins and where an element
//! of its lists stands, in a walk in which a local comes or goes; the sites that may not change
//! places; and what is answered. It knows no refusal, and makes no text.
//!
//! `numbers`: what becomes of the numbers of locals (`jr_local_walks: Mappings`). `bodies`: a body
//! with its parameters in scope (`specs/Begun`). `elements`: [`go_to_element`] moves a place down
//! a path, to the nearest element of a list (`specs/Descending`: exact; `ElementPlaces`: what it
//! is), [`enter`] into that one's initializer, [`pass`] behind it. `pairs`: [`lost_pair`] of two
//! pieces, as `jr_local_footprints: specs/LostPairs` has it (`specs/PieceSites`). `answers`: edits
//! of one file, the first reference that is lost (`specs/Answers`).
#![tactic(auto)]

mod answers;
mod bodies;
mod elements;
mod numbers;
mod pairs;

pub use answers::{edits_in, first_lost, lost_binding};
pub use bodies::{WalkedBody, begin_body, forget_here};
pub use elements::{ElementPlace, enter, go_to_element, pass, path_behind, path_to};
pub use numbers::{kept_numbers, with_gone};
pub use pairs::lost_pair;

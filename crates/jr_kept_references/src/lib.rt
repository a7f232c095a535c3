//! References that a refactoring keeps are bound to their images, in each region of its new trees
//! and beside its spots. Nothing in it runs.
//!
//! What holds of any region is said by lemmas (`proofs/RegionExpressions: kept`), as no clause can
//! quantify over regions; `laws` says it of a rename, which is the case of one region
//! (`proofs/Renamed`, `RenamedPlaces`). jr_images has the same of whole programs that are renamed.
//!
//! Definitions: `InRegions` (what stands at a place of the new program, and which types a region
//! has to tell), `KeptInRegions` (what becomes of an expression and of its reference; what a spot
//! owes), `AlongSpots`, `StatementsAlong`, `MembersAlong` (old and new trees side by side, but for
//! spots), `RegionPlaces` (what is known of places of the tree, and how they go down what is walked;
//! nothing is asked of other places), `Made` (references that are made), `Receivers` (where a local
//! stands for `this`), `ExpressionLaws`.
#![tactic(auto)]

mod laws;

pub use laws::renamed_expressions_are_kept;

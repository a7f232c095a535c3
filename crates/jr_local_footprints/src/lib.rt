//! Which sites footprints of a body's pieces have, and which pair two of them lose.
//!
//! `laws` (`specs/Laws`): what `jr_piece_sites` answers for a piece of a member that has a body, by
//! the path to it, are the sites that `jr_local` gives the piece by its spans
//! ([`footprints_are_of_body`]); in front of an expression that is evaluated, too
//! ([`fronts_are_of_body`], [`values_are_evaluated`], [`held_values_are_evaluated`]), and between a
//! declaration and a read ([`what_comes_between`]); the pair that two footprints lose is the one
//! that the pieces lose ([`pieces_are_lost`]). `own_tests` (`specs/NullTests`): the flags of the
//! member's own locals tell what is never null in the body ([`own_flags_tell`],
//! [`tests_are_there`]).
//!
//! `specs/Givens`: what a walk is given; `specs/SeenPieces`: pieces by paths; `specs/LostPairs`.
#![tactic(auto)]

mod laws;
mod own_tests;

pub use laws::{
    footprints_are_of_body, fronts_are_of_body, held_values_are_evaluated, pieces_are_lost,
    values_are_evaluated, what_comes_between,
};
pub use own_tests::{own_flags_tell, tests_are_there};

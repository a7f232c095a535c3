//! What a member does at which place, which way control goes between these places, and that no run
//! escapes it. It has definitions and laws alone, and nothing in it is executed. It knows no text.
//!
//! A tree becomes a way (`specs/Ways`, `Sites`, `Members`): by cases on the node, one of seven
//! constructors. Its sites, their numbers in evaluation order, the first and last ones, and the
//! edges are read off the way; `Flows` has them as lists, as code computes them. `Paths`,
//! `Dependences`: when one site depends on another; `Crossing`: when two pieces may change places,
//! and which pair is told where they may not. What names are bound to comes by marks (`Sites:
//! Known`). `NeverNullTrees`: which expressions are never null.
//!
//! The laws are over runs of any program that holds the member, whole, thrown or cut, sound or not
//! (`Visiting`, `Covering`, `Elsewhere`, `Members`). `actions_follow_edges`: of two actions of one
//! activation the earlier one's site leads to the later one's; `actions_are_covered`: where they
//! may not change places, the later site depends on the earlier. `pieces_act_at_their_sites`,
//! `crossing_pieces_are_free` (`Footprints`): so pieces that cross may change places.
//! `pieces_write_their_locals`: the others stay as they are; `pieces_read_their_locals` (`Unread`):
//! the others may differ; `pieces_come_to_their_end` (`Finishing`): without calls and loops;
//! `plain_expressions_are_silent` (`Plain`).
//! `never_null_is_not_null`, `never_null_gives_no_null` (`Evaluated`, `NeverNull`,
//! `NeverNullMembers`): of code that is well typed; that code of sound programs is well typed is no
//! law yet.
//!
//! A member's code is its tree's translation by marks (`Facts`, `Translation`,
//! `StatementTranslation`, `MemberTranslation`): a record of this layer of what binding says, for
//! whoever has a relation of trees and code. `Spots` gives each node its first and last byte and
//! its path for a mark (`spots_have_their_paths`), so that facts by bytes and by
//! paths are facts by marks. `jr_cover_cases` has a case for each sentence of the rules, and
//! `jr_unused_locals` what comes of paths for locals that aren't used.
#![tactic(auto)]

mod laws;

pub use laws::{
    actions_are_covered, actions_follow_edges, crossing_pieces_are_free, never_null_gives_no_null,
    never_null_is_not_null, pieces_act_at_their_sites, pieces_come_to_their_end,
    pieces_read_their_locals, pieces_write_their_locals, plain_expressions_are_silent,
    spots_have_their_paths,
};

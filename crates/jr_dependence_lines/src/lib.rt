//! What is shown of the dependences in a file, as lines: `MEMBER KIND FIRST SECOND`, of each member
//! in text order each dependence in order, with the bytes of the file at which the two sites stand.
//! It knows no session, and no reader of units.
//!
//! `specs/Lines`: a line; `specs/WayLines`: the lines of the way through a member;
//! `specs/MemberLines`: those of members, by what they are bound to. `tallies`: lines are counted,
//! or kept too. `member_lines`: those of one member; `file_lines`: [`dependence_lines`] makes the
//! graph of one member after another and keeps none. It counts all lines before it keeps any, so
//! that a billion of them take no memory. `laws`: members
//! have one list of lines, or one first that is too large.
#![tactic(auto)]

mod file_lines;
mod laws;
mod member_lines;
mod tallies;

pub use file_lines::{Shown, dependence_lines};
pub use laws::lines_are_one;

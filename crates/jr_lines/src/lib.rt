//! What is shown of a file: its references with what they are bound to, and the rules that it
//! breaks, as lines by place. It knows no session, and no reader of units.
//!
//! `lines`: a line is a reference with its name and declaration, or a broken rule, at a byte.
//! `member_lines`: [`file_lines`] makes lines of what is known of a file's members; a sort by one
//! number (32 times the place, and the rank) and a walk over neighbours put them in order, each
//! once. `line_texts` writes them. `laws`: two lists in order that have the same lines are one.
//! That two lines of one place and rank are one rests on `jr_program_laws: one_is_bound`, which
//! callers show.
#![tactic(auto)]

mod laws;
mod line_texts;
mod lines;
mod member_lines;

pub use laws::lines_are_told;
pub use member_lines::file_lines;

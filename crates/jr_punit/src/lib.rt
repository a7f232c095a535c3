//! Compilation units: how tokens are read as classes and units (JLS 7, 8).
//!
//! [`parse_unit`] answers the unit that a text is, with its spans, or a fault of syntax at the
//! first byte of the first token with which no unit goes on. It is the one reader that callers
//! need, and knows no declarations.
//!
//! `unit_state` (the package's words, the classes behind, the class at hand) hands each token to
//! `class_state`, that to `member_state`, that to `jr_punit_members: own` (a member that is no class) or
//! to `inner_class`. Each layer is an enum with the states of its machine (`specs/` of
//! `jr_punit_laws`, a file a machine), and each function has one exact clause by it. A machine
//! steps in place, `true` where it went on; no tree is cloned, and nothing calls itself for each
//! level of statements. `parsing`: the loop over the items.
#![tactic(auto)]

mod class_heads;
mod class_state;
mod inner_class;
mod member_state;
mod parsing;
mod unit_state;

pub use jr_punit_laws::laws::{
    list_is_read, list_stop_is_exact, marked_reads_alike, marks_are_spans, member_is_longest,
    member_is_read, member_stop_is_exact, one_list, one_marked_tree, one_member, one_reading,
    one_unit, stops_have_places, unit_has_one_answer, unit_is_read, unit_stop_is_exact,
};
pub use parsing::parse_unit;

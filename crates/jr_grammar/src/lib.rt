//! The grammar: which tokens a tree spells, which trees are shaped, over which tokens a tree
//! stands, and what a text reads as. It has definitions and laws alone, and no body does anything.
//!
//! Readers, printing, binding and rewriting all speak of what a text reads as by these definitions,
//! so printing and binding stand on no reader. It knows no declarations.
//!
//! Spelling and places come from one shape, a layout (`specs/Layout`): a node's mark and its parts,
//! one behind the other, each a token of the node or a further node; a row is parts without a node
//! of their own. Side conditions are in `Shape`, `StatementShape`, `MemberShape`, which name every
//! kind of node and have no default arm. `Reads` is what a text reads as.
#![tactic(auto)]

mod laws;

pub use laws::{
    expression_ignores_marks, marks_are_one, member_ignores_marks, readings_are_one,
    reads_are_grammar, spans_are_one, statement_ignores_marks, unit_ignores_marks,
};

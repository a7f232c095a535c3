//! A program that comes of another.

use jr_members::WrittenMember;
use jr_program::Tokens;
use jr_table::Table;
use jr_text::Span;

/// A program that comes of another, of which the members were bound.
#[derive(Clone, Copy, Drop)]
pub struct ChangedProgram<'a, 'b> {
    pub table: &'a Table,
    /// Those of each file, by its number.
    pub tokens: &'a [Tokens],
    pub written: &'a [WrittenMember<'b, Span>],
    /// The table of the other program.
    pub before: &'a Table,
    /// Of each file, by its number: whether it has the tree and the tokens that it had.
    pub stays: &'a [bool],
}

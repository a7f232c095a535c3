//! Places in a member.
use jr_scopes::Locals;
use jr_table::MemberKey;

/// What is known at a place of a member besides the table.
#[derive(Drop)]
pub struct Place<'a> {
    pub member: &'a MemberKey,
    /// The row of the member.
    pub row: u32,
    /// The row of the innermost enclosing class.
    pub class: u32,
    /// Whether there is no object (JLS 8.1.3).
    pub is_static: bool,
    /// The locals and parameters in scope, the last declared at the end (JLS 6.3).
    pub locals: Locals<'a>,
    /// The local in whose initializer the place stands.
    pub own: Option<u32>,
}

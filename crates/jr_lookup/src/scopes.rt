//! What a place of a member sees besides the table.
use crate::scope_locals::ScopeLocals;
use jr_table::ClassKey;

/// What a place of a member sees besides the table.
#[derive(Drop)]
pub struct Scope {
    /// The innermost enclosing class.
    pub class: ClassKey,
    /// Whether the place is in a static context: in a static method, the initializer of a static
    /// field, or the arguments of `super(..)` (JLS 8.1.3, 8.8.7.1).
    pub is_static: bool,
    pub locals: ScopeLocals,
}

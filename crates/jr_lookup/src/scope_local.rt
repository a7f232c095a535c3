//! A local or parameter in scope.
use jr_ast::Name;
use jr_table::LocalKey;

/// A local or parameter in scope.
#[derive(Drop)]
pub struct ScopeLocal {
    pub name: Name,
    pub key: LocalKey,
}

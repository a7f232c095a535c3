//! The locals and parameters in scope.
use crate::scope_local::ScopeLocal;
use std::marker::Model;

/// The locals and parameters in scope, the last declared at the end (JLS 6.3). Contracts see the
/// list.
#[derive(Drop)]
pub struct ScopeLocals {
    locals: Vec<ScopeLocal>,
}

impl Model for ScopeLocals {
    ghost use Rattle.std.specs.Prelude.{List, map};
    ghost use Rattle.jr_table.specs.Scope as pure;
    ghost use Rattle.jr_lookup.specs.LocalView.{local_of};

    ghost Value = { List pure.ScopeLocal };

    ghost view = { λ l. map local_of l.locals.items };
}

impl ScopeLocals {
    ghost use Rattle.std.specs.Prelude.{◌≡◌, map};
    ghost use Rattle.jr_lookup.specs.LocalView.{local_of};

    /// The list of these.
    pub fn from_vec(locals: Vec<ScopeLocal>) -> ScopeLocals
        ensures { result ≡ map local_of locals.items }
    {
        ScopeLocals { locals }
    }

    /// The locals.
    pub fn as_slice(&self) -> &[ScopeLocal]
        ensures { map local_of result.now ≡ self.now }
    {
        self.locals.as_slice()
    }
}

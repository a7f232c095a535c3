//! What an expression means to what stands around it.
ghost use Rattle.std.specs.Prelude.{◌≡◌};
ghost use Rattle.jr_bind_expr.specs.Arms.{plain};

use jr_table::Kind;

/// How an expression stands: as a value, before a dot, or as a whole statement.
#[derive(Clone, Copy, Drop)]
pub enum Role {
    Value,
    Left,
    Statement,
}

/// What an expression means to what stands around it.
#[derive(Clone, Copy, Drop)]
pub struct Meaning {
    /// Where the expression begins.
    pub at: u32,
    pub kind: Option<Kind>,
    /// The class whose name it is before a dot (JLS 6.5.2).
    pub class: Option<u32>,
    /// Where the name of a variable stands that may not be assigned (JLS 4.12.4).
    pub fixed: Option<u32>,
    /// Whether literals and final variables with initializers are all that it is made of.
    pub is_constant: bool,
}

/// An expression that names neither a class nor a variable.
pub(crate) fn plain(at: u32, kind: Option<Kind>, is_constant: bool) -> Meaning
    ensures { result ≡ plain at kind is_constant }
{
    Meaning {
        at,
        kind,
        class: None,
        fixed: None,
        is_constant,
    }
}

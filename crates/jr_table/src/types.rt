//! Types.
ghost use Rattle.std.specs.Prelude.{◌≡◌, ◌↔◌, IfOk, IsTrue};
ghost use Rattle.jr_table.specs.TypeView.{ty_of};

use crate::classes::ClassKey;
use std::alloc::AllocError;

/// A type (JLS 4.1), `void`, or the type of `null`.
#[derive(Drop)]
pub enum Ty {
    Int,
    Boolean,
    Void,
    Null,
    Class(ClassKey),
}

impl Ty {
    /// The same type once more.
    pub fn copy(&self) -> Result<Ty, AllocError>
        ensures { IfOk result (λ t. ty_of t ≡ ty_of self.now) }
    {
        match self {
            Ty::Int => Ok(Ty::Int),
            Ty::Boolean => Ok(Ty::Boolean),
            Ty::Void => Ok(Ty::Void),
            Ty::Null => Ok(Ty::Null),
            Ty::Class(key) => Ok(Ty::Class(key.copy()?)),
        }
    }
}

impl PartialEq for Ty {
    ghost use Rattle.std.specs.Ordering.{on};
    ghost use Rattle.std.specs.Cmp as order;
    ghost use Rattle.jr_table.specs.TypeView.{ty_of};
    ghost use Rattle.jr_table.specs.SameKeys.{same_ty, same_ty_equiv};

    ghost eq = { on ty_of same_ty };

    ghost laws = { order.partial_equiv_from_equiv (order.on_equiv ty_of same_ty_equiv) };

    fn eq(&self, other: &Ty) -> bool
        ensures { IsTrue result ↔ (ty_of self.now ≡ ty_of other.now) }
    {
        match (self, other) {
            (Ty::Int, Ty::Int) => true,
            (Ty::Boolean, Ty::Boolean) => true,
            (Ty::Void, Ty::Void) => true,
            (Ty::Null, Ty::Null) => true,
            (Ty::Class(left), Ty::Class(right)) => left == right,
            _ => false,
        }
    }
}

impl Eq for Ty {
    ghost use Rattle.std.specs.Cmp as order;
    ghost use Rattle.jr_table.specs.TypeView.{ty_of};
    ghost use Rattle.jr_table.specs.SameKeys.{same_ty_equiv};

    ghost laws = { order.on_equiv ty_of same_ty_equiv };
}

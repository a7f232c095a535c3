//! Lists of types.
ghost use Rattle.std.specs.Prelude.{◌≡◌, ◌↔◌, IfOk, IsTrue, map, length};
ghost use Rattle.jr_table.specs.TypeView.{ty_of};

use crate::types::Ty;
use std::alloc::AllocError;
use std::marker::Model;
use std::rc::RcSlice;

/// A list of types, as those of parameters, which its copies share. Contracts see the list.
#[derive(Drop)]
pub struct Tys {
    tys: RcSlice<Ty>,
}

impl Model for Tys {
    ghost use Rattle.std.specs.Prelude.{List, map};
    ghost use Rattle.std.specs.Rc.{rc_slice_items};
    ghost use Rattle.jr_table.specs.Keys as keys;
    ghost use Rattle.jr_table.specs.TypeView.{ty_of};

    ghost Value = { List keys.Ty };

    ghost view = { λ t. map ty_of (rc_slice_items t.tys) };
}

impl Tys {
    /// The list of these types.
    pub fn from_vec(tys: Vec<Ty>) -> Result<Tys, AllocError>
        ensures { IfOk result (λ t. t ≡ map ty_of tys.items) }
    {
        let tys = RcSlice::from_vec(tys)?;
        Ok(Tys { tys })
    }

    /// The types.
    pub fn as_slice(&self) -> &[Ty]
        ensures { map ty_of result.now ≡ self.now }
    {
        self.tys.as_slice()
    }

    /// The same list once more. The types aren't copied.
    pub fn copy(&self) -> Result<Tys, AllocError>
        ensures { IfOk result (λ t. t ≡ self.now) }
    {
        let tys = self.tys.clone()?;
        Ok(Tys { tys })
    }
}

impl PartialEq for Tys {
    ghost use Rattle.std.specs.Cmp as order;
    ghost use Rattle.jr_table.specs.SameKeys.{same_types, same_types_equiv};

    ghost eq = { same_types };

    ghost laws = { order.partial_equiv_from_equiv same_types_equiv };

    fn eq(&self, other: &Tys) -> bool
        ensures { IsTrue result ↔ (self.now ≡ other.now) }
    {
        self.as_slice() == other.as_slice()
    }
}

impl Eq for Tys {
    ghost use Rattle.jr_table.specs.SameKeys.{same_types_equiv};

    ghost laws = { same_types_equiv };
}

//! What fields, methods and constructors are known by.
ghost use Rattle.std.specs.Prelude.{◌≡◌, ◌↔◌, IfOk, IsTrue};
ghost use Rattle.jr_table.specs.KeyView.{field_key_of, method_key_of, ctor_key_of};

use crate::classes::ClassKey;
use crate::type_lists::Tys;
use jr_ast::Name;
use std::alloc::AllocError;

/// A field (JLS 8.3).
#[derive(Drop)]
pub struct FieldKey {
    pub class: ClassKey,
    pub name: Name,
}

/// A method: its class and its signature (JLS 8.4.2).
#[derive(Drop)]
pub struct MethodKey {
    pub class: ClassKey,
    pub name: Name,
    pub params: Tys,
}

/// A constructor (JLS 8.8).
#[derive(Drop)]
pub struct CtorKey {
    pub class: ClassKey,
    pub params: Tys,
}

impl FieldKey {
    /// The same key once more.
    pub fn copy(&self) -> Result<FieldKey, AllocError>
        ensures { IfOk result (λ k. field_key_of k ≡ field_key_of self.now) }
    {
        let class = self.class.copy()?;
        let name = self.name.copy()?;
        Ok(FieldKey { class, name })
    }
}

impl MethodKey {
    /// The same key once more.
    pub fn copy(&self) -> Result<MethodKey, AllocError>
        ensures { IfOk result (λ k. method_key_of k ≡ method_key_of self.now) }
    {
        let class = self.class.copy()?;
        let name = self.name.copy()?;
        let params = self.params.copy()?;
        Ok(MethodKey {
            class,
            name,
            params,
        })
    }
}

impl CtorKey {
    /// The same key once more.
    pub fn copy(&self) -> Result<CtorKey, AllocError>
        ensures { IfOk result (λ k. ctor_key_of k ≡ ctor_key_of self.now) }
    {
        let class = self.class.copy()?;
        let params = self.params.copy()?;
        Ok(CtorKey { class, params })
    }
}

impl PartialEq for FieldKey {
    ghost use Rattle.std.specs.Ordering.{on};
    ghost use Rattle.std.specs.Cmp as order;
    ghost use Rattle.jr_table.specs.KeyView.{field_key_of};
    ghost use Rattle.jr_table.specs.SameKeys.{same_field, same_field_equiv};

    ghost eq = { on field_key_of same_field };

    ghost laws = { order.partial_equiv_from_equiv (order.on_equiv field_key_of same_field_equiv) };

    fn eq(&self, other: &FieldKey) -> bool
        ensures { IsTrue result ↔ (field_key_of self.now ≡ field_key_of other.now) }
    {
        (self.name == other.name) & (self.class == other.class)
    }
}

impl Eq for FieldKey {
    ghost use Rattle.std.specs.Cmp as order;
    ghost use Rattle.jr_table.specs.KeyView.{field_key_of};
    ghost use Rattle.jr_table.specs.SameKeys.{same_field_equiv};

    ghost laws = { order.on_equiv field_key_of same_field_equiv };
}

impl PartialEq for MethodKey {
    ghost use Rattle.std.specs.Ordering.{on};
    ghost use Rattle.std.specs.Cmp as cmp;
    ghost use Rattle.jr_table.specs.KeyView.{method_key_of};
    ghost use Rattle.jr_table.specs.SameKeys.{same_method, same_method_equiv};

    ghost eq = { on method_key_of same_method };

    ghost laws = { cmp.partial_equiv_from_equiv (cmp.on_equiv method_key_of same_method_equiv) };

    fn eq(&self, other: &MethodKey) -> bool
        ensures { IsTrue result ↔ (method_key_of self.now ≡ method_key_of other.now) }
    {
        (self.name == other.name) & (self.class == other.class) & (self.params == other.params)
    }
}

impl Eq for MethodKey {
    ghost use Rattle.std.specs.Cmp as order;
    ghost use Rattle.jr_table.specs.KeyView.{method_key_of};
    ghost use Rattle.jr_table.specs.SameKeys.{same_method_equiv};

    ghost laws = { order.on_equiv method_key_of same_method_equiv };
}

impl PartialEq for CtorKey {
    ghost use Rattle.std.specs.Ordering.{on};
    ghost use Rattle.std.specs.Cmp as order;
    ghost use Rattle.jr_table.specs.KeyView.{ctor_key_of};
    ghost use Rattle.jr_table.specs.SameKeys.{same_ctor, same_ctor_equiv};

    ghost eq = { on ctor_key_of same_ctor };

    ghost laws = { order.partial_equiv_from_equiv (order.on_equiv ctor_key_of same_ctor_equiv) };

    fn eq(&self, other: &CtorKey) -> bool
        ensures { IsTrue result ↔ (ctor_key_of self.now ≡ ctor_key_of other.now) }
    {
        (self.class == other.class) & (self.params == other.params)
    }
}

impl Eq for CtorKey {
    ghost use Rattle.std.specs.Cmp as order;
    ghost use Rattle.jr_table.specs.KeyView.{ctor_key_of};
    ghost use Rattle.jr_table.specs.SameKeys.{same_ctor_equiv};

    ghost laws = { order.on_equiv ctor_key_of same_ctor_equiv };
}

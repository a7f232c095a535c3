//! What a class is known by.
ghost use Rattle.std.specs.Prelude.{◌≡◌, ◌↔◌, IfOk, IsTrue};
ghost use Rattle.jr_table.specs.TypeView.{class_key_of};

use crate::copies::copy_maybe_name;
use jr_ast::Name;
use std::alloc::AllocError;

/// A class: its name, behind that of the class that it is a member of (JLS 8.1, 8.5).
#[derive(Drop)]
pub struct ClassKey {
    pub outer: Option<Name>,
    pub name: Name,
}

impl ClassKey {
    /// The same key once more.
    pub fn copy(&self) -> Result<ClassKey, AllocError>
        ensures { IfOk result (λ k. class_key_of k ≡ class_key_of self.now) }
    {
        let outer = copy_maybe_name(&self.outer)?;
        let name = self.name.copy()?;
        Ok(ClassKey { outer, name })
    }
}

impl PartialEq for ClassKey {
    ghost use Rattle.std.specs.Ordering.{on};
    ghost use Rattle.std.specs.Cmp as order;
    ghost use Rattle.jr_table.specs.TypeView.{class_key_of};
    ghost use Rattle.jr_table.specs.SameKeys.{same_class, same_class_equiv};

    ghost eq = { on class_key_of same_class };

    ghost laws = { order.partial_equiv_from_equiv (order.on_equiv class_key_of same_class_equiv) };

    fn eq(&self, other: &ClassKey) -> bool
        ensures { IsTrue result ↔ (class_key_of self.now ≡ class_key_of other.now) }
    {
        (self.name == other.name) & (self.outer == other.outer)
    }
}

impl Eq for ClassKey {
    ghost use Rattle.std.specs.Cmp as order;
    ghost use Rattle.jr_table.specs.TypeView.{class_key_of};
    ghost use Rattle.jr_table.specs.SameKeys.{same_class_equiv};

    ghost laws = { order.on_equiv class_key_of same_class_equiv };
}

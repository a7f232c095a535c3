//! Types, and top-level classes, by the numbers of rows.
ghost use Rattle.std.specs.Prelude.{◌≡◌, IfOk, map};

use crate::classes::ClassKey;
use crate::entries::{Kind, Kinds};
use crate::numbering::{kind, kinds};
use crate::tables::Table;
use crate::types::Ty;
use jr_ast::Name;
use std::alloc::{AllocError, Global};

impl Table {
    ghost use Rattle.jr_table.specs.TypeView.{class_key_of, ty_of};
    ghost use Rattle.jr_table.specs.Entries.{class_number, kind_of, number_of, top_class};

    /// The type, by the number of its class.
    pub fn kind(&self, ty: &Ty) -> Kind
        ensures { result ≡ kind_of self.now (ty_of ty.now) }
    {
        self.keeps_rows();
        kind(self.rows(), self.classes(), ty)
    }

    /// The types, by the numbers of their classes.
    pub fn kinds(&self, alloc: Global, tys: &[Ty]) -> Result<Kinds, AllocError>
        ensures { IfOk result (λ k. k ≡ map (kind_of self.now) (map ty_of tys.now)) }
    {
        self.keeps_rows();
        kinds(alloc, self.rows(), self.classes(), tys)
    }

    /// The number of a class's row; where it has none, a number that no row has.
    pub fn number_or_none(&self, key: &ClassKey) -> u32
        ensures { result ≡ class_number self.now (class_key_of key.now) }
    {
        match self.class_number(key) {
            None => self.count(),
            Some(number) => number,
        }
    }

    /// The class of the name that is no member class.
    pub fn top_number(&self, name: &Name) -> Option<u32>
        ensures { result ≡ number_of self.now (top_class name.now) }
    {
        self.classes().find_top(name)
    }
}

//! Members, overriding and dispatch by keys.
ghost use Rattle.std.specs.Prelude.{◌≡◌, IsTrue, ◌↔◌, IfSome, IfNone, option_map};

use crate::classes::ClassKey;
use crate::decls::Decl;
use crate::entries::Entry;
use crate::keys::{FieldKey, MethodKey};
use crate::tables::Table;
use crate::types::Ty;
use crate::wanted::{Wanted, same_kinds};
use jr_ast::Name;

impl Table {
    ghost use Rattle.jr_table.specs.Keys as keys;
    ghost use Rattle.jr_table.specs.TypeView.{class_key_of, ty_of};
    ghost use Rattle.jr_table.specs.KeyView.{field_key_of, method_key_of};
    ghost use Rattle.jr_table.specs.Entries.{entries_of, field_at, method_at};
    ghost use Rattle.jr_table.specs.Keyed.{IsSubclass, Widens, IsAssignable};
    ghost use Rattle.jr_table.specs.Keyed.{HasField, Overrides, DispatchesTo};
    ghost use Rattle.jr_table.specs.Virtual.{virtual_entry, IsOver};

    /// Whether class `sub` is class `sup` or has it as a superclass, perhaps through others
    /// (JLS 8.1.4).
    pub fn is_subclass(&self, sub: &ClassKey, sup: &ClassKey) -> bool
        ensures { IsTrue result
            ↔ IsSubclass self.now (class_key_of sub.now) (class_key_of sup.now) }
    {
        self.keeps_rows();
        let Some(below) = self.class_number(sub) else {
            return false;
        };
        let Some(over) = self.class_number(sup) else {
            return false;
        };
        self.is_subclass_at(below, over)
    }

    /// Whether one type is null or a class and the other a class that takes it.
    fn widens(&self, from: &Ty, to: &Ty) -> bool
        ensures { IsTrue result ↔ Widens self.now (ty_of from.now) (ty_of to.now) }
    {
        match (from, to) {
            (Ty::Null, Ty::Class(_)) => true,
            (Ty::Class(sub), Ty::Class(sup)) => self.is_subclass(sub, sup),
            _ => false,
        }
    }

    /// Whether a value of the one type may be assigned to a variable of the other: a type to
    /// itself, a class to its superclasses, null to every class (JLS 5.2).
    pub fn is_assignable(&self, from: &Ty, to: &Ty) -> bool
        ensures { IsTrue result ↔ IsAssignable self.now (ty_of from.now) (ty_of to.now) }
    {
        if from == to {
            return true;
        }
        self.widens(from, to)
    }

    /// The field that a row declares.
    fn field_at(&self, number: u32) -> Option<&FieldKey>
        ensures { option_map (λ k. field_key_of k.now) result ≡ field_at self.now number }
    {
        match &self.rows().get(number as usize)?.decl {
            Decl::Field(key) => Some(key),
            _ => None,
        }
    }

    /// The method that a row declares.
    pub(crate) fn method_at(&self, number: u32) -> Option<&MethodKey>
        ensures { option_map (λ k. method_key_of k.now) result ≡ method_at self.now number }
    {
        match &self.rows().get(number as usize)?.decl {
            Decl::Method(key) => Some(key),
            _ => None,
        }
    }

    /// The class's member field of the name, declared or inherited; `None` exactly where it has
    /// none (JLS 8.3).
    pub fn field_member(&self, class: &ClassKey, name: &Name) -> Option<&FieldKey>
        ensures member { IfSome result
            (λ k. HasField self.now (class_key_of class.now) (field_key_of k.now)) }
        ensures named { IfSome result (λ k. k.now.name ≡ name.now) }
        ensures none { IfNone result ((k : keys.FieldKey) → k.name ≡ name.now
            → HasField self.now (class_key_of class.now) k → ⊥) }
    {
        self.keeps_rows();
        let Some(class) = self.class_number(class) else {
            return None;
        };
        let Some(number) = self.member(class, &Wanted::Field(name.as_str())) else {
            return None;
        };
        self.field_at(number)
    }

    /// The row of a method that is neither private nor static.
    fn virtual_entry(&self, number: u32) -> Option<&Entry>
        ensures { option_map (λ e. e.now) result ≡ virtual_entry (entries_of self.now) number }
    {
        let entry = self.entries().get(number as usize)?;
        if entry.is_private | entry.is_static {
            None
        } else {
            Some(entry)
        }
    }

    /// The method that a call of this method on an object of the class runs: the nearest method of
    /// its name and parameter types, from the class upwards, that is neither private nor static
    /// (JLS 15.12.4.4).
    ///
    /// `None` exactly where the method is private or static or isn't there, or where the class
    /// isn't its class or a subclass.
    pub fn dispatch(&self, class: &ClassKey, method: &MethodKey) -> Option<&MethodKey>
        ensures found { IfSome result (λ k. DispatchesTo self.now (class_key_of class.now)
            (method_key_of method.now) (method_key_of k.now)) }
        ensures none { IfNone result ((k : keys.MethodKey)
            → DispatchesTo self.now (class_key_of class.now) (method_key_of method.now) k → ⊥) }
    {
        self.keeps_rows();
        let Some(class) = self.class_number(class) else {
            return None;
        };
        let Some(number) = self.method_number(method) else {
            return None;
        };
        let Some(entry) = self.virtual_entry(number) else {
            return None;
        };
        if !self.is_subclass_at(class, entry.class) {
            return None;
        }
        let wanted = Wanted::Virtual(entry.name.as_str(), entry.params.as_slice());
        let Some(found) = self.nearest(class, &wanted) else {
            return None;
        };
        self.method_at(found)
    }

    /// Whether the one has the name and the parameter types of the other, in a class below.
    fn overrides_at(&self, over: &Entry, under: &Entry) -> bool
        ensures { IsTrue result ↔ IsOver (entries_of self.now) over.now under.now }
    {
        if over.class == under.class {
            return false;
        }
        if over.name != under.name {
            return false;
        }
        if !same_kinds(over.params.as_slice(), under.params.as_slice()) {
            return false;
        }
        self.is_subclass_at(over.class, under.class)
    }

    /// Whether one method overrides another: both are neither private nor static, have one name
    /// and the same parameter types, and the class of the one is below that of the other
    /// (JLS 8.4.8.1).
    pub fn overrides(&self, sub: &MethodKey, sup: &MethodKey) -> bool
        ensures { IsTrue result
            ↔ Overrides self.now (method_key_of sub.now) (method_key_of sup.now) }
    {
        self.keeps_rows();
        let Some(sub) = self.method_number(sub) else {
            return false;
        };
        let Some(sup) = self.method_number(sup) else {
            return false;
        };
        let Some(over) = self.virtual_entry(sub) else {
            return false;
        };
        let Some(under) = self.virtual_entry(sup) else {
            return false;
        };
        self.overrides_at(over, under)
    }
}

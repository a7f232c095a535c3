//! Rows of methods by key.
ghost use Rattle.std.specs.Prelude.{◌≡◌, ◌↔◌, IsTrue, Some};

use crate::keys::MethodKey;
use crate::tables::Table;

impl Table {
    ghost use Rattle.jr_table.specs.TypeView.{class_key_of};
    ghost use Rattle.jr_table.specs.KeyView.{method_key_of};
    ghost use Rattle.jr_table.specs.Decls.{class_decl, method_decl};
    ghost use Rattle.jr_table.specs.Entries.{IsRowOf, number_of};

    /// Whether a row declares the method.
    fn declares(&self, number: u32, key: &MethodKey) -> bool
        ensures { IsTrue result ↔ IsRowOf self.now (method_decl (method_key_of key.now)) number }
    {
        match self.method_at(number) {
            None => false,
            Some(own) => *own == *key,
        }
    }

    /// The number of a method's row, where its class has this number. Only the class's rows of the
    /// name are looked at.
    fn method_of_class(&self, class: u32, key: &MethodKey) -> Option<u32>
        requires { number_of self.now (class_decl (class_key_of key.now.class)) ≡ Some class }
        ensures { result ≡ number_of self.now (method_decl (method_key_of key.now)) }
    {
        let mut at = self.members().first(class, key.name.as_str());
        loop {
            let Some(number) = at else {
                return None;
            };
            if self.declares(number, key) {
                return Some(number);
            }
            at = self.members().next(number);
        }
    }

    /// The number of a method's row.
    pub fn method_number(&self, key: &MethodKey) -> Option<u32>
        ensures { result ≡ number_of self.now (method_decl (method_key_of key.now)) }
    {
        self.keeps_rows();
        match self.class_number(&key.class) {
            None => None,
            Some(class) => self.method_of_class(class, key),
        }
    }
}

//! All member methods of a name.
ghost use Rattle.std.specs.Prelude.{◌≡◌, IfOk, OnOk};
ghost use Rattle.std.specs.Prelude.{map, ◌++◌, option_to_list};

use crate::classes::ClassKey;
use crate::keys::MethodKey;
use crate::tables::Table;
use jr_ast::Name;
use std::alloc::{AllocError, Global};

impl Table {
    ghost use Rattle.jr_table.specs.TypeView.{class_key_of};
    ghost use Rattle.jr_table.specs.KeyView.{method_key_of};
    ghost use Rattle.jr_table.specs.Entries.{method_at};
    ghost use Rattle.jr_table.specs.MethodLists.{AreMethods};

    /// Puts the key of a method's row behind the others.
    fn push_method(&self, number: u32, keys: &mut Vec<MethodKey>) -> Result<(), AllocError>
        ensures { OnOk result (map method_key_of keys.new.items
            ≡ map method_key_of keys.old.items ++ option_to_list (method_at self.now number)) }
    {
        let Some(key) = self.method_at(number) else {
            return Ok(());
        };
        let key = key.copy()?;
        keys.push(key)?;
        Ok(())
    }

    /// The class's member methods of the name, declared and inherited, in the order of their rows
    /// (JLS 8.4.8).
    pub fn method_members(
        &self,
        alloc: Global,
        class: &ClassKey,
        name: &Name,
    ) -> Result<Vec<MethodKey>, AllocError>
        ensures { IfOk result (λ keys.
            AreMethods self.now (class_key_of class.now) name.now (map method_key_of keys.items)) }
    {
        self.keeps_rows();
        let mut keys = Vec::new(alloc);
        let Some(class) = self.class_number(class) else {
            return Ok(keys);
        };
        let numbers = self.methods_named(alloc, class, name.as_str())?;
        for number in &numbers {
            self.push_method(*number, &mut keys)?;
        }
        Ok(keys)
    }
}

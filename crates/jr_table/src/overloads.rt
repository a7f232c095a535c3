//! The methods of a name, and the constructors, of a class, by the numbers of rows.
ghost use Rattle.std.specs.Prelude.{◌≡◌, IfOk};

use crate::entries::Sort;
use crate::gathering::push_if;
use crate::tables::Table;
use std::alloc::{AllocError, Global};

impl Table {
    ghost use Rattle.jr_table.specs.Entries.{entries_of};
    ghost use Rattle.jr_table.specs.Calls as calls;

    /// The class's member methods of the name, declared and inherited, in the order of their rows
    /// (JLS 8.4.8).
    pub fn methods_named(
        &self,
        alloc: Global,
        class: u32,
        name: &str,
    ) -> Result<Vec<u32>, AllocError>
        ensures { IfOk result (λ v.
            v.items ≡ calls.methods_named (entries_of self.now) name.now class) }
    {
        let mut numbers = self.gather_methods(alloc, class, name)?;
        numbers.sort_unstable();
        Ok(numbers)
    }

    /// Whether a row is a constructor of the class.
    #[tactic(auto, unfolding(crate::specs::Calls::is_ctor))]
    fn is_ctor(&self, class: u32, number: u32) -> bool
        ensures { result ≡ calls.is_ctor (entries_of self.now) class number }
    {
        let Some(entry) = self.entry(number) else {
            return false;
        };
        match entry.sort {
            Sort::Ctor => entry.class == class,
            _ => false,
        }
    }

    /// The class's constructors, in the order of their rows (JLS 8.8).
    #[tactic(auto, unfolding(crate::specs::Calls::ctors_in))]
    pub fn ctors_in(&self, alloc: Global, class: u32) -> Result<Vec<u32>, AllocError>
        ensures { IfOk result (λ v. v.items ≡ calls.ctors_in (entries_of self.now) class) }
    {
        self.keeps_rows();
        let mut numbers = Vec::new(alloc);
        let mut next = self.members().first(class, "");
        loop {
            let Some(number) = next else {
                return Ok(numbers);
            };
            push_if(&mut numbers, number, self.is_ctor(class, number))?;
            next = self.members().next(number);
        }
    }
}

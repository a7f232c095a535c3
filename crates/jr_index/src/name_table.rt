//! Numbers by owner and name, with names of its own.
use std::alloc::{AllocError, Global};
use std::collections::HashMap;

/// Numbers by owner and name: one map an owner. The names are its own.
#[derive(Drop)]
pub struct NameTable {
    alloc: Global,
    by_owner: Vec<HashMap<String, u32>>,
}

impl NameTable {
    ghost use Rattle.std.specs.Prelude.{◌≡◌, ◌<◌, ◌+◌, ◌==◌, ◌&&◌, ℕ, List, Option, Some, None};
    ghost use Rattle.std.specs.Prelude.{IfOk, OnOk, length, if◌then◌else◌};
    ghost use Rattle.std.specs.Str.{bytes_eq};
    ghost use Rattle.jr_index.specs.NameTable.{owners, number_at};

    /// So many owners, with no names.
    pub fn of_owners(alloc: Global, count: usize) -> Result<NameTable, AllocError>
        ensures owners { IfOk result (λ t. owners t ≡ count) }
        ensures none { IfOk result (λ t. (c : ℕ) (q : List ℕ) → number_at t c q ≡ None) }
    {
        let mut by_owner = Vec::with_capacity(alloc, count)?;
        for _ in 0..count {
            by_owner.push(HashMap::new(alloc))?;
        }
        Ok(NameTable { alloc, by_owner })
    }

    /// Puts the number under the owner and the name, and answers the one before.
    pub fn put(&mut self, owner: u32, name: &str, number: u32) -> Result<Option<u32>, AllocError>
        requires { owner < owners self.old }
        ensures owners { OnOk result (owners self.new ≡ owners self.old) }
        ensures before { IfOk result (λ before. before ≡ number_at self.old owner name.now) }
        ensures found { OnOk result ((c : ℕ) (q : List ℕ) → number_at self.new c q
            ≡ (if (owner == c) && bytes_eq name.now q then Some number
            else number_at self.old c q)) }
    {
        let name = String::from_str(self.alloc, name)?;
        let names = &mut self.by_owner[owner as usize];
        let before = names.insert(name, number)?;
        Ok(before)
    }

    /// The number under the owner and the name.
    pub fn find(&self, owner: u32, name: &str) -> Option<u32>
        ensures { result ≡ number_at self.now owner name.now }
    {
        match self.by_owner.get(owner as usize) {
            None => None,
            Some(names) => names.get(name).copied(),
        }
    }
}

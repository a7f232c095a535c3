//! Numbers by owner and name.
use std::alloc::{AllocError, Global};
use std::collections::HashMap;

/// Numbers by owner and name: one map an owner. The names are borrowed.
#[derive(Drop)]
pub struct Index<'a> {
    alloc: Global,
    by_owner: Vec<HashMap<&'a str, u32>>,
}

impl<'a> Index<'a> {
    ghost use Rattle.std.specs.Prelude.{◌≡◌, ◌<◌, ◌+◌, ◌==◌, ◌&&◌, ℕ, List, Option, Some, None};
    ghost use Rattle.std.specs.Prelude.{IfOk, OnOk, length, if◌then◌else◌};
    ghost use Rattle.std.specs.Str.{bytes_eq};
    ghost use Rattle.jr_index.specs.Index.{owners, found};

    /// No owners.
    pub fn new(alloc: Global) -> Index<'a>
        ensures owners { owners result ≡ 0 }
        ensures none { (c : ℕ) (q : List ℕ) → found result c q ≡ None }
    {
        Index {
            alloc,
            by_owner: Vec::new(alloc),
        }
    }

    /// One owner more, with no names.
    pub fn add_owner(&mut self) -> Result<(), AllocError>
        ensures owners { OnOk result (owners self.new ≡ owners self.old + 1) }
        ensures found { OnOk result
            ((c : ℕ) (q : List ℕ) → found self.new c q ≡ found self.old c q) }
    {
        self.by_owner.push(HashMap::new(self.alloc))?;
        Ok(())
    }

    /// Puts the number under the owner and the name, and answers the one before.
    pub fn put(&mut self, owner: u32, name: &'a str, number: u32) -> Result<Option<u32>, AllocError>
        requires { owner < owners self.old }
        ensures owners { OnOk result (owners self.new ≡ owners self.old) }
        ensures before { IfOk result (λ before. before ≡ found self.old owner name.now) }
        ensures found { OnOk result ((c : ℕ) (q : List ℕ) → found self.new c q
            ≡ (if (c == owner) && bytes_eq name.now q then Some number else found self.old c q)) }
    {
        let names = &mut self.by_owner[owner as usize];
        let before = names.insert(name, number)?;
        Ok(before)
    }

    /// The number under the owner and the name.
    pub fn find(&self, owner: u32, name: &str) -> Option<u32>
        ensures { result ≡ found self.now owner name.now }
    {
        match self.by_owner.get(owner as usize) {
            None => None,
            Some(names) => names.get(&name).copied(),
        }
    }
}

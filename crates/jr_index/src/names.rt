//! Numbers by name.
use std::alloc::{AllocError, Global};
use std::collections::HashMap;

/// Numbers by name. The names are borrowed.
#[derive(Drop)]
pub struct Names<'a> {
    numbers: HashMap<&'a str, u32>,
}

impl<'a> Names<'a> {
    ghost use Rattle.std.specs.Prelude.{◌≡◌, ℕ, List, None, IfOk, OnOk};
    ghost use Rattle.jr_index.specs.Names.{named, PutsNumber};

    /// No names.
    pub fn new(alloc: Global) -> Names<'a>
        ensures { (q : List ℕ) → named result q ≡ None }
    {
        Names {
            numbers: HashMap::new(alloc),
        }
    }

    /// Puts the number under the name, and answers the one before.
    pub fn put(&mut self, name: &'a str, number: u32) -> Result<Option<u32>, AllocError>
        ensures before { IfOk result (λ before. before ≡ named self.old name.now) }
        ensures put { OnOk result (PutsNumber self.old name.now number self.new) }
    {
        let before = self.numbers.insert(name, number)?;
        Ok(before)
    }

    /// The number under the name.
    pub fn find(&self, name: &str) -> Option<u32>
        ensures { result ≡ named self.now name.now }
    {
        self.numbers.get(&name).copied()
    }
}

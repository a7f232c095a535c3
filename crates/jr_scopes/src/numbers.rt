//! Places by number.
use std::alloc::{AllocError, Global};
use std::collections::HashMap;

/// Places by number.
#[derive(Drop)]
pub(crate) struct Numbers {
    places: HashMap<u32, u32>,
}

impl Numbers {
    ghost use Rattle.std.specs.Prelude.{◌≡◌, ℕ, None, OnOk};
    ghost use Rattle.jr_scopes.specs.Numbers.{placed, PutsPlace};

    /// No places.
    pub(crate) fn new(alloc: Global) -> Numbers
        ensures { (n : ℕ) → placed result n ≡ None }
    {
        Numbers {
            places: HashMap::new(alloc),
        }
    }

    /// Puts the place under the number.
    pub(crate) fn put(&mut self, number: u32, place: u32) -> Result<(), AllocError>
        ensures { OnOk result (PutsPlace self.old number place self.new) }
    {
        let _before = self.places.insert(number, place)?;
        Ok(())
    }

    /// The place under the number.
    pub(crate) fn find(&self, number: u32) -> Option<u32>
        ensures { result ≡ placed self.now number }
    {
        self.places.get(&number).copied()
    }
}

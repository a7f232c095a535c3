//! Numbers by keys.
use crate::declarations::DeclaredKey;
use std::alloc::{AllocError, Global};
use std::collections::HashMap;

/// Numbers by keys of classes, or of members by their name.
#[derive(Drop)]
pub struct KeyIndex<'a> {
    numbers: HashMap<DeclaredKey<'a>, u32>,
}

impl<'a> KeyIndex<'a> {
    ghost use Rattle.std.specs.Prelude.{◌≡◌, None, IfOk, OnOk, option_map, option_and_then};
    ghost use Rattle.jr_table.specs.Keys.{ClassKey};
    ghost use Rattle.jr_build_declared.specs.DeclaredView.{declaration_key_of};
    ghost use Rattle.jr_build_declared.specs.KeyIndex.{number_at, PutsKey, PutsMaybe};

    /// No keys.
    pub fn new(alloc: Global) -> KeyIndex<'a>
        ensures { (k : ClassKey) → number_at result k ≡ None }
    {
        KeyIndex {
            numbers: HashMap::new(alloc),
        }
    }

    /// Puts the number under the key, and answers the one before.
    pub fn put(&mut self, key: &DeclaredKey<'a>, number: u32) -> Result<Option<u32>, AllocError>
        ensures before { IfOk result (λ before. before ≡ number_at self.old (declaration_key_of key.now)) }
        ensures put { OnOk result (PutsKey self.old (declaration_key_of key.now) number self.new) }
    {
        let before = self.numbers.insert(*key, number)?;
        Ok(before)
    }

    /// Puts the number under the key, if there is one, and answers the one before.
    pub fn put_maybe(
        &mut self,
        key: &Option<DeclaredKey<'a>>,
        number: u32,
    ) -> Result<Option<u32>, AllocError>
        ensures before { IfOk result (λ before.
            before ≡ option_and_then (number_at self.old) (option_map declaration_key_of key.now)) }
        ensures put { OnOk result
            (PutsMaybe self.old (option_map declaration_key_of key.now) number self.new) }
    {
        match key {
            None => Ok(None),
            Some(key) => self.put(key, number),
        }
    }

    /// The number under the key.
    pub fn find(&self, key: &DeclaredKey<'a>) -> Option<u32>
        ensures { result ≡ number_at self.now (declaration_key_of key.now) }
    {
        self.numbers.get(key).copied()
    }
}

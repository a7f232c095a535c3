//! Locals and parameters in scope.
ghost use Rattle.std.specs.Prelude.{◌≡◌};

use crate::backwards::{last_named, last_numbered};
use crate::helds::Held;
use crate::indexing::{PlaceIndex, index_behind};
use crate::restoring::Known;
use jr_ast::Name;
use std::alloc::{AllocError, Global};

/// Locals and parameters in scope, the last declared at the end. A few are looked through; where
/// there are more, each is found by its name and by its number without looking through the others.
#[derive(Drop)]
pub struct Locals<'a> {
    pub(crate) known: Vec<Known<'a>>,
    /// None as long as there never were more than a few.
    pub(crate) index: Option<PlaceIndex<'a>>,
}

impl<'a> Locals<'a> {
    ghost use Rattle.std.specs.Prelude.{[], ◌∷◌, ◌++◌, length, take, map, OnOk, option_map};
    ghost use Rattle.std.specs.Prelude.{slice_get};
    ghost use Rattle.std.specs.Str.{bytes_eq};
    ghost use Rattle.jr_scopes.specs.Helds.{held_of, last_number, numbered};
    ghost use Rattle.jr_scopes.specs.Tracked.{Tracked, Leaves, last_place, locals_of, helds_of};
    ghost use Rattle.jr_scopes.specs.Tracked.{held_in, name_in, number_in, same_number};

    /// None.
    pub fn new(alloc: Global) -> Locals<'a>
        ensures locals { locals_of result ≡ [] }
        ensures tracked { Tracked result }
    {
        Locals {
            known: Vec::new(alloc),
            index: None,
        }
    }

    /// How many there are.
    pub fn len(&self) -> usize
        ensures { result ≡ length (locals_of self.now) }
    {
        self.known.len()
    }

    /// The place of the last that has the name.
    fn place_named(&self, name: &Name) -> Option<u32>
        requires { Tracked self.now }
        ensures { result
            ≡ last_place (λ k. bytes_eq (name_in k) name.now) self.now.known.items }
    {
        match &self.index {
            None => last_named(&self.known, name),
            Some(index) => index.last_named(&self.known, name),
        }
    }

    /// The place of the last that has the number.
    fn place_numbered(&self, number: u32) -> Option<u32>
        requires { Tracked self.now }
        ensures { result
            ≡ last_place (λ k. same_number (number_in k) number) self.now.known.items }
    {
        match &self.index {
            None => last_numbered(&self.known, number),
            Some(index) => index.last_numbered(&self.known, number),
        }
    }

    fn number_at(&self, place: u32) -> Option<u32>
        ensures { result
            ≡ option_map (λ k. number_in k) (slice_get self.now.known.items place) }
    {
        match self.known.get(place as usize) {
            None => None,
            Some(known) => Some(known.held.number),
        }
    }

    fn held_at(&self, place: u32) -> Option<&Held<'a>>
        ensures { option_map (λ h. held_of h.now) result
            ≡ option_map (λ k. held_of (held_in k)) (slice_get self.now.known.items place) }
    {
        match self.known.get(place as usize) {
            None => None,
            Some(known) => Some(&known.held),
        }
    }

    /// The number of the last that has the name.
    pub fn number_named(&self, name: &Name) -> Option<u32>
        requires { Tracked self.now }
        ensures { result ≡ last_number name.now (helds_of self.now) }
    {
        match self.place_named(name) {
            None => None,
            Some(place) => self.number_at(place),
        }
    }

    /// The last that has the number.
    pub fn held_numbered(&self, number: u32) -> Option<&Held<'a>>
        requires { Tracked self.now }
        ensures { option_map (λ h. held_of h.now) result ≡ numbered number (helds_of self.now) }
    {
        match self.place_numbered(number) {
            None => None,
            Some(place) => self.held_at(place),
        }
    }

    /// Puts one behind the others.
    pub fn push(&mut self, held: Held<'a>) -> Result<(), AllocError>
        requires { Tracked self.old }
        ensures locals { OnOk result (locals_of self.new ≡ locals_of self.old ++ held.entry ∷ []) }
        ensures tracked { OnOk result (Tracked self.new) }
    {
        let last = Known {
            held,
            named: self.place_named(held.name),
            numbered: self.place_numbered(held.number),
        };
        let alloc = *self.known.allocator();
        index_behind(alloc, &mut self.index, &self.known, &last)?;
        self.known.push(last)?;
        Ok(())
    }

    /// Takes the last away.
    fn leave(&mut self) -> Result<(), AllocError>
        requires { Tracked self.old }
        ensures leaves { OnOk result (Leaves self.old self.new) }
        ensures tracked { OnOk result (Tracked self.new) }
    {
        match self.known.pop() {
            None => Ok(()),
            Some(last) => match &mut self.index {
                None => Ok(()),
                Some(index) => index.restore(&last),
            },
        }
    }

    /// Takes away all behind the first so many.
    pub fn truncate(&mut self, depth: usize) -> Result<(), AllocError>
        requires { Tracked self.old }
        ensures locals { OnOk result (locals_of self.new ≡ take depth (locals_of self.old)) }
        ensures tracked { OnOk result (Tracked self.new) }
    {
        while self.len() > depth {
            self.leave()?;
        }
        Ok(())
    }
}

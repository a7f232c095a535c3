//! Numbers by owner and name, all of one owner and name in order.
ghost use Rattle.std.specs.Prelude.{map, length};

use crate::name_table::NameTable;
use std::alloc::{AllocError, Global};

/// What a number is found by; one without an owner isn't found.
#[derive(Clone, Copy)]
pub struct Place<'a> {
    pub owner: Option<u32>,
    pub name: &'a str,
}

/// Numbers by owner and name: the first of them, and behind each the next.
#[derive(Drop)]
pub struct Linked {
    firsts: NameTable,
    nexts: Vec<Option<u32>>,
}

impl Linked {
    ghost use Rattle.std.specs.Prelude.{◌≡◌, ◌<◌, ◌+◌, ◌^◌, ℕ, suc, List, Option, Some};
    ghost use Rattle.std.specs.Prelude.{IfOk, OnOk, IfSome, slice_get};
    ghost use Rattle.jr_index.specs.NameTable.{owners};
    ghost use Rattle.jr_index.specs.Linked.{place_of, first_of, next_of, ends, AreOwned};
    ghost use Rattle.jr_index.specs.Linked.{AreLinkedFrom};

    /// So many owners and numbers, with no names.
    fn without_names(alloc: Global, owners: usize, count: usize) -> Result<Linked, AllocError>
        ensures { IfOk result (λ x. (ps : List (Option ℕ × List ℕ)) → length ps ≡ count
            → AreLinkedFrom ps owners count x) }
    {
        let nexts = vec![in alloc; None; count]?;
        let firsts = NameTable::of_owners(alloc, owners)?;
        Ok(Linked { firsts, nexts })
    }

    /// Puts a number in front of those of its place.
    fn put(&mut self, number: u32, place: Place<'_>) -> Result<(), AllocError>
        requires few { number < length (ends self.old) }
        requires owned { IfSome place.owner (λ c. c < owners self.old.firsts) }
        ensures { OnOk result ((ps : List (Option ℕ × List ℕ)) (most : ℕ)
            → slice_get ps number ≡ Some (place_of place.entry)
            → AreLinkedFrom ps most (suc number) self.old
            → AreLinkedFrom ps most number self.new) }
    {
        let Some(owner) = place.owner else {
            return Ok(());
        };
        let next = self.firsts.put(owner, place.name, number)?;
        self.nexts[number as usize] = next;
        Ok(())
    }

    /// The numbers of these places. No owner is as great as `owners`.
    pub fn of_places(
        alloc: Global,
        owners: usize,
        places: &[Place<'_>],
    ) -> Result<Linked, AllocError>
        requires few { length places.now < 2 ^ 32 }
        requires owned { AreOwned (map place_of places.now) owners }
        ensures { IfOk result (AreLinkedFrom (map place_of places.now) owners 0) }
    {
        let count = places.len();
        let mut linked = Linked::without_names(alloc, owners, count)?;
        for behind in (0..count).rev() {
            linked.put(behind as u32, places[behind])?;
        }
        Ok(linked)
    }

    /// The first number under the owner and the name.
    pub fn first(&self, owner: u32, name: &str) -> Option<u32>
        ensures { result ≡ first_of self.now owner name.now }
    {
        self.firsts.find(owner, name)
    }

    /// The next number under the owner and the name of a number.
    pub fn next(&self, number: u32) -> Option<u32>
        ensures { result ≡ next_of self.now number }
    {
        match self.nexts.get(number as usize) {
            None => None,
            Some(next) => *next,
        }
    }
}

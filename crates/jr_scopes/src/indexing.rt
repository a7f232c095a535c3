//! The places of the last ones by name and by number, in place of a search.
ghost use Rattle.std.specs.Prelude.{◌≡◌, [], ◌∷◌, ◌++◌, IfOk, OnOk, slice_get};
ghost use Rattle.std.specs.Str.{bytes_eq};
ghost use Rattle.jr_scopes.specs.Places as pure;
ghost use Rattle.jr_scopes.specs.Tracked.{last_place, name_in, number_in, same_number};
ghost use Rattle.jr_scopes.specs.Tracked.{Finds, IsIndexed};
ghost use Rattle.jr_scopes.specs.Restoring.{Restores};

use crate::backwards::FEW;
use crate::numbers::Numbers;
use crate::restoring::{Known, restore_name, restore_number};
use jr_ast::Name;
use jr_index::Names;
use std::alloc::{AllocError, Global};

/// The place of the last of each name, and of each number. What is gone may still be found.
#[derive(Drop)]
pub(crate) struct PlaceIndex<'a> {
    names: Names<'a>,
    numbers: Numbers,
}

/// A count as a place. More locals than places don't fit any memory.
fn place_of(count: usize) -> Result<u32, AllocError>
    ensures { IfOk result (λ place. place ≡ count) }
{
    match u32::try_from(count) {
        Ok(place) => Ok(place),
        Err(_) => Err(AllocError),
    }
}

/// Whether the local at a place has the name.
fn is_named(known: &[Known<'_>], place: u32, name: &Name) -> bool
    ensures { result ≡ pure.passes_at (λ k. bytes_eq (name_in k) name.now)
        (slice_get known.now place) }
{
    match known.get(place as usize) {
        None => false,
        Some(known) => known.has_name(name),
    }
}

/// Whether the local at a place has the number.
fn is_numbered(known: &[Known<'_>], place: u32, number: u32) -> bool
    ensures { result ≡ pure.passes_at (λ k. same_number (number_in k) number)
        (slice_get known.now place) }
{
    match known.get(place as usize) {
        None => false,
        Some(known) => known.has_number(number),
    }
}

impl<'a> PlaceIndex<'a> {
    /// No places.
    fn new(alloc: Global) -> PlaceIndex<'a>
        ensures { Finds result [] }
    {
        PlaceIndex {
            names: Names::new(alloc),
            numbers: Numbers::new(alloc),
        }
    }

    /// Puts in one that comes behind those that are known.
    fn put(&mut self, known: &[Known<'a>], last: &Known<'a>) -> Result<(), AllocError>
        requires { Finds self.old known.now }
        ensures { OnOk result (Finds self.new (known.now ++ last.now ∷ [])) }
    {
        let place = place_of(known.len())?;
        let _before = self.names.put(last.held.name.as_str(), place)?;
        self.numbers.put(last.held.number, place)
    }

    /// The index of all that is known.
    fn of_known(alloc: Global, known: &[Known<'a>]) -> Result<PlaceIndex<'a>, AllocError>
        ensures { IfOk result (λ index. Finds index known.now) }
    {
        let mut index = PlaceIndex::new(alloc);
        for place in 0..known.len() {
            index.put(&known[..place], &known[place])?;
        }
        Ok(index)
    }

    /// Puts back the places of those before one that is gone.
    pub(crate) fn restore(&mut self, gone: &Known<'a>) -> Result<(), AllocError>
        ensures { OnOk result (Restores self.old gone.now self.new) }
    {
        restore_name(&mut self.names, gone.held.name, gone.named)?;
        restore_number(&mut self.numbers, gone.held.number, gone.numbered)
    }

    /// The place of the last that has the name.
    pub(crate) fn last_named(&self, known: &[Known<'a>], name: &Name) -> Option<u32>
        requires { Finds self.now known.now }
        ensures { result ≡ last_place (λ k. bytes_eq (name_in k) name.now) known.now }
    {
        match self.names.find(name.as_str()) {
            None => None,
            Some(place) => {
                if is_named(known, place, name) {
                    Some(place)
                } else {
                    None
                }
            }
        }
    }

    /// The place of the last that has the number.
    pub(crate) fn last_numbered(&self, known: &[Known<'a>], number: u32) -> Option<u32>
        requires { Finds self.now known.now }
        ensures { result ≡ last_place (λ k. same_number (number_in k) number) known.now }
    {
        match self.numbers.find(number) {
            None => None,
            Some(place) => {
                if is_numbered(known, place, number) {
                    Some(place)
                } else {
                    None
                }
            }
        }
    }
}

/// Puts one that comes behind those that are known into the index. There is one from the time on
/// when they are no longer few.
pub(crate) fn index_behind<'a>(
    alloc: Global,
    index: &mut Option<PlaceIndex<'a>>,
    known: &[Known<'a>],
    last: &Known<'a>,
) -> Result<(), AllocError>
    requires { IsIndexed index.old known.now }
    ensures { OnOk result (IsIndexed index.new (known.now ++ last.now ∷ [])) }
{
    match index {
        Some(index) => index.put(known, last),
        None => {
            if known.len() < FEW {
                return Ok(());
            }
            let mut made = PlaceIndex::of_known(alloc, known)?;
            made.put(known, last)?;
            *index = Some(made);
            Ok(())
        }
    }
}

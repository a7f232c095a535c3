//! Where a member refers to a declaration.
ghost use Rattle.std.specs.Prelude.{◌≡◌, ◌↔◌, ◌+◌, ◌++◌, Some, IfOk, IsTrue, OnOk};
ghost use Rattle.jr_table.specs.KeyView.{decl_of};
ghost use Rattle.jr_bind.specs.Bounds.{decl_in};
ghost use Rattle.jr_local_moves.specs.ReferencePlaces as pure;

use jr_bind::Bound;
use jr_table::{Decl, Facts};
use std::alloc::{AllocError, Global};

/// The byte of a file, of one that is counted from the first byte of a member. No text has more
/// bytes than there are numbers. The only fault is want of memory.
pub fn place_of(start: u32, at: u32) -> Result<u32, AllocError>
    ensures { IfOk result (λ n. n ≡ start + at) }
{
    match start.checked_add(at) {
        None => Err(AllocError),
        Some(place) => Ok(place),
    }
}

/// Whether what is found at the place is the declaration.
fn is_bound(bound: &Bound, at: u32, wanted: &Decl) -> bool
    ensures { IsTrue result ↔ (decl_in bound.now.references at ≡ Some (decl_of wanted.now)) }
{
    match bound.decl(at) {
        None => false,
        Some(decl) => *decl == *wanted,
    }
}

/// Puts the byte of a place, if what is found there is the declaration.
fn add_place(
    start: u32,
    wanted: &Decl,
    bound: &Bound,
    at: u32,
    places: &mut Vec<u32>,
) -> Result<(), AllocError>
    ensures { OnOk result (places.new.items ≡ places.old.items
        ++ pure.place_if start (decl_of wanted.now) at (decl_in bound.now.references at)) }
{
    if !is_bound(bound, at, wanted) {
        return Ok(());
    }
    let place = place_of(start, at)?;
    places.push(place)?;
    Ok(())
}

/// The bytes of the file where the references of a member begin that are bound to the declaration,
/// in their order (JLS 6.1). The member begins at the byte `start`. The only fault is want of
/// memory.
pub fn places_of(
    alloc: Global,
    start: u32,
    wanted: &Decl,
    bound: &Bound,
) -> Result<Vec<u32>, AllocError>
    ensures { IfOk result (λ v. v.items
        ≡ pure.places_of start (decl_of wanted.now) bound.now.references bound.now.references) }
{
    let mut places = Vec::new(alloc);
    for reference in bound.references() {
        add_place(start, wanted, bound, reference.at, &mut places)?;
    }
    Ok(places)
}

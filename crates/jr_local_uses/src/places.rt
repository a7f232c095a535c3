//! The bytes of the references to a local, in their order.
ghost use Rattle.std.specs.Prelude.{◌≡◌, ◌+◌, ◌<◌, ◌^◌, ℕ, IfOk, IsTrue, Some, slice_get};
ghost use Rattle.jr_table.specs.Decls as decls;
ghost use Rattle.jr_table.specs.KeyView.{decl_of, local_key_of};
ghost use Rattle.jr_local_uses.specs.LocalPlaces.{AreInOrder, ArePlaces};

use jr_bind::Bound;
use jr_local_moves::places_of;
use jr_table::{Decl, LocalKey};
use std::alloc::{AllocError, Global};

/// The local as a declaration.
fn decl_of_local(key: &LocalKey) -> Result<Decl, AllocError>
    ensures { IfOk result (λ d. decl_of d ≡ decls.local_decl (local_key_of key.now)) }
{
    let copied = key.copy()?;
    Ok(Decl::Local(copied))
}

/// The same bytes in their order.
fn in_order(places: Vec<u32>) -> Result<Vec<u32>, AllocError>
    ensures { IfOk result (λ v. AreInOrder places.items v.items) }
{
    let mut places = places;
    places.sort()?;
    Ok(places)
}

/// The bytes of the file where the references of a member begin that are bound to the local, in
/// their order. The member begins at the byte `start`. The only fault is want of memory.
pub(crate) fn local_places(
    alloc: Global,
    start: u32,
    key: &LocalKey,
    bound: &Bound,
) -> Result<Vec<u32>, AllocError>
    ensures { IfOk result (λ v. ArePlaces start (decls.local_decl (local_key_of key.now))
        bound.now.references v.items) }
{
    let wanted = decl_of_local(key)?;
    let found = places_of(alloc, start, &wanted, bound);
    drop(wanted);
    let places = found?;
    in_order(places)
}

/// Whether so many bytes from the place on have numbers.
fn fits(at: u32, size: u32) -> bool
    ensures { IsTrue result → at + size < 2 ^ 32 }
{
    let room = u32::MAX - at;
    if size > room {
        return false;
    }
    true
}

/// Nothing, where so many bytes from each of the places on have numbers. No text has more bytes
/// than there are numbers, so that the only fault is want of memory.
pub(crate) fn all_fit(places: &[u32], size: u32) -> Result<(), AllocError>
    ensures { IfOk result
        (λ _. (i n : ℕ) → slice_get places.now i ≡ Some n → n + size < 2 ^ 32) }
{
    for at in places {
        if !fits(*at, size) {
            return Err(AllocError);
        }
    }
    Ok(())
}

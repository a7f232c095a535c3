//! Changes of dispatch by a rename.
ghost use Rattle.std.specs.Prelude.{◌≡◌, ℕ, IfOk, IfSome, IfNone, option_map, option_and_then};
ghost use Rattle.std.specs.Prelude.{map, slice_get};
ghost use Rattle.jr_table.specs.Keys as keys;
ghost use Rattle.jr_table.specs.Entries.{method_at};
ghost use Rattle.jr_table.specs.TypeView.{class_key_of};
ghost use Rattle.jr_table.specs.KeyView.{method_key_of};
ghost use Rattle.jr_images.specs.Images.{rows_to};
ghost use Rattle.jr_images.specs.ImageView.{renaming_of};
ghost use Rattle.jr_images.specs.Regions.{images_of};
ghost use Rattle.jr_plan.specs.Reasons.{ChangesDispatch, IsFirstChange};
ghost use Rattle.jr_dispatch.specs.Keys.{class_at};
ghost use Rattle.jr_dispatch.specs.Kept.{DispatchIsKept};

use crate::changes::first_change;
use jr_images::NewName;
use jr_table::{ClassKey, Decl, MethodKey, Table};
use std::alloc::{AllocError, Global};

/// The class that a row declares.
fn class_of_row(table: &Table, number: u32) -> Option<&ClassKey>
    ensures { option_map (λ k. class_key_of k.now) result ≡ class_at table.now number }
{
    match &table.rows().get(number as usize)?.decl {
        Decl::Class(key) => Some(key),
        _ => None,
    }
}

/// The method that a row declares.
fn method_of_row(table: &Table, number: u32) -> Option<&MethodKey>
    ensures { option_map (λ k. method_key_of k.now) result ≡ method_at table.now number }
{
    match &table.rows().get(number as usize)?.decl {
        Decl::Method(key) => Some(key),
        _ => None,
    }
}

/// The first class, in file and text order, and then its first method, that the renaming lets be
/// dispatched to another method than the image of the old one (JLS 15.12.4.4); `None` exactly
/// where there is none. `old` has the rows of the old program, `new` their images.
///
/// Only methods of the names that change, and the classes above them, are asked; and if dispatch
/// changes, the classes below.
pub fn dispatch_change(
    alloc: Global,
    old: &Table,
    new: &Table,
    g: &NewName,
) -> Result<Option<(ClassKey, MethodKey)>, AllocError>
    requires { new.now ≡ rows_to (renaming_of g.now) old.now }
    ensures first { IfOk result (λ o. IfSome o (λ p. IsFirstChange old.now
        (images_of old.now (renaming_of g.now)) (class_key_of p.0) (method_key_of p.1))) }
    ensures none { IfOk result (λ o. IfNone o ((k : keys.ClassKey) (m : keys.MethodKey)
        → ChangesDispatch old.now (images_of old.now (renaming_of g.now)) k m → ⊥)) }
{
    old.keeps_rows();
    new.keeps_rows();
    let found = first_change(alloc, old, new)?;
    let Some(place) = found else {
        return Ok(None);
    };
    let Some(class) = class_of_row(old, place.0) else {
        return Ok(None);
    };
    let Some(method) = method_of_row(old, place.1) else {
        return Ok(None);
    };
    let of = class.copy()?;
    let key = method.copy()?;
    Ok(Some((of, key)))
}

/// Where a renaming changes no dispatch, dispatch in the new program is the image of the old one,
/// for each method and each class on whose objects it is dispatched (JLS 15.12.4.4). Nothing is run
/// by it.
pub fn dispatch_is_kept()
    ensures { DispatchIsKept }
{}

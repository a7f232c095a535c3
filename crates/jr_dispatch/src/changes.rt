//! The first change of dispatch between two programs that differ in names alone, by numbers.
ghost use Rattle.std.specs.Prelude.{◌≡◌, ◌↔◌, ℕ, IsTrue, IfOk, IfSome, IfNone};
ghost use Rattle.jr_table.specs.Entries.{entries_of};
ghost use Rattle.jr_table.specs.Chains.{In, IsSubclassAt};
ghost use Rattle.jr_dispatch.specs.Changes.{
  AreAlike,
  ArePartedClasses,
  ChangesAt,
  IsClassAt,
  IsFirst,
  IsFirstChangeAt,
  IsLowClass,
};

use crate::moves::moves;
use crate::parts::{differ, parted_classes};
use crate::tops::{is_own, virtual_like};
use jr_table::{Sort, Table, Wanted};
use std::alloc::{AllocError, Global};

/// Whether the row declares a class.
fn is_class(table: &Table, number: u32) -> bool
    ensures { IsTrue result ↔ IsClassAt (entries_of table.now) number }
{
    let Some(entry) = table.entry(number) else {
        return false;
    };
    match entry.sort {
        Sort::Class => true,
        Sort::Field => false,
        Sort::Method => false,
        Sort::Ctor => false,
        Sort::Local => false,
    }
}

/// Whether a row is below one of these classes.
fn is_below_one(table: &Table, class: u32, lows: &[u32]) -> bool
    ensures { IsTrue result
        ↔ ((d : ℕ) × In lows.now d × IsSubclassAt (entries_of table.now) class d) }
{
    for low in lows {
        if table.is_subclass_at(class, *low) {
            return true;
        }
    }
    false
}

/// Whether a row is a class below one of these.
fn is_low(table: &Table, lows: &[u32], number: u32) -> bool
    ensures { IsTrue result ↔ IsLowClass (entries_of table.now) lows.now number }
{
    if !is_class(table, number) {
        return false;
    }
    is_below_one(table, number, lows)
}

/// The first class that is below one of these.
fn first_low(table: &Table, lows: &[u32]) -> Option<u32>
    ensures some { IfSome result (IsFirst (IsLowClass (entries_of table.now) lows.now)) }
    ensures none { IfNone result ((c : ℕ) → IsLowClass (entries_of table.now) lows.now c → ⊥) }
{
    for number in 0..table.count() {
        if is_low(table, lows, number) {
            return Some(number);
        }
    }
    None
}

/// Whether dispatch of the method of a row changes on an object of the class.
fn changes_at(old: &Table, new: &Table, class: u32, number: u32) -> bool
    requires { AreAlike (entries_of old.now) (entries_of new.now) }
    ensures { IsTrue result ↔ ChangesAt (entries_of old.now) (entries_of new.now) class number }
{
    old.keeps_rows();
    new.keeps_rows();
    let Some(entry) = old.entry(number) else {
        return false;
    };
    let Some(image) = new.entry(number) else {
        return false;
    };
    if !old.is_subclass_at(class, entry.class) {
        return false;
    }
    let was = virtual_like(entry);
    let now = virtual_like(image);
    if !is_own(old, entry.class, &was, number) {
        return false;
    }
    differ(old.nearest(class, &was), new.nearest(class, &now))
}

/// The first method of which dispatch changes on an object of the class.
fn first_method(old: &Table, new: &Table, class: u32) -> Option<u32>
    requires { AreAlike (entries_of old.now) (entries_of new.now) }
    ensures some { IfSome result
        (IsFirst (ChangesAt (entries_of old.now) (entries_of new.now) class)) }
    ensures none { IfNone result ((j : ℕ)
        → ChangesAt (entries_of old.now) (entries_of new.now) class j → ⊥) }
{
    for number in 0..old.count() {
        if changes_at(old, new, class, number) {
            return Some(number);
        }
    }
    None
}

/// The first class and its first method.
fn first_among(old: &Table, new: &Table, lows: &[u32]) -> Option<(u32, u32)>
    requires alike { AreAlike (entries_of old.now) (entries_of new.now) }
    requires lows { ArePartedClasses (entries_of old.now) (entries_of new.now) lows.now }
    ensures some { IfSome result (λ p.
        IsFirstChangeAt (entries_of old.now) (entries_of new.now) p.0 p.1) }
    ensures none { IfNone result ((c j : ℕ) → IsClassAt (entries_of old.now) c
        → ChangesAt (entries_of old.now) (entries_of new.now) c j → ⊥) }
{
    old.keeps_rows();
    new.keeps_rows();
    let Some(class) = first_low(old, lows) else {
        return None;
    };
    let Some(method) = first_method(old, new, class) else {
        return None;
    };
    Some((class, method))
}

/// The first class, and then the first method, for which dispatch is another.
///
/// A class is one of those exactly where it is below a method that has its name together with
/// another method, at or above its class, in one of the programs alone. So a walk over the rows
/// finds those methods first, among the methods of the names that change: for each its class and
/// the classes above are asked, and where there is none, dispatch is asked of no class.
pub(crate) fn first_change(
    alloc: Global,
    old: &Table,
    new: &Table,
) -> Result<Option<(u32, u32)>, AllocError>
    requires { AreAlike (entries_of old.now) (entries_of new.now) }
    ensures some { IfOk result (λ o. IfSome o (λ p.
        IsFirstChangeAt (entries_of old.now) (entries_of new.now) p.0 p.1)) }
    ensures none { IfOk result (λ o. IfNone o ((c j : ℕ) → IsClassAt (entries_of old.now) c
        → ChangesAt (entries_of old.now) (entries_of new.now) c j → ⊥)) }
{
    let moves = moves(alloc, old, new)?;
    let lows = parted_classes(alloc, old, new, moves.as_slice())?;
    Ok(first_among(old, new, lows.as_slice()))
}

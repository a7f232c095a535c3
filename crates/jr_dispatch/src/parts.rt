//! Methods that have their name together with others in one of two programs alone.
ghost use Rattle.std.specs.Prelude.{◌≡◌, ◌≢◌, ◌↔◌, ◌⊎◌, ℕ, IsTrue, IfOk, OnOk, length};
ghost use Rattle.jr_table.specs.Entries.{entries_of};
ghost use Rattle.jr_table.specs.Chains.{In};
ghost use Rattle.jr_table.specs.Looking.{own_row};
ghost use Rattle.jr_table.specs.Wanted.{passes};
ghost use Rattle.jr_dispatch.specs.Changes.{AreAlike, DiffersAbove, IsParted, ArePartedClasses};
ghost use Rattle.jr_dispatch.specs.Changes.{AreMethodTests, AreUnparted};
ghost use Rattle.jr_dispatch.specs.Moves.{AreMoves};

use crate::marks::{is_marked, mark, no_marks};
use crate::moves::is_asked;
use crate::tops::{is_own, virtual_like};
use jr_table::{Table, Wanted};
use std::alloc::{AllocError, Global};

/// Whether two numbers, if there are any, differ.
pub(crate) fn differ(left: Option<u32>, right: Option<u32>) -> bool
    ensures { IsTrue result ↔ (left ≢ right) }
{
    match (left, right) {
        (None, None) => false,
        (None, Some(_)) => true,
        (Some(_), None) => true,
        (Some(left), Some(right)) => left != right,
    }
}

/// Whether the class declares in the old program another row of the one kind than of the other
/// kind in the new one.
fn differs_at(old: &Table, new: &Table, was: &Wanted<'_>, now: &Wanted<'_>, class: u32) -> bool
    ensures { IsTrue result ↔ (own_row (entries_of old.now) (passes was.now) class
        ≢ own_row (entries_of new.now) (passes now.now) class) }
{
    differ(old.own(class, was), new.own(class, now))
}

/// Whether a class does so, from this one upwards. From a row that is marked upwards none is asked.
fn differs_above(
    old: &Table,
    new: &Table,
    marks: &[bool],
    was: &Wanted<'_>,
    now: &Wanted<'_>,
    class: u32,
) -> bool
    requires tests { AreMethodTests (passes was.now) (passes now.now) }
    requires unparted { AreUnparted (entries_of old.now) (entries_of new.now) marks.now }
    ensures { IsTrue result ↔ DiffersAbove (entries_of old.now) (entries_of new.now)
        (passes was.now) (passes now.now) class }
{
    old.keeps_rows();
    let mut at = class;
    loop {
        if differs_at(old, new, was, now, at) {
            return true;
        }
        if is_marked(marks, old.own(at, was)) {
            return false;
        }
        let Some(parent) = old.parent_of(at) else {
            return false;
        };
        at = parent;
    }
}

/// Marks the rows of the one kind that the class and those above it declare, up to one that is
/// marked.
fn mark_above(
    old: &Table,
    new: &Table,
    marks: &mut Vec<bool>,
    was: &Wanted<'_>,
    now: &Wanted<'_>,
    class: u32,
)
    requires tests { AreMethodTests (passes was.now) (passes now.now) }
    requires unparted { AreUnparted (entries_of old.now) (entries_of new.now) marks.old.items }
    requires none { DiffersAbove (entries_of old.now) (entries_of new.now)
        (passes was.now) (passes now.now) class → ⊥ }
    ensures { AreUnparted (entries_of old.now) (entries_of new.now) marks.new.items }
{
    old.keeps_rows();
    let mut at = class;
    loop {
        let row = old.own(at, was);
        if is_marked(marks.as_slice(), row) {
            return;
        }
        mark(marks, row);
        let Some(parent) = old.parent_of(at) else {
            return;
        };
        at = parent;
    }
}

/// Puts the class of a method behind the others, if the method has its name together with one of
/// a class from there upwards in one of the programs alone. Only methods that have one of the
/// names that change are asked.
fn push_parted(
    old: &Table,
    new: &Table,
    moves: &[u32],
    number: u32,
    marks: &mut Vec<bool>,
    lows: &mut Vec<u32>,
) -> Result<(), AllocError>
    requires unparted { AreUnparted (entries_of old.now) (entries_of new.now) marks.old.items }
    requires alike { AreAlike (entries_of old.now) (entries_of new.now) }
    requires moves { AreMoves (entries_of old.now) (entries_of new.now) (length old.now) moves.now }
    ensures lows { OnOk result ((c : ℕ) → In lows.new.items c ↔ (In lows.old.items c
        ⊎ IsParted (entries_of old.now) (entries_of new.now) c number)) }
    ensures unparted { AreUnparted (entries_of old.now) (entries_of new.now) marks.new.items }
{
    old.keeps_rows();
    new.keeps_rows();
    let Some(entry) = old.entry(number) else {
        return Ok(());
    };
    if !is_asked(old, new, moves, entry.name.as_str()) {
        return Ok(());
    }
    let Some(image) = new.entry(number) else {
        return Ok(());
    };
    let was = virtual_like(entry);
    let now = virtual_like(image);
    if !is_own(old, entry.class, &was, number) {
        return Ok(());
    }
    if !differs_above(old, new, marks.as_slice(), &was, &now, entry.class) {
        mark_above(old, new, marks, &was, &now, entry.class);
        return Ok(());
    }
    lows.push(entry.class)?;
    Ok(())
}

/// The classes of all methods that have their name together with others in one of the programs
/// alone.
pub(crate) fn parted_classes(
    alloc: Global,
    old: &Table,
    new: &Table,
    moves: &[u32],
) -> Result<Vec<u32>, AllocError>
    requires alike { AreAlike (entries_of old.now) (entries_of new.now) }
    requires moves { AreMoves (entries_of old.now) (entries_of new.now) (length old.now) moves.now }
    ensures { IfOk result (λ v.
        ArePartedClasses (entries_of old.now) (entries_of new.now) v.items) }
{
    let mut lows = Vec::new(alloc);
    let mut marks = no_marks(alloc, old.count() as usize)?;
    for number in 0..old.count() {
        push_parted(old, new, moves, number, &mut marks, &mut lows)?;
    }
    Ok(lows)
}

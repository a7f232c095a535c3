//! Names that rows have in one program and not in another.
ghost use Rattle.std.specs.Prelude.{◌≡◌, ◌+◌, IfOk, OnOk, length};
ghost use Rattle.std.specs.List.{list_any};
ghost use Rattle.jr_table.specs.Entries.{entries_of};
ghost use Rattle.jr_dispatch.specs.Moves as pure;
ghost use Rattle.jr_dispatch.specs.Moves.{AreMoves};

use jr_table::Table;
use std::alloc::{AllocError, Global};

/// Whether the row has the name.
fn is_named(table: &Table, name: &str, number: u32) -> bool
    ensures { result ≡ pure.is_named (entries_of table.now) name.now number }
{
    match table.entry(number) {
        None => false,
        Some(entry) => entry.name.as_str() == name,
    }
}

/// Whether the row has the one name in the old program and the other in the new one.
fn goes_from(old: &Table, new: &Table, was: &str, now: &str, number: u32) -> bool
    ensures { result
        ≡ pure.goes_from (entries_of old.now) (entries_of new.now) was.now now.now number }
{
    is_named(old, was, number) & is_named(new, now, number)
}

/// Whether one of these rows has the two names.
fn one_goes(old: &Table, new: &Table, was: &str, now: &str, numbers: &[u32]) -> bool
    ensures { result ≡ list_any
        (pure.goes_from (entries_of old.now) (entries_of new.now) was.now now.now) numbers.now }
{
    numbers
        .iter()
        .any(|number| goes_from(old, new, was, now, *number))
}

/// Puts a row behind the others, if its name changes as that of none of them does.
fn push_move(
    old: &Table,
    new: &Table,
    number: u32,
    numbers: &mut Vec<u32>,
) -> Result<(), AllocError>
    ensures { OnOk result
        (AreMoves (entries_of old.now) (entries_of new.now) number numbers.old.items
        → AreMoves (entries_of old.now) (entries_of new.now) (number + 1) numbers.new.items) }
{
    let Some(entry) = old.entry(number) else {
        return Ok(());
    };
    let Some(image) = new.entry(number) else {
        return Ok(());
    };
    let was = entry.name.as_str();
    let now = image.name.as_str();
    if was == now {
        return Ok(());
    }
    if one_goes(old, new, was, now, numbers.as_slice()) {
        return Ok(());
    }
    numbers.push(number)?;
    Ok(())
}

/// Rows whose names change: one for each name that becomes another. Of a rename these are few,
/// whatever the size of the program.
pub(crate) fn moves(alloc: Global, old: &Table, new: &Table) -> Result<Vec<u32>, AllocError>
    ensures { IfOk result (λ v.
        AreMoves (entries_of old.now) (entries_of new.now) (length old.now) v.items) }
{
    let mut numbers = Vec::new(alloc);
    for number in 0..old.count() {
        push_move(old, new, number, &mut numbers)?;
    }
    Ok(numbers)
}

fn is_either(old: &Table, new: &Table, name: &str, number: u32) -> bool
    ensures { result
        ≡ pure.is_either (entries_of old.now) (entries_of new.now) name.now number }
{
    is_named(old, name, number) | is_named(new, name, number)
}

/// Whether one of these rows has the name in one of the programs.
pub(crate) fn is_asked(old: &Table, new: &Table, moves: &[u32], name: &str) -> bool
    ensures { result
        ≡ pure.is_asked (entries_of old.now) (entries_of new.now) moves.now name.now }
{
    moves
        .iter()
        .any(|number| is_either(old, new, name, *number))
}

//! Notes of single kinds.
ghost use Rattle.std.specs.Prelude.{◌≡◌, ◌++◌, List, IfOk, is_some, option_and_then};
ghost use Rattle.std.specs.Prelude.{slice_get};
ghost use Rattle.jr_table.specs.Rows.{Row};
ghost use Rattle.jr_table.specs.Entries.{entries_of};
ghost use Rattle.jr_table.specs.Lookup.{decl_at, shown};
ghost use Rattle.jr_table.specs.Notes.{breaks, when, unless, test_found, is_static_decl};
ghost use Rattle.jr_table.specs.Notes.{is_instance_decl};
ghost use Rattle.jr_bind_expr.specs.Places.{member_of};
ghost use Rattle.jr_bind_expr.specs.Logs.{notes_of};
ghost use Rattle.jr_bind_expr.specs.Means.{fixed_notes};
ghost use Rattle.jr_bind_expr.specs.Arms as pure;

use crate::findings::Note;
use crate::places::Place;
use crate::rows::decl_at;
use jr_table::{Answer, Rule, Table};
use std::alloc::AllocError;

/// Notes a rule, where it is broken.
pub fn put_raw(is_broken: bool, at: u32, rule: Rule, log: &mut Vec<Note>) -> Result<(), AllocError>
    ensures { IfOk result (λ _. pure.PutsWhen is_broken at rule log.old.items log.new.items) }
{
    if is_broken {
        log.push(Note::Breaks { at, rule })?;
    }
    Ok(())
}

/// Notes a rule, where it is broken, in the log of a place's member.
pub fn put_when(
    table: &Table,
    place: &Place<'_>,
    is_broken: bool,
    at: u32,
    rule: Rule,
    log: &mut Vec<Note>,
) -> Result<(), AllocError>
    ensures { IfOk result (λ _. notes_of table.now (member_of place.now) log.new.items
        ≡ notes_of table.now (member_of place.now) log.old.items
        ++ when is_broken (breaks at rule)) }
{
    let _rows = table.count();
    put_raw(is_broken, at, rule, log)
}

/// Notes a rule, unless it is kept.
pub fn put_unless(
    table: &Table,
    place: &Place<'_>,
    is_kept: bool,
    at: u32,
    rule: Rule,
    log: &mut Vec<Note>,
) -> Result<(), AllocError>
    ensures { IfOk result (λ _. notes_of table.now (member_of place.now) log.new.items
        ≡ notes_of table.now (member_of place.now) log.old.items
        ++ unless is_kept (breaks at rule)) }
{
    put_when(table, place, !is_kept, at, rule, log)
}

/// Notes an assignment to what may not be assigned.
pub(crate) fn put_fixed(
    table: &Table,
    place: &Place<'_>,
    fixed: Option<u32>,
    log: &mut Vec<Note>,
) -> Result<(), AllocError>
    ensures { IfOk result (λ _. notes_of table.now (member_of place.now) log.new.items
        ≡ notes_of table.now (member_of place.now) log.old.items ++ fixed_notes fixed) }
{
    match fixed {
        None => Ok(()),
        Some(at) => put_when(table, place, true, at, Rule::FinalAssigned, log),
    }
}

/// The place of a name that may not be assigned.
pub(crate) fn fixed_at(is_fixed: bool, at: u32) -> Option<u32>
    ensures { fixed_notes result ≡ when is_fixed (breaks at Rule.FinalAssigned) }
{
    if is_fixed { Some(at) } else { None }
}

/// Whether there is such a row.
fn is_row(table: &Table, number: u32) -> bool
    ensures { result ≡ is_some (decl_at table.now number) }
{
    match decl_at(table, number) {
        None => false,
        Some(_) => true,
    }
}

/// Whether nothing is found.
pub fn is_nothing(table: &Table, answer: Answer) -> bool
    ensures { result ≡ pure.is_nothing (shown table.now answer) }
{
    match answer {
        Answer::Nothing => true,
        Answer::One(number) => !is_row(table, number),
        Answer::Many(first, second) => !(is_row(table, first) & is_row(table, second)),
        Answer::NotAccessible(number) => !is_row(table, number),
        Answer::FromStatic(number) => !is_row(table, number),
    }
}

fn is_static_row(table: &Table, number: u32) -> bool
    ensures { result ≡ pure.is_static_entry (slice_get (entries_of table.now) number) }
{
    match table.entry(number) {
        None => false,
        Some(entry) => entry.is_static,
    }
}

fn is_instance_row(table: &Table, number: u32) -> bool
    ensures { result ≡ pure.is_instance_entry (slice_get (entries_of table.now) number) }
{
    match table.entry(number) {
        None => false,
        Some(entry) => !entry.is_static,
    }
}

/// The row, where one declaration is found.
pub fn one_row(answer: Answer) -> Option<u32>
    ensures { (rows : List Row) → option_and_then (decl_at rows) result
        ≡ pure.one_decl (shown rows answer) }
{
    match answer {
        Answer::One(number) => Some(number),
        Answer::Nothing => None,
        Answer::Many(_, _) => None,
        Answer::NotAccessible(_) => None,
        Answer::FromStatic(_) => None,
    }
}

/// Whether one declaration is found.
pub fn is_one(table: &Table, answer: Answer) -> bool
    ensures { result ≡ is_some (pure.one_decl (shown table.now answer)) }
{
    match one_row(answer) {
        None => false,
        Some(number) => is_row(table, number),
    }
}

/// Whether a static declaration is found.
fn is_static_found(table: &Table, answer: Answer) -> bool
    ensures { result ≡ test_found (is_static_decl table.now) (shown table.now answer) }
{
    table.keeps_rows();
    match one_row(answer) {
        None => false,
        Some(number) => is_static_row(table, number),
    }
}

/// Whether an instance declaration is found.
fn is_instance_found(table: &Table, answer: Answer) -> bool
    ensures { result ≡ test_found (is_instance_decl table.now) (shown table.now answer) }
{
    table.keeps_rows();
    match one_row(answer) {
        None => false,
        Some(number) => is_instance_row(table, number),
    }
}

/// How a member is named: through a class or through a value.
pub(crate) fn put_through(
    table: &Table,
    place: &Place<'_>,
    at: u32,
    class: Option<u32>,
    answer: Answer,
    log: &mut Vec<Note>,
) -> Result<(), AllocError>
    ensures { IfOk result (λ _. notes_of table.now (member_of place.now) log.new.items
        ≡ notes_of table.now (member_of place.now) log.old.items
        ++ pure.through_notes table.now at class (shown table.now answer)) }
{
    match class {
        None => {
            let is_broken = is_static_found(table, answer);
            put_when(table, place, is_broken, at, Rule::StaticThroughValue, log)
        }
        Some(_) => {
            let is_broken = is_instance_found(table, answer);
            put_when(table, place, is_broken, at, Rule::InstanceThroughType, log)
        }
    }
}

//! What is found by numbers, by keys.
ghost use Rattle.std.specs.Prelude.{◌≡◌, IfOk, option_map};
ghost use Rattle.jr_table.specs.KeyView.{decl_of};
ghost use Rattle.jr_table.specs.FoundView.{found_of};
ghost use Rattle.jr_table.specs.Found as found;
ghost use Rattle.jr_table.specs.Lookup as pure;

use jr_table::{Answer, Decl, Found, Table};
use std::alloc::AllocError;

/// The declaration of a row, where there is the row.
fn row_decl(table: &Table, number: u32) -> Option<&Decl>
    ensures { option_map (λ d. decl_of d.now) result ≡ pure.decl_at table.now number }
{
    match table.rows().get(number as usize) {
        None => None,
        Some(row) => Some(&row.decl),
    }
}

/// A copy of the declaration of a row.
fn decl_at(table: &Table, number: u32) -> Result<Option<Decl>, AllocError>
    ensures { IfOk result (λ d. option_map decl_of d ≡ pure.decl_at table.now number) }
{
    match row_decl(table, number) {
        None => Ok(None),
        Some(decl) => Ok(Some(decl.copy()?)),
    }
}

fn one(table: &Table, number: u32) -> Result<Found, AllocError>
    ensures { IfOk result (λ f.
        found_of f ≡ pure.shown_one found.one (pure.decl_at table.now number)) }
{
    match decl_at(table, number)? {
        None => Ok(Found::Nothing),
        Some(decl) => Ok(Found::One(decl)),
    }
}

fn not_accessible(table: &Table, number: u32) -> Result<Found, AllocError>
    ensures { IfOk result (λ f.
        found_of f ≡ pure.shown_one found.not_accessible (pure.decl_at table.now number)) }
{
    match decl_at(table, number)? {
        None => Ok(Found::Nothing),
        Some(decl) => Ok(Found::NotAccessible(decl)),
    }
}

fn from_static(table: &Table, number: u32) -> Result<Found, AllocError>
    ensures { IfOk result (λ f.
        found_of f ≡ pure.shown_one found.from_static (pure.decl_at table.now number)) }
{
    match decl_at(table, number)? {
        None => Ok(Found::Nothing),
        Some(decl) => Ok(Found::FromStatic(decl)),
    }
}

/// A copy that nothing needs any more.
fn forget(decl: Decl) {
    drop(decl)
}

fn both(first: &Decl, second: &Decl) -> Result<Found, AllocError>
    ensures { IfOk result (λ f. found_of f ≡ found.many (decl_of first.now) (decl_of second.now)) }
{
    let first = first.copy()?;
    match second.copy() {
        Ok(second) => Ok(Found::Many(first, second)),
        Err(error) => {
            forget(first);
            Err(error)
        }
    }
}

/// Both, if there are two.
fn many(table: &Table, first: u32, second: u32) -> Result<Found, AllocError>
    ensures { IfOk result (λ f. found_of f
        ≡ pure.shown_two (pure.decl_at table.now first) (pure.decl_at table.now second)) }
{
    match (row_decl(table, first), row_decl(table, second)) {
        (Some(first), Some(second)) => both(first, second),
        (None, Some(_)) => Ok(Found::Nothing),
        (Some(_), None) => Ok(Found::Nothing),
        (None, None) => Ok(Found::Nothing),
    }
}

/// The answer, with the declarations of its rows.
#[tactic(auto, unfolding(jr_table::specs::Lookup::shown))]
pub(crate) fn found_by(table: &Table, answer: Answer) -> Result<Found, AllocError>
    ensures { IfOk result (λ f. found_of f ≡ pure.shown table.now answer) }
{
    match answer {
        Answer::One(number) => one(table, number),
        Answer::Nothing => Ok(Found::Nothing),
        Answer::Many(first, second) => many(table, first, second),
        Answer::NotAccessible(number) => not_accessible(table, number),
        Answer::FromStatic(number) => from_static(table, number),
    }
}

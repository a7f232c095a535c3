//! Written types, and the notes on their names (JLS 6.5.5).
ghost use Rattle.std.specs.Prelude.{◌≡◌, ◌++◌, IfOk, option_map};
ghost use Rattle.jr_ast.specs.View.{word_of, type_of};
ghost use Rattle.jr_table.specs.Entries.{class_number, kind_of};
ghost use Rattle.jr_table.specs.Lookup.{shown, find_type_named};
ghost use Rattle.jr_table.specs.Context.{scope_of, outer_text};
ghost use Rattle.jr_table.specs.Meanings.{class_found, named_class, written_type};
ghost use Rattle.jr_table.specs.Meanings.{type_references};
ghost use Rattle.jr_table.specs.Notes.{reference_notes};
ghost use Rattle.jr_bind_expr.specs.Places.{context_of, member_of, Knows};
ghost use Rattle.jr_bind_expr.specs.Logs.{notes_of};
ghost use Rattle.jr_bind_expr.specs.Fits.{FitsNamed, FitsType};
ghost use Rattle.jr_bind_expr.specs.Numbered.{class_kind};
ghost use Rattle.jr_bind_expr.specs.Named as pure;

use crate::findings::{Finding, Note, Sought};
use crate::places::Place;
use crate::rows::{class_found, type_in};
use jr_ast::{Ident, Name, TypeKind, TypeRef};
use jr_lookup::type_at;
use jr_table::{Answer, Kind, Table};
use jr_text::Mark;
use std::alloc::AllocError;

/// The type that a simple name names.
pub(crate) fn type_named(table: &Table, place: &Place<'_>, name: &Name) -> Answer
    requires { Knows table.now place.now }
    ensures { shown table.now result
        ≡ find_type_named table.now (scope_of (context_of place.now)) name.now }
{
    type_at(table, place.class, name)
}

/// Notes what a reference finds.
pub(crate) fn put_found(
    at: u32,
    sought: Sought,
    answer: Answer,
    log: &mut Vec<Note>,
) -> Result<(), AllocError>
    ensures { IfOk result (λ _. pure.PutsFound at sought answer log.old.items log.new.items) }
{
    log.push(Note::Finds {
        at,
        sought,
        finding: Finding::Rows(answer),
    })?;
    Ok(())
}

/// A class's simple name: the class.
fn plain_class(
    table: &Table,
    place: &Place<'_>,
    at: u32,
    name: &Name,
    log: &mut Vec<Note>,
) -> Result<Option<u32>, AllocError>
    requires { Knows table.now place.now }
    ensures class { IfOk result (λ k. k ≡ option_map (class_number table.now)
        (class_found (find_type_named table.now (scope_of (context_of place.now)) name.now))) }
    ensures notes { IfOk result (λ _. notes_of table.now (member_of place.now) log.new.items
        ≡ notes_of table.now (member_of place.now) log.old.items
        ++ pure.plain_notes table.now (scope_of (context_of place.now)) at name.now) }
{
    let answer = type_named(table, place, name);
    put_found(at, Sought::Type, answer, log)?;
    Ok(class_found(table, answer))
}

/// A member class's name behind a class: the member class.
fn inner_class(
    table: &Table,
    place: &Place<'_>,
    outer: Option<u32>,
    at: u32,
    name: &Name,
    log: &mut Vec<Note>,
) -> Result<Option<u32>, AllocError>
    ensures class { IfOk result (λ k. k ≡ option_map (class_number table.now) (class_found
        (shown table.now (pure.inner_answer table.now place.now.class outer name.now)))) }
    ensures notes { IfOk result (λ _. pure.PutsFound at Sought.Type
        (pure.inner_answer table.now place.now.class outer name.now) log.old.items
        log.new.items) }
{
    let answer = type_in(table, place.class, outer, name.as_str());
    put_found(at, Sought::Type, answer, log)?;
    Ok(class_found(table, answer))
}

pub(crate) fn class_kind(class: Option<u32>) -> Option<Kind>
    ensures { result ≡ class_kind class }
{
    match class {
        None => None,
        Some(class) => Some(Kind::Class(class)),
    }
}

/// A class's name: the class.
fn class_name<A: Mark>(
    table: &Table,
    place: &Place<'_>,
    at: u32,
    outer: &Option<Ident<A>>,
    name: &Ident<A>,
    log: &mut Vec<Note>,
) -> Result<Option<u32>, AllocError>
    requires knows { Knows table.now place.now }
    requires fits { FitsNamed A.fits_at at (option_map word_of outer.now) (word_of name.now) }
    ensures class { IfOk result (λ k. k ≡ option_map (class_number table.now)
        (named_class table.now (scope_of (context_of place.now))
        (outer_text (option_map word_of outer.now)) name.now.name)) }
    ensures notes { IfOk result (λ _. notes_of table.now (member_of place.now) log.new.items
        ≡ notes_of table.now (member_of place.now) log.old.items
        ++ pure.named_notes (λ m b. (A.span_from m b).from) table.now
        (scope_of (context_of place.now)) at (option_map word_of outer.now) (word_of name.now)) }
{
    match outer {
        None => {
            let at_name = name.mark.span(at).from;
            plain_class(table, place, at_name, &name.name, log)
        }
        Some(outer) => {
            let at_outer = outer.mark.span(at).from;
            let class = plain_class(table, place, at_outer, &outer.name, log)?;
            let at_name = name.mark.span(at).from;
            inner_class(table, place, class, at_name, &name.name, log)
        }
    }
}

/// The type that is written; notes what its names find.
#[tactic(auto, unfolding(crate::specs::Fits::FitsType))]
pub fn written_type<A: Mark>(
    table: &Table,
    place: &Place<'_>,
    base: u32,
    of: &TypeRef<A>,
    log: &mut Vec<Note>,
) -> Result<Option<Kind>, AllocError>
    requires knows { Knows table.now place.now }
    requires fits { FitsType (λ m b. (A.span_from m b).from) A.fits_at base (type_of of.now) }
    ensures kind { IfOk result (λ t. t ≡ option_map (kind_of table.now)
        (written_type table.now (scope_of (context_of place.now)) (type_of of.now))) }
    ensures notes { IfOk result (λ _. notes_of table.now (member_of place.now) log.new.items
        ≡ notes_of table.now (member_of place.now) log.old.items
        ++ reference_notes (type_references (λ m b. (A.span_from m b).from) table.now
        (context_of place.now) base (type_of of.now))) }
{
    match &of.kind {
        TypeKind::Int => Ok(Some(Kind::Int)),
        TypeKind::Boolean => Ok(Some(Kind::Boolean)),
        TypeKind::Named(outer, name) => {
            let at = of.mark.span(base).from;
            let class = class_name(table, place, at, outer, name, log)?;
            Ok(class_kind(class))
        }
    }
}

/// The same of a type in a box.
pub(crate) fn boxed_type<A: Mark>(
    table: &Table,
    place: &Place<'_>,
    base: u32,
    of: &Box<TypeRef<A>>,
    log: &mut Vec<Note>,
) -> Result<Option<Kind>, AllocError>
    requires knows { Knows table.now place.now }
    requires fits { FitsType (λ m b. (A.span_from m b).from) A.fits_at base
        (type_of of.now.value) }
    ensures kind { IfOk result (λ t. t ≡ option_map (kind_of table.now)
        (written_type table.now (scope_of (context_of place.now)) (type_of of.now.value))) }
    ensures notes { IfOk result (λ _. notes_of table.now (member_of place.now) log.new.items
        ≡ notes_of table.now (member_of place.now) log.old.items
        ++ reference_notes (type_references (λ m b. (A.span_from m b).from) table.now
        (context_of place.now) base (type_of of.now.value))) }
{
    written_type(table, place, base, of, log)
}

//! The references of a member that are bound, by their places.
ghost use Rattle.std.specs.Prelude.{◌≡◌, ◌++◌, ◌∷◌, [], List, map, option_map, option_and_then};
ghost use Rattle.std.specs.Prelude.{IfOk};
ghost use Rattle.std.specs.List.Sorted.{IsPermutation, IsNonDecreasingBy};
ghost use Rattle.jr_table.specs.Decls.{MemberKey as KeyOfMember};
ghost use Rattle.jr_table.specs.Rows.{Row};
ghost use Rattle.jr_table.specs.KeyView.{member_key_of, decl_of};
ghost use Rattle.jr_table.specs.Lookup.{shown};
ghost use Rattle.jr_bind_expr.specs.Arms.{one_decl};
ghost use Rattle.jr_bind.specs.BoundLogs as logs;
ghost use Rattle.jr_bind.specs.BoundView.{reference_of};
ghost use Rattle.jr_bind.specs.Targets.{target_decl, AreShared, note_place, note_decl};
ghost use Rattle.jr_bind_expr.specs.Findings.{note_of};
ghost use Rattle.jr_bind_expr.specs.Logs.{notes_of};

use crate::bounds::Reference;
use crate::sharing::{Shared, Target, shared_decl};
use jr_bind_expr::{Finding, Note, one_row};
use jr_table::{Answer, Decl, MemberKey, Table};
use std::alloc::{AllocError, Global};
use std::rc::Rc;

/// What a lookup answers, if it answers one declaration.
fn row_target(answer: Answer) -> Option<Target>
    ensures { (rows : List Row) (k : KeyOfMember) → option_and_then (target_decl rows k) result
        ≡ one_decl (shown rows answer) }
{
    match one_row(answer) {
        None => None,
        Some(number) => Some(Target::Row(number)),
    }
}

/// What a note finds, if it finds one declaration.
fn target_of(note: Note) -> Option<Target>
    ensures { (rows : List Row) (k : KeyOfMember) → option_and_then (target_decl rows k) result
        ≡ note_decl (note_of rows k note) }
{
    match note {
        Note::Finds { finding, .. } => match finding {
            Finding::Local(number) => Some(Target::Local(number)),
            Finding::Rows(answer) => row_target(answer),
        },
        Note::Breaks { .. } => None,
    }
}

/// Where a note stands.
fn noted_at(note: Note) -> u32
    ensures { (rows : List Row) (k : KeyOfMember) → note_place (note_of rows k note) ≡ result }
{
    match note {
        Note::Finds { at, .. } => at,
        Note::Breaks { at, .. } => at,
    }
}

/// The declaration that a note finds, once for references that stand near each other.
fn noted_decl(
    alloc: Global,
    table: &Table,
    member: &MemberKey,
    note: Note,
    shared: &mut Vec<Shared>,
) -> Result<Option<Rc<Decl>>, AllocError>
    requires { AreShared table.now (member_key_of member.now) shared.old.items }
    ensures shared { IfOk result (λ _. AreShared table.now (member_key_of member.now)
        shared.new.items) }
    ensures declared { IfOk result (λ o. option_map (λ d. decl_of d.value) o
        ≡ note_decl (note_of table.now (member_key_of member.now) note)) }
{
    match target_of(note) {
        None => Ok(None),
        Some(target) => shared_decl(alloc, table, member, target, shared),
    }
}

/// Puts a reference behind the others.
fn push(at: u32, decl: Rc<Decl>, references: &mut Vec<Reference>) -> Result<(), AllocError>
    ensures { IfOk result (λ _. map reference_of references.new.items
        ≡ map reference_of references.old.items
        ++ record { at = at; decl = decl_of decl.value } ∷ []) }
{
    references.push(Reference { at, decl })?;
    Ok(())
}

/// A reference to a declaration, its place counted from `start`, unless it stands before.
fn push_decl(
    start: u32,
    at: u32,
    decl: Rc<Decl>,
    references: &mut Vec<Reference>,
) -> Result<(), AllocError>
    ensures { IfOk result (λ _. map reference_of references.new.items
        ≡ map reference_of references.old.items
        ++ logs.reference_at start at (decl_of decl.value)) }
{
    if at < start {
        return Ok(());
    }
    push(at - start, decl, references)
}

/// The same, if there is a declaration.
fn push_reference(
    start: u32,
    at: u32,
    decl: Option<Rc<Decl>>,
    references: &mut Vec<Reference>,
) -> Result<(), AllocError>
    ensures { IfOk result (λ _. map reference_of references.new.items
        ≡ map reference_of references.old.items
        ++ logs.found_references start at (option_map (λ d. decl_of d.value) decl)) }
{
    match decl {
        None => Ok(()),
        Some(decl) => push_decl(start, at, decl, references),
    }
}

/// The references of a log that are bound, as they stand in it.
fn references_in(
    alloc: Global,
    table: &Table,
    member: &MemberKey,
    start: u32,
    log: &[Note],
) -> Result<Vec<Reference>, AllocError>
    ensures { IfOk result (λ v. map reference_of v.items ≡ logs.references_in start
        (notes_of table.now (member_key_of member.now) log.now)) }
{
    let mut references = Vec::new(alloc);
    let mut shared = Vec::new(alloc);
    for note in log {
        let decl = noted_decl(alloc, table, member, *note, &mut shared)?;
        push_reference(start, noted_at(*note), decl, &mut references)?;
    }
    Ok(references)
}

/// Where a reference stands.
fn place(reference: &Reference) -> u32
    ensures { result ≡ reference.now.at }
{
    reference.at
}

/// Puts references in order.
fn sort(references: &mut Vec<Reference>) -> Result<(), AllocError>
    ensures all { IfOk result (λ _. IsPermutation references.old.items references.new.items) }
    ensures in_order { IfOk result (λ _. IsNonDecreasingBy (λ r. r.at) references.new.items) }
{
    references.sort_by_key(place)?;
    Ok(())
}

/// The references of a log that are bound, by their places, counted from `start`.
pub(crate) fn references_of_log(
    alloc: Global,
    table: &Table,
    member: &MemberKey,
    start: u32,
    log: &[Note],
) -> Result<Vec<Reference>, AllocError>
    ensures all { IfOk result (λ v. IsPermutation (logs.references_in start
        (notes_of table.now (member_key_of member.now) log.now)) (map reference_of v.items)) }
    ensures in_order { IfOk result (λ v. IsNonDecreasingBy (λ r. r.at) v.items) }
{
    let mut references = references_in(alloc, table, member, start, log)?;
    sort(&mut references)?;
    Ok(references)
}

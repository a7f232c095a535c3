//! Fields behind a dot, and behind `super` (JLS 6.5.6.2, 15.11).
ghost use Rattle.std.specs.Prelude.{◌≡◌, ◌++◌, List, false, IfOk, if◌then◌else◌};
ghost use Rattle.jr_table.specs.Rows.{Row};
ghost use Rattle.jr_table.specs.Decls.{MemberKey};
ghost use Rattle.jr_table.specs.Entries.{entries_of};
ghost use Rattle.jr_table.specs.Chains.{parent_of};
ghost use Rattle.jr_table.specs.Lookup.{shown};
ghost use Rattle.jr_table.specs.Notes.{test_found, is_final_decl};
ghost use Rattle.jr_bind_expr.specs.Places.{context_of, member_of, Knows};
ghost use Rattle.jr_bind_expr.specs.Findings.{note_of};
ghost use Rattle.jr_bind_expr.specs.Logs.{notes_of};
ghost use Rattle.jr_bind_expr.specs.Means.{role_of};
ghost use Rattle.jr_bind_expr.specs.Numbered.{on_class};
ghost use Rattle.jr_bind_expr.specs.Arms as pure;

use crate::abouts::about_finding;
use crate::findings::{Finding, Note, Sought};
use crate::kinds::on_class;
use crate::meanings::{Meaning, Role};
use crate::notes::{fixed_at, is_nothing, put_through, put_when};
use crate::places::Place;
use crate::rows::{class_found, field_in};
use jr_ast::Name;
use jr_lookup::member_type_at;
use jr_table::{Answer, Rule, Table};
use std::alloc::AllocError;

/// The same before a dot: the field, or else the member type, of a class that is named.
#[tactic(auto, unfolding(jr_table::specs::Lookup::shown))]
fn left_in(
    table: &Table,
    place: &Place<'_>,
    class: Option<u32>,
    field: Answer,
    name: &Name,
) -> Answer
    ensures { shown table.now result
        ≡ pure.left_at table.now place.now.class class (shown table.now field) name.now }
{
    match class {
        None => Answer::Nothing,
        Some(class) => {
            if is_nothing(table, field) {
                member_type_at(table, place.class, class, name.as_str())
            } else {
                field
            }
        }
    }
}

fn variable_note(at: u32, field: Answer) -> Note
    ensures { (rows : List Row) (k : MemberKey) → note_of rows k result
        ≡ pure.dotted_note (role_of Role.Value) at None (shown rows field) (shown rows field) }
{
    Note::Finds {
        at,
        sought: Sought::Variable,
        finding: Finding::Rows(field),
    }
}

/// The reference of a name behind a dot.
fn dotted_note(role: Role, at: u32, class: Option<u32>, field: Answer, left: Answer) -> Note
    ensures { (rows : List Row) (k : MemberKey) → note_of rows k result
        ≡ pure.dotted_note (role_of role) at class (shown rows field) (shown rows left) }
{
    match role {
        Role::Value => variable_note(at, field),
        Role::Statement => variable_note(at, field),
        Role::Left => match class {
            None => variable_note(at, field),
            Some(_) => Note::Finds {
                at,
                sought: Sought::Type,
                finding: Finding::Rows(left),
            },
        },
    }
}

/// Whether it may not be assigned: a final field is assigned in a constructor by `this` alone.
fn is_fixed_behind(is_this: bool, is_fixed: bool, is_final: bool) -> bool
    ensures { result ≡ (if is_this then is_fixed else is_final) }
{
    if is_this { is_fixed } else { is_final }
}

/// A field of what stands before a dot.
pub(crate) fn field(
    table: &Table,
    place: &Place<'_>,
    role: Role,
    begin: u32,
    at: u32,
    of: Meaning,
    is_this: bool,
    name: &Name,
    log: &mut Vec<Note>,
) -> Result<Meaning, AllocError>
    requires { Knows table.now place.now }
    ensures says { IfOk result (λ m.
        let v = pure.field_at table.now place.now.class (on_class of.class of.kind) name.now in
        let t = pure.left_at table.now place.now.class of.class v name.now in
        pure.FieldSays table.now (context_of place.now) begin at is_this of.class v t m) }
    ensures notes { IfOk result (λ _.
        let v = pure.field_at table.now place.now.class (on_class of.class of.kind) name.now in
        let t = pure.left_at table.now place.now.class of.class v name.now in
        notes_of table.now (member_of place.now) log.new.items
        ≡ notes_of table.now (member_of place.now) log.old.items
        ++ pure.field_notes table.now (role_of role) at of.class v t) }
{
    let on = on_class(of.class, of.kind);
    let field = field_in(table, place.class, on, name.as_str());
    let left = left_in(table, place, of.class, field, name);
    let about = about_finding(table, place, Finding::Rows(field));
    let note = dotted_note(role, at, of.class, field, left);
    log.push(note)?;
    put_through(table, place, at, of.class, field, log)?;
    let is_fixed = is_fixed_behind(is_this, about.is_fixed, about.is_final);
    Ok(Meaning {
        at: begin,
        kind: about.kind,
        class: class_found(table, left),
        fixed: fixed_at(is_fixed, at),
        is_constant: of.class.is_some() & about.is_constant,
    })
}

/// A field behind `super`.
pub(crate) fn super_field(
    table: &Table,
    place: &Place<'_>,
    begin: u32,
    at: u32,
    name: &Name,
    log: &mut Vec<Note>,
) -> Result<Meaning, AllocError>
    requires { Knows table.now place.now }
    ensures says { IfOk result (λ m.
        let v = pure.field_at table.now place.now.class
        (parent_of (entries_of table.now) place.now.class) name.now in
        pure.Says table.now (context_of place.now) begin at v None
        (test_found (is_final_decl table.now (context_of place.now)) v) false m) }
    ensures notes { IfOk result (λ _.
        let v = pure.field_at table.now place.now.class
        (parent_of (entries_of table.now) place.now.class) name.now in
        notes_of table.now (member_of place.now) log.new.items
        ≡ notes_of table.now (member_of place.now) log.old.items
        ++ pure.super_notes table.now place.now.is_static begin at v) }
{
    let parent = table.parent_of(place.class);
    let field = field_in(table, place.class, parent, name.as_str());
    let about = about_finding(table, place, Finding::Rows(field));
    let note = variable_note(at, field);
    log.push(note)?;
    put_when(
        table,
        place,
        place.is_static,
        begin,
        Rule::StaticContext,
        log,
    )?;
    put_through(table, place, at, None, field, log)?;
    Ok(Meaning {
        at: begin,
        kind: about.kind,
        class: None,
        fixed: fixed_at(about.is_final, at),
        is_constant: false,
    })
}

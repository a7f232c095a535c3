//! Calls and creations (JLS 15.9, 15.12).
ghost use Rattle.std.specs.Prelude.{◌≡◌, ◌++◌, ◌∷◌, [], false, IfOk};
ghost use Rattle.std.specs.Prelude.{if◌then◌else◌};
ghost use Rattle.jr_table.specs.Lookup.{shown};
ghost use Rattle.jr_table.specs.Notes.{found_note, is_statement, is_object_method};
ghost use Rattle.jr_table.specs.Binding as sought;
ghost use Rattle.jr_bind_expr.specs.Places.{context_of, member_of, Knows};
ghost use Rattle.jr_bind_expr.specs.Logs.{notes_of};
ghost use Rattle.jr_bind_expr.specs.Means.{role_of};
ghost use Rattle.jr_bind_expr.specs.Numbered.{class_in, class_kind};
ghost use Rattle.jr_bind_expr.specs.ArgsView.{kinds_of};
ghost use Rattle.jr_bind_expr.specs.Arms as pure;

use crate::abouts::about_finding;
use crate::args::Args;
use crate::calls::{ctor_in, method_in, plain_call};
use crate::findings::{Finding, Note, Sought};
use crate::kinds::{class_in, is_void, on_class};
use crate::meanings::{Meaning, Role, plain};
use crate::notes::{is_one, put_through, put_when};
use crate::places::Place;
use crate::type_names::class_kind;
use jr_ast::Name;
use jr_table::{Answer, Kind, Rule, Table};
use std::alloc::{AllocError, Global};

fn is_statement(role: Role) -> bool
    ensures { result ≡ is_statement (role_of role) }
{
    match role {
        Role::Value => false,
        Role::Left => false,
        Role::Statement => true,
    }
}

/// Whether `Object` has a method of the name in Java, which the prelude's doesn't.
pub fn is_object_method(name: &str) -> bool
    ensures { result ≡ is_object_method name.now }
{
    (name == "equals")
        | (name == "hashCode")
        | (name == "toString")
        | (name == "getClass")
        | (name == "notify")
        | (name == "notifyAll")
        | (name == "wait")
        | (name == "clone")
        | (name == "finalize")
}

/// The value of a call that has none, and a name that no method may have.
fn put_called(
    table: &Table,
    place: &Place<'_>,
    role: Role,
    at: u32,
    name: &Name,
    kind: Option<Kind>,
    log: &mut Vec<Note>,
) -> Result<(), AllocError>
    ensures { IfOk result (λ _. notes_of table.now (member_of place.now) log.new.items
        ≡ notes_of table.now (member_of place.now) log.old.items
        ++ pure.called_notes (role_of role) at name.now kind) }
{
    let is_empty = !is_statement(role) & is_void(kind);
    put_when(table, place, is_empty, at, Rule::VoidValue, log)?;
    let is_reserved = is_object_method(name.as_str());
    put_when(table, place, is_reserved, at, Rule::ObjectMethod, log)
}

/// Notes which method is found.
pub fn put_method(
    table: &Table,
    place: &Place<'_>,
    at: u32,
    answer: Answer,
    log: &mut Vec<Note>,
) -> Result<(), AllocError>
    ensures { IfOk result (λ _. notes_of table.now (member_of place.now) log.new.items
        ≡ notes_of table.now (member_of place.now) log.old.items
        ++ found_note at sought.method (shown table.now answer) ∷ []) }
{
    let _rows = table.count();
    let _is_static = place.is_static;
    log.push(Note::Finds {
        at,
        sought: Sought::Method,
        finding: Finding::Rows(answer),
    })?;
    Ok(())
}

fn call_answer(
    alloc: Global,
    table: &Table,
    place: &Place<'_>,
    target: Option<Meaning>,
    name: &Name,
    args: &Args,
) -> Result<Answer, AllocError>
    ensures { IfOk result (λ a. a ≡ pure.call_answer table.now place.now.class
        place.now.is_static target name.now (kinds_of args.now)) }
{
    match target {
        None => plain_call(
            alloc,
            table,
            place.class,
            place.is_static,
            name.as_str(),
            args,
        ),
        Some(of) => {
            let on = on_class(of.class, of.kind);
            method_in(alloc, table, place.class, on, name.as_str(), args)
        }
    }
}

fn put_target(
    table: &Table,
    place: &Place<'_>,
    at: u32,
    target: Option<Meaning>,
    answer: Answer,
    log: &mut Vec<Note>,
) -> Result<(), AllocError>
    ensures { IfOk result (λ _. notes_of table.now (member_of place.now) log.new.items
        ≡ notes_of table.now (member_of place.now) log.old.items
        ++ pure.target_notes table.now at target (shown table.now answer)) }
{
    match target {
        None => Ok(()),
        Some(of) => put_through(table, place, at, of.class, answer, log),
    }
}

/// A call.
pub(crate) fn call(
    alloc: Global,
    table: &Table,
    place: &Place<'_>,
    role: Role,
    begin: u32,
    at: u32,
    target: Option<Meaning>,
    name: &Name,
    args: &Args,
    log: &mut Vec<Note>,
) -> Result<Meaning, AllocError>
    requires { Knows table.now place.now }
    ensures says { IfOk result (λ m. let f = shown table.now (pure.call_answer table.now
        place.now.class place.now.is_static target name.now (kinds_of args.now)) in
        pure.Says table.now (context_of place.now) begin at f None false false m) }
    ensures notes { IfOk result (λ m. let f = shown table.now (pure.call_answer table.now
        place.now.class place.now.is_static target name.now (kinds_of args.now)) in
        notes_of table.now (member_of place.now) log.new.items
        ≡ notes_of table.now (member_of place.now) log.old.items
        ++ pure.call_notes table.now (role_of role) at target name.now m.kind f) }
{
    let answer = call_answer(alloc, table, place, target, name, args)?;
    let about = about_finding(table, place, Finding::Rows(answer));
    put_method(table, place, at, answer, log)?;
    put_target(table, place, at, target, answer, log)?;
    put_called(table, place, role, at, name, about.kind, log)?;
    Ok(plain(begin, about.kind, false))
}

/// A call behind `super`.
pub(crate) fn super_call(
    alloc: Global,
    table: &Table,
    place: &Place<'_>,
    role: Role,
    begin: u32,
    at: u32,
    name: &Name,
    args: &Args,
    log: &mut Vec<Note>,
) -> Result<Meaning, AllocError>
    requires { Knows table.now place.now }
    ensures says { IfOk result (λ m. let f = shown table.now (pure.super_answer table.now
        place.now.class name.now (kinds_of args.now)) in
        pure.Says table.now (context_of place.now) begin at f None false false m) }
    ensures notes { IfOk result (λ m. let f = shown table.now (pure.super_answer table.now
        place.now.class name.now (kinds_of args.now)) in
        notes_of table.now (member_of place.now) log.new.items
        ≡ notes_of table.now (member_of place.now) log.old.items
        ++ pure.super_call_notes table.now (role_of role) place.now.is_static begin at name.now
        m.kind f) }
{
    let parent = table.parent_of(place.class);
    let answer = method_in(alloc, table, place.class, parent, name.as_str(), args)?;
    let about = about_finding(table, place, Finding::Rows(answer));
    put_method(table, place, at, answer, log)?;
    put_when(
        table,
        place,
        place.is_static,
        begin,
        Rule::StaticContext,
        log,
    )?;
    put_through(table, place, at, None, answer, log)?;
    put_called(table, place, role, at, name, about.kind, log)?;
    Ok(plain(begin, about.kind, false))
}

/// A creation of the class that is written.
pub(crate) fn create(
    alloc: Global,
    table: &Table,
    place: &Place<'_>,
    begin: u32,
    written: Option<Kind>,
    args: &Args,
    log: &mut Vec<Note>,
) -> Result<Meaning, AllocError>
    ensures says { IfOk result (λ m. let f = shown table.now (pure.ctor_answer table.now
        place.now.class (class_in written) (kinds_of args.now)) in
        m ≡ pure.plain begin (pure.created (class_kind (class_in written)) f) false) }
    ensures notes { IfOk result (λ _. let f = shown table.now (pure.ctor_answer table.now
        place.now.class (class_in written) (kinds_of args.now)) in
        notes_of table.now (member_of place.now) log.new.items
        ≡ notes_of table.now (member_of place.now) log.old.items
        ++ found_note begin sought.method f ∷ []) }
{
    let class = class_in(written);
    let answer = ctor_in(alloc, table, place.class, class, args)?;
    put_method(table, place, begin, answer, log)?;
    let kind = created_kind(is_one(table, answer), class);
    Ok(plain(begin, kind, false))
}

fn created_kind(is_one: bool, class: Option<u32>) -> Option<Kind>
    ensures { result ≡ (if is_one then class_kind class else None) }
{
    if is_one { class_kind(class) } else { None }
}

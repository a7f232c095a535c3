//! What statements note besides what their expressions do (JLS 14).
ghost use Rattle.std.specs.Prelude.{◌≡◌, ◌++◌, ◌∷◌, [], IfOk, is_some, option_map};
ghost use Rattle.jr_table.specs.Entries.{entries_of, kind_of};
ghost use Rattle.jr_table.specs.Notes.{breaks, when, returned_type};
ghost use Rattle.jr_bind_expr.specs.Places.{member_of, Knows};
ghost use Rattle.jr_bind_expr.specs.Logs.{notes_of};
ghost use Rattle.jr_bind_parts.specs.StmtArms as pure;

use jr_bind_expr::{
    Meaning, Note, Place, class_in, is_boolean, kind_at, put_unless, put_when, suits,
};
use jr_table::{Kind, MemberKey, Rule, Table};
use std::alloc::AllocError;

/// The condition of an `if` is boolean (JLS 14.9).
pub fn put_condition(
    table: &Table,
    place: &Place<'_>,
    value: Meaning,
    log: &mut Vec<Note>,
) -> Result<(), AllocError>
    ensures { IfOk result (λ _. notes_of table.now (member_of place.now) log.new.items
        ≡ notes_of table.now (member_of place.now) log.old.items ++ pure.condition_notes value) }
{
    put_unless(
        table,
        place,
        is_boolean(value.kind),
        value.at,
        Rule::TypeMismatch,
        log,
    )
}

/// The condition of a loop is boolean, and isn't constant unless it is `true` (JLS 14.12).
pub fn put_loop(
    table: &Table,
    place: &Place<'_>,
    value: Meaning,
    is_endless: bool,
    log: &mut Vec<Note>,
) -> Result<(), AllocError>
    ensures { IfOk result (λ _. notes_of table.now (member_of place.now) log.new.items
        ≡ notes_of table.now (member_of place.now) log.old.items
        ++ pure.loop_notes is_endless value) }
{
    put_condition(table, place, value, log)?;
    let is_broken = !is_endless & value.is_constant;
    put_when(
        table,
        place,
        is_broken,
        value.at,
        Rule::ConstantCondition,
        log,
    )
}

/// What is locked is an object (JLS 14.19).
pub fn put_lock(
    table: &Table,
    place: &Place<'_>,
    value: Meaning,
    log: &mut Vec<Note>,
) -> Result<(), AllocError>
    ensures { IfOk result (λ _. notes_of table.now (member_of place.now) log.new.items
        ≡ notes_of table.now (member_of place.now) log.old.items ++ pure.lock_notes value) }
{
    let is_kept = class_in(value.kind).is_some();
    put_unless(table, place, is_kept, value.at, Rule::TypeMismatch, log)
}

/// The type, unless it is `void`.
fn value_kind(kind: Option<Kind>) -> Option<Kind>
    ensures { result ≡ pure.value_kind kind }
{
    match kind {
        None => None,
        Some(kind) => match kind {
            Kind::Void => None,
            Kind::Int => Some(Kind::Int),
            Kind::Boolean => Some(Kind::Boolean),
            Kind::Null => Some(Kind::Null),
            Kind::Class(class) => Some(Kind::Class(class)),
        },
    }
}

/// The type of the value that the member returns, if it returns one (JLS 8.4.5).
pub fn due(table: &Table, place: &Place<'_>) -> Option<Kind>
    requires { Knows table.now place.now }
    ensures { result
        ≡ option_map (kind_of table.now) (returned_type table.now (member_of place.now)) }
{
    table.keeps_rows();
    match place.member {
        MemberKey::Method(_) => value_kind(kind_at(table, place.row)),
        MemberKey::Head(_) => None,
        MemberKey::Field(_) => None,
        MemberKey::Ctor(_) => None,
    }
}

/// A value is returned, where this is due (JLS 14.17).
pub fn put_value(
    table: &Table,
    place: &Place<'_>,
    at: u32,
    due: Option<Kind>,
    value: Meaning,
    log: &mut Vec<Note>,
) -> Result<(), AllocError>
    ensures { IfOk result (λ _. notes_of table.now (member_of place.now) log.new.items
        ≡ notes_of table.now (member_of place.now) log.old.items
        ++ pure.value_notes (entries_of table.now) at due value) }
{
    match due {
        None => put_when(table, place, true, at, Rule::ReturnForm, log),
        Some(_) => {
            let is_kept = suits(table, value.kind, due);
            put_unless(table, place, is_kept, value.at, Rule::TypeMismatch, log)
        }
    }
}

/// No value is returned, where this is due.
pub fn put_no_value(
    table: &Table,
    place: &Place<'_>,
    at: u32,
    due: Option<Kind>,
    log: &mut Vec<Note>,
) -> Result<(), AllocError>
    ensures { IfOk result (λ _. notes_of table.now (member_of place.now) log.new.items
        ≡ notes_of table.now (member_of place.now) log.old.items
        ++ when (is_some due) (breaks at Rule.ReturnForm)) }
{
    put_when(table, place, due.is_some(), at, Rule::ReturnForm, log)
}

/// A local's initializer is assignable to it (JLS 14.4).
pub fn put_init(
    table: &Table,
    place: &Place<'_>,
    kind: Option<Kind>,
    value: Meaning,
    log: &mut Vec<Note>,
) -> Result<(), AllocError>
    ensures { IfOk result (λ _. notes_of table.now (member_of place.now) log.new.items
        ≡ notes_of table.now (member_of place.now) log.old.items
        ++ pure.init_notes (entries_of table.now) kind value) }
{
    put_unless(
        table,
        place,
        suits(table, value.kind, kind),
        value.at,
        Rule::TypeMismatch,
        log,
    )
}

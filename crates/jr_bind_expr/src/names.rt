//! Simple names (JLS 6.5.2, 6.5.6.1).
ghost use Rattle.std.specs.Prelude.{◌≡◌, ◌++◌, ◌∷◌, [], ℕ, List, IfOk, option_map};
ghost use Rattle.jr_table.specs.Rows.{Row};
ghost use Rattle.jr_table.specs.Decls.{MemberKey};
ghost use Rattle.jr_table.specs.Entries.{class_number};
ghost use Rattle.jr_table.specs.Context.{scope_of};
ghost use Rattle.jr_table.specs.Lookup.{find_type_named};
ghost use Rattle.jr_table.specs.Meanings.{class_found, or_type};
ghost use Rattle.jr_bind_expr.specs.Places.{context_of, member_of, Knows};
ghost use Rattle.jr_bind_expr.specs.Findings.{found_of, note_of};
ghost use Rattle.jr_bind_expr.specs.Logs.{notes_of};
ghost use Rattle.jr_bind_expr.specs.Means.{role_of};
ghost use Rattle.jr_bind_expr.specs.Arms as pure;

use crate::abouts::about_finding;
use crate::findings::{Finding, Note, Sought};
use crate::meanings::{Meaning, Role};
use crate::notes::{fixed_at, is_nothing, put_when};
use crate::places::Place;
use crate::rows::class_found;
use crate::type_names::type_named;
use crate::variables::variable;
use jr_ast::Name;
use jr_table::{Rule, Table};
use std::alloc::AllocError;

/// A name before a dot: the variable, or else the type.
fn left_finding(table: &Table, place: &Place<'_>, found: Finding, name: &Name) -> Finding
    requires { Knows table.now place.now }
    ensures { found_of table.now (member_of place.now) result
        ≡ or_type (found_of table.now (member_of place.now) found)
        (find_type_named table.now (scope_of (context_of place.now)) name.now) }
{
    match found {
        Finding::Local(_) => found,
        Finding::Rows(answer) => {
            if is_nothing(table, answer) {
                Finding::Rows(type_named(table, place, name))
            } else {
                found
            }
        }
    }
}

/// The class that is found, if one is.
fn class_of_finding(table: &Table, place: &Place<'_>, finding: Finding) -> Option<u32>
    ensures { result ≡ option_map (class_number table.now)
        (class_found (found_of table.now (member_of place.now) finding)) }
{
    let _is_static = place.is_static;
    match finding {
        Finding::Local(_) => None,
        Finding::Rows(answer) => class_found(table, answer),
    }
}

fn named_note(role: Role, at: u32, found: Finding, left: Finding) -> Note
    ensures { (rows : List Row) (k : MemberKey) → note_of rows k result
        ≡ pure.named_note (role_of role) at (found_of rows k found) (found_of rows k left) }
{
    match role {
        Role::Value => Note::Finds {
            at,
            sought: Sought::Variable,
            finding: found,
        },
        Role::Statement => Note::Finds {
            at,
            sought: Sought::Variable,
            finding: found,
        },
        Role::Left => Note::Finds {
            at,
            sought: Sought::Type,
            finding: left,
        },
    }
}

/// A simple name that stands at `at`, of an expression that begins at `begin`.
pub(crate) fn simple(
    table: &Table,
    place: &Place<'_>,
    role: Role,
    begin: u32,
    at: u32,
    name: &Name,
    log: &mut Vec<Note>,
) -> Result<Meaning, AllocError>
    requires { Knows table.now place.now }
    ensures says { IfOk result (λ m.
        pure.NameSays table.now (context_of place.now) begin at name.now m) }
    ensures notes { IfOk result (λ _. notes_of table.now (member_of place.now) log.new.items
        ≡ notes_of table.now (member_of place.now) log.old.items
        ++ pure.name_notes table.now (context_of place.now) (role_of role) at name.now) }
{
    let found = variable(table, place, name);
    let about = about_finding(table, place, found);
    let left = left_finding(table, place, found, name);
    let note = named_note(role, at, found, left);
    log.push(note)?;
    put_when(table, place, about.is_forward, at, Rule::Forward, log)?;
    Ok(Meaning {
        at: begin,
        kind: about.kind,
        class: class_of_finding(table, place, left),
        fixed: fixed_at(about.is_fixed, at),
        is_constant: about.is_constant,
    })
}

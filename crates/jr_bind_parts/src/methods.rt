//! What the declaration of a method notes (JLS 8.4).
ghost use Rattle.std.specs.Prelude.{◌≡◌, ◌++◌, map, IfOk, option_map};
ghost use Rattle.jr_ast.specs.View.{word_of, type_of, param_of};
ghost use Rattle.jr_table.specs.HeadNotes.{override_notes};
ghost use Rattle.jr_bind_expr.specs.Places.{member_of, Knows};
ghost use Rattle.jr_bind_expr.specs.Logs.{notes_of};
ghost use Rattle.jr_bind_parts.specs.DeclaredTypes.{FitsMaybeType, FitsParams};
ghost use Rattle.jr_bind_parts.specs.DeclarationArms as pure;

use crate::declared::{put_params, put_result};
use crate::overriding::overrides_badly;
use jr_ast::{Ident, Param, TypeRef};
use jr_bind_expr::{Note, Place, is_object_method, put_when};
use jr_table::{MemberKey, Rule, Table};
use jr_text::Mark;
use std::alloc::AllocError;

/// A method that isn't `void` can't complete normally (JLS 8.4.7).
fn put_missing<A: Mark>(
    table: &Table,
    place: &Place<'_>,
    at: u32,
    ret: &Option<TypeRef<A>>,
    completes: bool,
    log: &mut Vec<Note>,
) -> Result<(), AllocError>
    ensures { IfOk result (λ _. notes_of table.now (member_of place.now) log.new.items
        ≡ notes_of table.now (member_of place.now) log.old.items
        ++ pure.missing_notes at (option_map type_of ret.now) completes) }
{
    match ret {
        None => Ok(()),
        Some(_) => put_when(table, place, completes, at, Rule::MissingReturn, log),
    }
}

/// The methods of superclasses that it stands under (JLS 8.4.8).
fn put_override(
    table: &Table,
    place: &Place<'_>,
    at: u32,
    log: &mut Vec<Note>,
) -> Result<(), AllocError>
    requires { Knows table.now place.now }
    ensures { IfOk result (λ _. notes_of table.now (member_of place.now) log.new.items
        ≡ notes_of table.now (member_of place.now) log.old.items
        ++ override_notes table.now (member_of place.now) at) }
{
    match place.member {
        MemberKey::Method(_) => {
            let is_broken = overrides_badly(table, place.row);
            put_when(table, place, is_broken, at, Rule::Override, log)
        }
        MemberKey::Head(_) => Ok(()),
        MemberKey::Field(_) => Ok(()),
        MemberKey::Ctor(_) => Ok(()),
    }
}

/// The declaration of a method, whose body completes normally or not.
pub fn put_declared_method<A: Mark>(
    table: &Table,
    place: &Place<'_>,
    at: u32,
    ret: &Option<TypeRef<A>>,
    name: &Ident<A>,
    params: &[Param<A>],
    completes: bool,
    log: &mut Vec<Note>,
) -> Result<(), AllocError>
    requires knows { Knows table.now place.now }
    requires fits { FitsMaybeType (λ m b. (A.span_from m b).from) A.fits_at at
        (option_map type_of ret.now) }
    requires fits_name { A.fits_at name.now.mark at }
    requires fits_params { FitsParams (λ m b. (A.span_from m b).from) A.fits_at at
        (map param_of params.now) }
    ensures { IfOk result (λ _. notes_of table.now (member_of place.now) log.new.items
        ≡ notes_of table.now (member_of place.now) log.old.items
        ++ pure.method_notes (λ m b. (A.span_from m b).from) table.now (member_of place.now) at
        (option_map type_of ret.now) (word_of name.now) (map param_of params.now) completes) }
{
    put_result(table, place.class, at, ret, log)?;
    put_params(table, place.class, at, params, log)?;
    let at_name = name.mark.span(at).from;
    put_missing(table, place, at_name, ret, completes, log)?;
    put_override(table, place, at_name, log)?;
    let is_broken = is_object_method(name.name.as_str());
    put_when(table, place, is_broken, at_name, Rule::ObjectMethod, log)
}

//! Locals that statements declare (JLS 14.4).
ghost use Rattle.std.specs.Prelude.{◌≡◌, ◌++◌, ◌+◌, true, IfOk, option_map};
ghost use Rattle.jr_ast.specs.View as view;
ghost use Rattle.jr_table.specs.Entries.{kind_of};
ghost use Rattle.jr_table.specs.Binding.{value};
ghost use Rattle.jr_table.specs.Meanings.{written_type, type_references};
ghost use Rattle.jr_table.specs.Notes.{reference_notes};
ghost use Rattle.jr_table.specs.Context.{scope_of, outer_text, local_type, local_of};
ghost use Rattle.jr_table.specs.Context.{in_own, with_local};
ghost use Rattle.jr_table.specs.Walks as walks;
ghost use Rattle.jr_expr_types.specs.Trees.{flat, flats};
ghost use Rattle.jr_expr_types.specs.TypedTrees.{exp_tree};
ghost use Rattle.jr_scopes.specs.Helds.{type_of};
ghost use Rattle.jr_bind_expr.specs.Places.{context_of, member_of, Knows};
ghost use Rattle.jr_bind_expr.specs.Fits.{FitsType, FitsExp};
ghost use Rattle.jr_bind_expr.specs.Logs.{notes_of, Adds};
ghost use Rattle.jr_bind_parts.specs.Flow.{Passes};
ghost use Rattle.jr_bind_parts.specs.StmtArms as pure;
ghost use Rattle.jr_bind_parts.specs.TypedFlow.{local_parts};

use crate::completing::{Behind, reachable_from};
use crate::stmt_notes::put_init;
use jr_ast::{Expr, Ident, Name, TypeKind, TypeRef};
use jr_bind_expr::{Note, Place, Role, put_leaf, put_when, walk_expr, written_type};
use jr_expr_types::Types;
use jr_scopes::{Held, HeldType};
use jr_table::{Kind, Rule, Table};
use jr_text::Mark;
use std::alloc::{AllocError, Global};

fn outer_name<'a, A>(of: &'a Option<Ident<A>>) -> Option<&'a Name>
    ensures { option_map (λ n. n.now) result ≡ outer_text (option_map view.word_of of.now) }
{
    match of {
        None => None,
        Some(of) => Some(&of.name),
    }
}

/// The type that a local is declared with.
fn held_type<'a, A>(of: &'a TypeRef<A>) -> HeldType<'a>
    ensures { type_of result ≡ local_type (view.type_of of.now) }
{
    match &of.kind {
        TypeKind::Int => HeldType::Int,
        TypeKind::Boolean => HeldType::Boolean,
        TypeKind::Named(outer, name) => HeldType::Named(outer_name(outer), &name.name),
    }
}

/// The number behind this one. More locals than numbers don't fit any memory.
pub fn next(number: u32) -> Result<u32, AllocError>
    ensures { IfOk result (λ n. n ≡ number + 1) }
{
    match number.checked_add(1) {
        None => Err(AllocError),
        Some(next) => Ok(next),
    }
}

/// A local or parameter of the name is in scope (JLS 6.4).
fn put_redeclared<A: Mark>(
    table: &Table,
    place: &Place<'_>,
    at: u32,
    name: &Ident<A>,
    log: &mut Vec<Note>,
) -> Result<(), AllocError>
    requires knows { Knows table.now place.now }
    requires fits { A.fits_at name.now.mark at }
    ensures { IfOk result (λ _. notes_of table.now (member_of place.now) log.new.items
        ≡ notes_of table.now (member_of place.now) log.old.items
        ++ pure.redeclared_notes (λ m b. (A.span_from m b).from) table.now
        (context_of place.now) at (view.word_of name.now)) }
{
    let at_name = name.mark.span(at).from;
    let is_held = place.locals.number_named(&name.name).is_some();
    put_when(table, place, is_held, at_name, Rule::Redeclared, log)
}

/// Brings a local into scope, in whose initializer the place is then (JLS 6.3).
pub fn declare<'a, A>(
    table: &Table,
    place: &mut Place<'a>,
    number: u32,
    is_final: bool,
    ty: &'a TypeRef<A>,
    name: &'a Ident<A>,
    kind: Option<Kind>,
) -> Result<(), AllocError>
    requires knows { Knows table.now place.now }
    requires kind { kind ≡ option_map (kind_of table.now)
        (written_type table.now (scope_of (context_of place.now)) (view.type_of ty.now)) }
    ensures context { IfOk result (λ _. context_of place.new ≡ in_own (context_of place.old)
        (local_of (context_of place.old) number is_final (view.type_of ty.now)
        (view.word_of name.now))) }
    ensures knows { IfOk result (λ _. Knows table.now place.new) }
{
    table.keeps_rows();
    let ty = held_type(ty);
    place.locals.push(Held {
        name: &name.name,
        number,
        is_final,
        ty,
        has_init: true,
        kind,
    })?;
    place.own = Some(number);
    Ok(())
}

/// The type of a local, and the notes on it and on the name.
fn local_head<A: Mark>(
    table: &Table,
    place: &Place<'_>,
    at: u32,
    ty: &TypeRef<A>,
    name: &Ident<A>,
    log: &mut Vec<Note>,
) -> Result<Option<Kind>, AllocError>
    requires knows { Knows table.now place.now }
    requires fits { FitsType (λ m b. (A.span_from m b).from) A.fits_at at (view.type_of ty.now) }
    requires fits_name { A.fits_at name.now.mark at }
    ensures kind { IfOk result (λ k. k ≡ option_map (kind_of table.now)
        (written_type table.now (scope_of (context_of place.now)) (view.type_of ty.now))) }
    ensures notes { IfOk result (λ _. notes_of table.now (member_of place.now) log.new.items
        ≡ notes_of table.now (member_of place.now) log.old.items
        ++ (reference_notes (type_references (λ m b. (A.span_from m b).from) table.now
        (context_of place.now) at (view.type_of ty.now))
        ++ pure.redeclared_notes (λ m b. (A.span_from m b).from) table.now
        (context_of place.now) at (view.word_of name.now))) }
{
    let kind = written_type(table, place, at, ty, log)?;
    put_redeclared(table, place, at, name, log)?;
    Ok(kind)
}

/// A local's initializer, in whose scope the local is.
pub fn local_init<A: Mark>(
    alloc: Global,
    table: &Table,
    place: &Place<'_>,
    at: u32,
    kind: Option<Kind>,
    of: &Expr<A>,
    log: &mut Vec<Note>,
    types: &mut Types,
) -> Result<(), AllocError>
    requires knows { Knows table.now place.now }
    requires fits { FitsExp (λ m b. (A.span_from m b).from) A.fits_at at (view.expr_of of.now) }
    ensures notes { IfOk result (λ _. pure.InitAdds (λ m b. (A.span_from m b).from) table.now
        (context_of place.now) at kind (view.expr_of of.now)
        (notes_of table.now (member_of place.now) log.old.items)
        (notes_of table.now (member_of place.now) log.new.items)) }
    ensures slots { IfOk result (λ _. types.new ≡ types.old
        ++ flat (exp_tree table.now (context_of place.now) (view.expr_of of.now))) }
{
    table.keeps_rows();
    let value = walk_expr(alloc, table, place, Role::Value, at, of, log, types)?;
    put_init(table, place, kind, value, log)
}

/// A local; it stays in scope.
pub fn local<'a, A: Mark>(
    alloc: Global,
    table: &Table,
    place: &mut Place<'a>,
    at: u32,
    number: u32,
    is_final: bool,
    ty: &'a TypeRef<A>,
    name: &'a Ident<A>,
    init: &'a Expr<A>,
    log: &mut Vec<Note>,
    types: &mut Types,
) -> Result<Behind, AllocError>
    requires knows { Knows table.now place.now }
    requires fits { FitsType (λ m b. (A.span_from m b).from) A.fits_at at (view.type_of ty.now) }
    requires fits_name { A.fits_at name.now.mark at }
    requires fits_init { FitsExp (λ m b. (A.span_from m b).from) A.fits_at at
        (view.expr_of init.now) }
    ensures passes { IfOk result (λ b. pure.LocalPasses (λ m b. (A.span_from m b).from) table.now
        place.old at number is_final (view.type_of ty.now) (view.word_of name.now)
        (view.expr_of init.now) log.old.items b place.new log.new.items) }
    ensures slots { IfOk result (λ _. types.new ≡ types.old ++ flats (local_parts table.now number
        (context_of place.old) is_final (view.type_of ty.now) (view.word_of name.now)
        (view.expr_of init.now))) }
{
    table.keeps_rows();
    let next = next(number)?;
    let kind = local_head(table, place, at, ty, name, log)?;
    declare(table, place, number, is_final, ty, name, kind)?;
    put_leaf(types)?;
    put_leaf(types)?;
    local_init(alloc, table, place, at, kind, init, log, types)?;
    place.own = None;
    Ok(reachable_from(next))
}

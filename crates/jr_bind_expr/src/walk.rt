//! The walk over an expression: its notes and its tree of types are made at once.
ghost use Rattle.std.specs.Prelude.{◌≡◌, ◌++◌, List, false, IfOk, option_map, map};
ghost use Rattle.jr_table.specs.Rows.{Row};
ghost use Rattle.jr_table.specs.Context.{Context};
ghost use Rattle.jr_ast.specs.View.{type_of, expr_of, exprs_of, target_of};
ghost use Rattle.jr_table.specs.Entries.{kind_of};
ghost use Rattle.jr_table.specs.Notes.{is_this, when, breaks, reference_notes};
ghost use Rattle.jr_table.specs.Meanings.{types_of, type_references};
ghost use Rattle.jr_table.specs.Walks as walks;
ghost use Rattle.jr_expr_types.specs.Trees.{flat, flats};
ghost use Rattle.jr_expr_types.specs.TypedTrees.{exp_tree, exp_parts, target_parts};
ghost use Rattle.jr_bind_expr.specs.Places.{context_of, member_of, Knows};
ghost use Rattle.jr_bind_expr.specs.Fits.{FitsType, FitsExp, FitsTarget, FitsExps};
ghost use Rattle.jr_bind_expr.specs.Logs.{notes_of, Adds};
ghost use Rattle.jr_bind_expr.specs.ArgsView.{kinds_of};
ghost use Rattle.jr_bind_expr.specs.Means.{role_of, Means, TargetMeans};
ghost use Rattle.jr_bind_expr.specs.Arms as pure;
ghost use Rattle.jr_bind_expr.specs.TypedSlots.{row_slots};

use crate::args::Args;
use crate::fields::{field, super_field};
use crate::findings::Note;
use crate::invocations::{call, create, super_call};
use crate::meanings::{Meaning, Role, plain};
use crate::names::simple;
use crate::notes::put_when;
use crate::operators::{assign, binary, bump, cast, compound, unary};
use crate::places::Place;
use crate::type_names::{boxed_type, written_type};
use crate::typing::{close_expr, put_leaf};
use jr_ast::{Expr, ExprKind, TypeRef};
use jr_expr_types::Types;
use jr_table::{Kind, Rule, Table};
use jr_text::Mark;
use std::alloc::{AllocError, Global};

/// The rows of `String` and `Class`.
const STRING: u32 = 2;

const CLASS: u32 = 3;

#[tactic(auto, unfolding(jr_ast::specs::View::expr_kind))]
fn is_this<A>(of: &Expr<A>) -> bool
    ensures { (rows : List Row) (c : Context) → result ≡ is_this rows c (expr_of of.now) }
{
    match of.kind {
        ExprKind::This => true,
        _ => false,
    }
}

/// `this`.
fn this(
    table: &Table,
    place: &Place<'_>,
    begin: u32,
    log: &mut Vec<Note>,
) -> Result<Meaning, AllocError>
    ensures says { IfOk result (λ m.
        m ≡ pure.plain begin (Some (Kind.Class place.now.class)) false) }
    ensures notes { IfOk result (λ _. notes_of table.now (member_of place.now) log.new.items
        ≡ notes_of table.now (member_of place.now) log.old.items
        ++ when place.now.is_static (breaks begin Rule.StaticContext)) }
{
    put_when(
        table,
        place,
        place.is_static,
        begin,
        Rule::StaticContext,
        log,
    )?;
    Ok(plain(begin, Some(Kind::Class(place.class)), false))
}

/// A class literal.
fn class_literal<A: Mark>(
    table: &Table,
    place: &Place<'_>,
    begin: u32,
    of: &TypeRef<A>,
    log: &mut Vec<Note>,
) -> Result<Meaning, AllocError>
    requires knows { Knows table.now place.now }
    requires fits { FitsType (λ m b. (A.span_from m b).from) A.fits_at begin (type_of of.now) }
    ensures says { IfOk result (λ m. m ≡ pure.plain begin (Some (Kind.Class CLASS)) false) }
    ensures notes { IfOk result (λ _. notes_of table.now (member_of place.now) log.new.items
        ≡ notes_of table.now (member_of place.now) log.old.items
        ++ reference_notes (type_references (λ m b. (A.span_from m b).from) table.now
        (context_of place.now) begin (type_of of.now))) }
{
    written_type(table, place, begin, of, log)?;
    Ok(plain(begin, Some(Kind::Class(CLASS)), false))
}

/// What an expression means; notes what it and its parts find and break, and makes the trees of its
/// parts.
#[cycle(walk)]
fn walk_parts<A: Mark>(
    alloc: Global,
    table: &Table,
    place: &Place<'_>,
    role: Role,
    base: u32,
    of: &Expr<A>,
    log: &mut Vec<Note>,
    types: &mut Types,
) -> Result<Meaning, AllocError>
    requires knows { Knows table.now place.now }
    requires fits { FitsExp (λ m b. (A.span_from m b).from) A.fits_at base (expr_of of.now) }
    ensures means { IfOk result (λ m. Means (λ m b. (A.span_from m b).from) table.now
        (context_of place.now) base (expr_of of.now) m) }
    ensures notes { IfOk result (λ _. Adds
        (notes_of table.now (member_of place.now) log.old.items)
        (walks.notes_of (λ m b. (A.span_from m b).from) table.now (context_of place.now)
        (role_of role) base (expr_of of.now))
        (notes_of table.now (member_of place.now) log.new.items)) }
    ensures slots { IfOk result (λ _. types.new ≡ types.old
        ++ flats (exp_parts table.now (context_of place.now) (expr_of of.now))) }
{
    table.keeps_rows();
    let at = of.mark.span(base).from;
    match &of.kind {
        ExprKind::Int(_) => Ok(plain(at, Some(Kind::Int), true)),
        ExprKind::Bool(_) => Ok(plain(at, Some(Kind::Boolean), true)),
        ExprKind::Null => Ok(plain(at, Some(Kind::Null), true)),
        ExprKind::Text(_) => Ok(plain(at, Some(Kind::Class(STRING)), true)),
        ExprKind::This => this(table, place, at, log),
        ExprKind::ClassLit(ty) => {
            put_leaf(types)?;
            class_literal(table, place, at, ty, log)
        }
        ExprKind::Simple(name) => {
            put_leaf(types)?;
            let at_name = name.mark.span(at).from;
            simple(table, place, role, at, at_name, &name.name, log)
        }
        ExprKind::Field(part, name) => {
            let of = walk_expr(alloc, table, place, Role::Left, at, part, log, types)?;
            put_leaf(types)?;
            let at_name = name.mark.span(at).from;
            let on_this = is_this(part);
            field(
                table, place, role, at, at_name, of, on_this, &name.name, log,
            )
        }
        ExprKind::SuperField(name) => {
            put_leaf(types)?;
            let at_name = name.mark.span(at).from;
            super_field(table, place, at, at_name, &name.name, log)
        }
        ExprKind::Call(target, name, args) => {
            let target = walk_target(alloc, table, place, at, target, log, types)?;
            put_leaf(types)?;
            let kinds = walk_args(alloc, table, place, at, args, log, types)?;
            let at_name = name.mark.span(at).from;
            call(
                alloc, table, place, role, at, at_name, target, &name.name, &kinds, log,
            )
        }
        ExprKind::SuperCall(name, args) => {
            put_leaf(types)?;
            let kinds = walk_args(alloc, table, place, at, args, log, types)?;
            let at_name = name.mark.span(at).from;
            super_call(
                alloc, table, place, role, at, at_name, &name.name, &kinds, log,
            )
        }
        ExprKind::New(ty, args) => {
            put_leaf(types)?;
            let kind = boxed_type(table, place, at, ty, log)?;
            let kinds = walk_args(alloc, table, place, at, args, log, types)?;
            create(alloc, table, place, at, kind, &kinds, log)
        }
        ExprKind::Paren(part) => {
            let of = walk_expr(alloc, table, place, Role::Value, at, part, log, types)?;
            Ok(plain(at, of.kind, of.is_constant))
        }
        ExprKind::Cast(ty, part) => {
            put_leaf(types)?;
            let kind = boxed_type(table, place, at, ty, log)?;
            let of = walk_expr(alloc, table, place, Role::Value, at, part, log, types)?;
            cast(table, place, at, kind, of, log)
        }
        ExprKind::Unary(op, part) => {
            let of = walk_expr(alloc, table, place, Role::Value, at, part, log, types)?;
            unary(table, place, *op, at, of, log)
        }
        ExprKind::Bump(_, part) => {
            let of = walk_expr(alloc, table, place, Role::Value, at, part, log, types)?;
            bump(table, place, at, of, log)
        }
        ExprKind::Binary(op, left, right) => {
            let left = walk_expr(alloc, table, place, Role::Value, at, left, log, types)?;
            let right = walk_expr(alloc, table, place, Role::Value, at, right, log, types)?;
            binary(table, place, *op, at, left, right, log)
        }
        ExprKind::Assign(to, value) => {
            let to = walk_expr(alloc, table, place, Role::Value, at, to, log, types)?;
            let value = walk_expr(alloc, table, place, Role::Value, at, value, log, types)?;
            assign(table, place, at, to, value, log)
        }
        ExprKind::Compound(_, to, value) => {
            let to = walk_expr(alloc, table, place, Role::Value, at, to, log, types)?;
            let value = walk_expr(alloc, table, place, Role::Value, at, value, log, types)?;
            compound(table, place, at, to, value, log)
        }
    }
}

/// The same, and makes the tree of the expression itself.
#[cycle(walk)]
pub fn walk_expr<A: Mark>(
    alloc: Global,
    table: &Table,
    place: &Place<'_>,
    role: Role,
    base: u32,
    of: &Expr<A>,
    log: &mut Vec<Note>,
    types: &mut Types,
) -> Result<Meaning, AllocError>
    requires knows { Knows table.now place.now }
    requires fits { FitsExp (λ m b. (A.span_from m b).from) A.fits_at base (expr_of of.now) }
    ensures means { IfOk result (λ m. Means (λ m b. (A.span_from m b).from) table.now
        (context_of place.now) base (expr_of of.now) m) }
    ensures notes { IfOk result (λ _. Adds
        (notes_of table.now (member_of place.now) log.old.items)
        (walks.notes_of (λ m b. (A.span_from m b).from) table.now (context_of place.now)
        (role_of role) base (expr_of of.now))
        (notes_of table.now (member_of place.now) log.new.items)) }
    ensures slots { IfOk result (λ _. types.new ≡ types.old
        ++ flat (exp_tree table.now (context_of place.now) (expr_of of.now))) }
{
    table.keeps_rows();
    let before = types.count();
    let meaning = walk_parts(alloc, table, place, role, base, of, log, types)?;
    close_expr(table, before, of, meaning.kind, types)?;
    Ok(meaning)
}

/// What a call is made on, and its tree.
#[cycle(walk)]
fn walk_target<A: Mark>(
    alloc: Global,
    table: &Table,
    place: &Place<'_>,
    at: u32,
    of: &Option<Box<Expr<A>>>,
    log: &mut Vec<Note>,
    types: &mut Types,
) -> Result<Option<Meaning>, AllocError>
    requires knows { Knows table.now place.now }
    requires fits { FitsTarget (λ m b. (A.span_from m b).from) A.fits_at at (target_of of.now) }
    ensures means { IfOk result (λ t. TargetMeans (λ m b. (A.span_from m b).from) table.now
        (context_of place.now) at (target_of of.now) t) }
    ensures notes { IfOk result (λ _. Adds
        (notes_of table.now (member_of place.now) log.old.items)
        (walks.target_notes (λ m b. (A.span_from m b).from) table.now (context_of place.now)
        at (target_of of.now))
        (notes_of table.now (member_of place.now) log.new.items)) }
    ensures slots { IfOk result (λ _. types.new ≡ types.old
        ++ flats (target_parts table.now (context_of place.now) (target_of of.now))) }
{
    match of {
        None => Ok(None),
        Some(of) => {
            let of = walk_expr(alloc, table, place, Role::Left, at, of, log, types)?;
            Ok(Some(of))
        }
    }
}

/// Arguments, and their trees.
#[cycle(walk)]
pub fn walk_args<A: Mark>(
    alloc: Global,
    table: &Table,
    place: &Place<'_>,
    at: u32,
    parts: &[Expr<A>],
    log: &mut Vec<Note>,
    types: &mut Types,
) -> Result<Args, AllocError>
    requires knows { Knows table.now place.now }
    requires fits { FitsExps (λ m b. (A.span_from m b).from) A.fits_at at (exprs_of parts.now) }
    ensures kinds { IfOk result (λ kinds. kinds_of kinds ≡ option_map (map (kind_of table.now))
        (types_of table.now (context_of place.now) (exprs_of parts.now))) }
    ensures notes { IfOk result (λ _. Adds
        (notes_of table.now (member_of place.now) log.old.items)
        (walks.args_notes (λ m b. (A.span_from m b).from) table.now (context_of place.now)
        at (exprs_of parts.now))
        (notes_of table.now (member_of place.now) log.new.items)) }
    ensures slots { IfOk result (λ _. types.new ≡ types.old
        ++ row_slots table.now (context_of place.now) (exprs_of parts.now)) }
{
    let mut kinds = Args::new(alloc);
    for part in parts {
        let of = walk_expr(alloc, table, place, Role::Value, at, part, log, types)?;
        kinds.put(of.kind)?;
    }
    Ok(kinds)
}

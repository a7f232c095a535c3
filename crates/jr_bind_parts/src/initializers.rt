//! The initializers of fields (JLS 8.3.2).
ghost use Rattle.std.specs.Prelude.{◌≡◌, ◌++◌, Bool, Some, IfOk, option_map};
ghost use Rattle.jr_ast.specs.View.{expr_of};
ghost use Rattle.jr_table.specs.Decls as decls;
ghost use Rattle.jr_table.specs.HeadRules.{plain};
ghost use Rattle.jr_table.specs.HeadNotes.{init_notes};
ghost use Rattle.jr_table.specs.Walks as walks;
ghost use Rattle.jr_expr_types.specs.Trees.{flat};
ghost use Rattle.jr_expr_types.specs.TypedTrees.{exp_tree};
ghost use Rattle.jr_bind_expr.specs.Places.{context_of, Knows};
ghost use Rattle.jr_bind_expr.specs.Fits.{FitsExp, FitsMaybe};
ghost use Rattle.jr_bind_expr.specs.Logs.{notes_of, Adds};
ghost use Rattle.jr_bind_parts.specs.TypedFlow.{maybe_slots};

use crate::locals::local_init;
use jr_ast::Expr;
use jr_bind_expr::{Note, Place, Role, kind_at, walk_expr};
use jr_expr_types::Types;
use jr_table::{MemberKey, Table};
use jr_text::Mark;
use std::alloc::{AllocError, Global};

/// An expression of which nothing more is to be noted.
fn put_value<A: Mark>(
    alloc: Global,
    table: &Table,
    place: &Place<'_>,
    at: u32,
    of: &Expr<A>,
    log: &mut Vec<Note>,
    types: &mut Types,
) -> Result<(), AllocError>
    requires knows { Knows table.now place.now }
    requires fits { FitsExp (λ m b. (A.span_from m b).from) A.fits_at at (expr_of of.now) }
    ensures notes { (k : decls.MemberKey) (s : Bool) → context_of place.now ≡ plain k s
        → IfOk result (λ _. Adds (notes_of table.now k log.old.items)
        (walks.maybe_notes (λ m b. (A.span_from m b).from) table.now (plain k s) at
        (Some (expr_of of.now))) (notes_of table.now k log.new.items)) }
    ensures slots { IfOk result (λ _. types.new ≡ types.old
        ++ flat (exp_tree table.now (context_of place.now) (expr_of of.now))) }
{
    walk_expr(alloc, table, place, Role::Value, at, of, log, types)?;
    Ok(())
}

/// A field's initializer, which is assignable to the field.
fn put_assigned<A: Mark>(
    alloc: Global,
    table: &Table,
    place: &Place<'_>,
    at: u32,
    of: &Expr<A>,
    log: &mut Vec<Note>,
    types: &mut Types,
) -> Result<(), AllocError>
    requires knows { Knows table.now place.now }
    requires fits { FitsExp (λ m b. (A.span_from m b).from) A.fits_at at (expr_of of.now) }
    ensures notes { (k : decls.MemberKey) (s : Bool) → context_of place.now ≡ plain k s
        → IfOk result (λ _. Adds (notes_of table.now k log.old.items)
        (init_notes (λ m b. (A.span_from m b).from) table.now k s at (Some (expr_of of.now))
        ++ walks.maybe_notes (λ m b. (A.span_from m b).from) table.now (plain k s) at
        (Some (expr_of of.now))) (notes_of table.now k log.new.items)) }
    ensures slots { IfOk result (λ _. types.new ≡ types.old
        ++ flat (exp_tree table.now (context_of place.now) (expr_of of.now))) }
{
    table.keeps_rows();
    match place.member {
        MemberKey::Field(_) => {
            let kind = kind_at(table, place.row);
            local_init(alloc, table, place, at, kind, of, log, types)
        }
        MemberKey::Head(_) => put_value(alloc, table, place, at, of, log, types),
        MemberKey::Method(_) => put_value(alloc, table, place, at, of, log, types),
        MemberKey::Ctor(_) => put_value(alloc, table, place, at, of, log, types),
    }
}

/// A field's initializer, if there is one.
pub fn put_initializer<A: Mark>(
    alloc: Global,
    table: &Table,
    place: &Place<'_>,
    at: u32,
    of: &Option<Expr<A>>,
    log: &mut Vec<Note>,
    types: &mut Types,
) -> Result<(), AllocError>
    requires knows { Knows table.now place.now }
    requires fits { FitsMaybe (λ m b. (A.span_from m b).from) A.fits_at at
        (option_map expr_of of.now) }
    ensures notes { (k : decls.MemberKey) (s : Bool) → context_of place.now ≡ plain k s
        → IfOk result (λ _. Adds (notes_of table.now k log.old.items)
        (init_notes (λ m b. (A.span_from m b).from) table.now k s at (option_map expr_of of.now)
        ++ walks.maybe_notes (λ m b. (A.span_from m b).from) table.now (plain k s) at
        (option_map expr_of of.now)) (notes_of table.now k log.new.items)) }
    ensures slots { IfOk result (λ _. types.new ≡ types.old
        ++ maybe_slots table.now (context_of place.now) (option_map expr_of of.now)) }
{
    match of {
        None => Ok(()),
        Some(of) => put_assigned(alloc, table, place, at, of, log, types),
    }
}

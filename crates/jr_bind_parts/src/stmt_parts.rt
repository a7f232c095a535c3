//! The expressions of statements, and what these note on them (JLS 14).
ghost use Rattle.std.specs.Prelude.{◌≡◌, ◌++◌, IfOk, option_map};
ghost use Rattle.jr_ast.specs.View.{expr_of};
ghost use Rattle.jr_table.specs.Walks as walks;
ghost use Rattle.jr_table.specs.Binding.{value, statement};
ghost use Rattle.jr_expr_types.specs.Trees.{flat};
ghost use Rattle.jr_expr_types.specs.TypedTrees.{exp_tree};
ghost use Rattle.jr_bind_expr.specs.Places.{context_of, member_of, Knows};
ghost use Rattle.jr_bind_expr.specs.Fits.{FitsExp, FitsMaybe};
ghost use Rattle.jr_bind_expr.specs.Logs.{notes_of, Adds};
ghost use Rattle.jr_bind_parts.specs.StmtArms as pure;
ghost use Rattle.jr_bind_parts.specs.TypedFlow.{maybe_slots};

use crate::completing::is_true;
use crate::stmt_notes::{due, put_condition, put_lock, put_loop, put_no_value, put_value};
use jr_ast::Expr;
use jr_bind_expr::{Note, Place, Role, walk_expr};
use jr_expr_types::Types;
use jr_table::Table;
use jr_text::Mark;
use std::alloc::{AllocError, Global};

/// The condition of an `if`.
pub fn condition<A: Mark>(
    alloc: Global,
    table: &Table,
    place: &Place<'_>,
    at: u32,
    of: &Expr<A>,
    log: &mut Vec<Note>,
    types: &mut Types,
) -> Result<(), AllocError>
    requires knows { Knows table.now place.now }
    requires fits { FitsExp (λ m b. (A.span_from m b).from) A.fits_at at (expr_of of.now) }
    ensures notes { IfOk result (λ _. Adds (notes_of table.now (member_of place.now) log.old.items)
        (pure.checked_notes (λ m b. (A.span_from m b).from) table.now (context_of place.now)
        at (expr_of of.now) ++ walks.notes_of (λ m b. (A.span_from m b).from) table.now
        (context_of place.now) value at (expr_of of.now))
        (notes_of table.now (member_of place.now) log.new.items)) }
    ensures slots { IfOk result (λ _. types.new ≡ types.old
        ++ flat (exp_tree table.now (context_of place.now) (expr_of of.now))) }
{
    let value = walk_expr(alloc, table, place, Role::Value, at, of, log, types)?;
    put_condition(table, place, value, log)
}

/// The condition of a loop.
pub fn loop_condition<A: Mark>(
    alloc: Global,
    table: &Table,
    place: &Place<'_>,
    at: u32,
    of: &Expr<A>,
    log: &mut Vec<Note>,
    types: &mut Types,
) -> Result<(), AllocError>
    requires knows { Knows table.now place.now }
    requires fits { FitsExp (λ m b. (A.span_from m b).from) A.fits_at at (expr_of of.now) }
    ensures notes { IfOk result (λ _. Adds (notes_of table.now (member_of place.now) log.old.items)
        (pure.looped_notes (λ m b. (A.span_from m b).from) table.now (context_of place.now)
        at (expr_of of.now) ++ walks.notes_of (λ m b. (A.span_from m b).from) table.now
        (context_of place.now) value at (expr_of of.now))
        (notes_of table.now (member_of place.now) log.new.items)) }
    ensures slots { IfOk result (λ _. types.new ≡ types.old
        ++ flat (exp_tree table.now (context_of place.now) (expr_of of.now))) }
{
    let value = walk_expr(alloc, table, place, Role::Value, at, of, log, types)?;
    put_loop(table, place, value, is_true(of), log)
}

/// What is locked.
pub fn lock<A: Mark>(
    alloc: Global,
    table: &Table,
    place: &Place<'_>,
    at: u32,
    of: &Expr<A>,
    log: &mut Vec<Note>,
    types: &mut Types,
) -> Result<(), AllocError>
    requires knows { Knows table.now place.now }
    requires fits { FitsExp (λ m b. (A.span_from m b).from) A.fits_at at (expr_of of.now) }
    ensures notes { IfOk result (λ _. Adds (notes_of table.now (member_of place.now) log.old.items)
        (pure.locked_notes (λ m b. (A.span_from m b).from) table.now (context_of place.now)
        at (expr_of of.now) ++ walks.notes_of (λ m b. (A.span_from m b).from) table.now
        (context_of place.now) value at (expr_of of.now))
        (notes_of table.now (member_of place.now) log.new.items)) }
    ensures slots { IfOk result (λ _. types.new ≡ types.old
        ++ flat (exp_tree table.now (context_of place.now) (expr_of of.now))) }
{
    let value = walk_expr(alloc, table, place, Role::Value, at, of, log, types)?;
    put_lock(table, place, value, log)
}

/// A value that is returned.
fn returned_value<A: Mark>(
    alloc: Global,
    table: &Table,
    place: &Place<'_>,
    at: u32,
    of: &Expr<A>,
    log: &mut Vec<Note>,
    types: &mut Types,
) -> Result<(), AllocError>
    requires knows { Knows table.now place.now }
    requires fits { FitsExp (λ m b. (A.span_from m b).from) A.fits_at at (expr_of of.now) }
    ensures notes { IfOk result (λ _. Adds (notes_of table.now (member_of place.now) log.old.items)
        (pure.value_returned_notes (λ m b. (A.span_from m b).from) table.now
        (context_of place.now) at (expr_of of.now) ++ walks.notes_of
        (λ m b. (A.span_from m b).from) table.now (context_of place.now) value at
        (expr_of of.now)) (notes_of table.now (member_of place.now) log.new.items)) }
    ensures slots { IfOk result (λ _. types.new ≡ types.old
        ++ flat (exp_tree table.now (context_of place.now) (expr_of of.now))) }
{
    table.keeps_rows();
    let value = walk_expr(alloc, table, place, Role::Value, at, of, log, types)?;
    put_value(table, place, at, due(table, place), value, log)
}

/// What is returned.
pub fn return_value<A: Mark>(
    alloc: Global,
    table: &Table,
    place: &Place<'_>,
    at: u32,
    of: &Option<Expr<A>>,
    log: &mut Vec<Note>,
    types: &mut Types,
) -> Result<(), AllocError>
    requires knows { Knows table.now place.now }
    requires fits { FitsMaybe (λ m b. (A.span_from m b).from) A.fits_at at
        (option_map expr_of of.now) }
    ensures notes { IfOk result (λ _. Adds (notes_of table.now (member_of place.now) log.old.items)
        (pure.returned_notes (λ m b. (A.span_from m b).from) table.now (context_of place.now)
        at (option_map expr_of of.now) ++ walks.maybe_notes (λ m b. (A.span_from m b).from)
        table.now (context_of place.now) at (option_map expr_of of.now))
        (notes_of table.now (member_of place.now) log.new.items)) }
    ensures slots { IfOk result (λ _. types.new ≡ types.old
        ++ maybe_slots table.now (context_of place.now) (option_map expr_of of.now)) }
{
    match of {
        None => put_no_value(table, place, at, due(table, place), log),
        Some(of) => returned_value(alloc, table, place, at, of, log, types),
    }
}

/// An expression that is a statement.
pub fn eval<A: Mark>(
    alloc: Global,
    table: &Table,
    place: &Place<'_>,
    at: u32,
    of: &Expr<A>,
    log: &mut Vec<Note>,
    types: &mut Types,
) -> Result<(), AllocError>
    requires knows { Knows table.now place.now }
    requires fits { FitsExp (λ m b. (A.span_from m b).from) A.fits_at at (expr_of of.now) }
    ensures notes { IfOk result (λ _. Adds (notes_of table.now (member_of place.now) log.old.items)
        (walks.notes_of (λ m b. (A.span_from m b).from) table.now (context_of place.now)
        statement at (expr_of of.now))
        (notes_of table.now (member_of place.now) log.new.items)) }
    ensures slots { IfOk result (λ _. types.new ≡ types.old
        ++ flat (exp_tree table.now (context_of place.now) (expr_of of.now))) }
{
    walk_expr(alloc, table, place, Role::Statement, at, of, log, types)?;
    Ok(())
}

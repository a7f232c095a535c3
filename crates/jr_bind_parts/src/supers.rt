//! The first call of a constructor (JLS 8.8.7.1).
ghost use Rattle.std.specs.Prelude.{◌≡◌, ◌++◌, false, IfOk};
ghost use Rattle.jr_ast.specs.View.{exprs_of, args_of};
ghost use Rattle.jr_table.specs.HeadRules.{plain};
ghost use Rattle.jr_table.specs.Notes.{when, breaks};
ghost use Rattle.jr_table.specs.HeadNotes as heads;
ghost use Rattle.jr_table.specs.Walks as walks;
ghost use Rattle.jr_bind_expr.specs.Places.{context_of, member_of, Knows};
ghost use Rattle.jr_bind_expr.specs.Fits.{FitsExps};
ghost use Rattle.jr_bind_expr.specs.Logs.{notes_of, Adds};
ghost use Rattle.jr_bind_parts.specs.PartFits.{FitsMaybeArgs};
ghost use Rattle.jr_bind_parts.specs.Supers as pure;
ghost use Rattle.jr_bind_parts.specs.TypedFlow.{args_slots};
ghost use Rattle.jr_bind_expr.specs.TypedSlots.{row_slots};

use crate::heads::{lacks_super_ctor, super_ctor};
use jr_ast::Expr;
use jr_bind_expr::{Note, Place, put_method, put_when, walk_args};
use jr_expr_types::Types;
use jr_table::{Rule, Table};
use jr_text::Mark;
use std::alloc::{AllocError, Global};

/// A written `super(..)`: its arguments, and the constructor that it finds.
fn put_written<A: Mark>(
    alloc: Global,
    table: &Table,
    place: &Place<'_>,
    super_at: u32,
    at: u32,
    args: &[Expr<A>],
    log: &mut Vec<Note>,
    types: &mut Types,
) -> Result<(), AllocError>
    requires knows { Knows table.now place.now }
    requires fits { FitsExps (λ m b. (A.span_from m b).from) A.fits_at at (exprs_of args.now) }
    ensures notes { IfOk result (λ _. Adds (notes_of table.now (member_of place.now) log.old.items)
        (pure.written_notes table.now (context_of place.now) super_at (exprs_of args.now)
        ++ walks.args_notes (λ m b. (A.span_from m b).from) table.now (context_of place.now)
        at (exprs_of args.now)) (notes_of table.now (member_of place.now) log.new.items)) }
    ensures slots { IfOk result (λ _. types.new ≡ types.old
        ++ row_slots table.now (context_of place.now) (exprs_of args.now)) }
{
    let kinds = walk_args(alloc, table, place, at, args, log, types)?;
    let answer = super_ctor(alloc, table, place.class, &kinds)?;
    put_method(table, place, super_at, answer, log)
}

/// The implicit `super()` (JLS 8.8.7).
fn put_implicit(
    alloc: Global,
    table: &Table,
    place: &Place<'_>,
    at: u32,
    log: &mut Vec<Note>,
) -> Result<(), AllocError>
    requires { Knows table.now place.now }
    ensures { IfOk result (λ _. notes_of table.now (member_of place.now) log.new.items
        ≡ notes_of table.now (member_of place.now) log.old.items
        ++ when (heads.lacks_super_ctor table.now (plain (member_of place.now) false))
        (breaks at Rule.SuperCtor)) }
{
    let is_broken = lacks_super_ctor(alloc, table, place.class)?;
    put_when(table, place, is_broken, at, Rule::SuperCtor, log)
}

/// The first call of a constructor, whose name begins at `at_name`.
pub fn put_super<A: Mark>(
    alloc: Global,
    table: &Table,
    place: &Place<'_>,
    super_at: u32,
    at: u32,
    at_name: u32,
    args: &Option<Vec<Expr<A>>>,
    log: &mut Vec<Note>,
    types: &mut Types,
) -> Result<(), AllocError>
    requires knows { Knows table.now place.now }
    requires fits { FitsMaybeArgs (λ m b. (A.span_from m b).from) A.fits_at at
        (args_of args.now) }
    ensures notes { IfOk result (λ _. Adds (notes_of table.now (member_of place.now) log.old.items)
        (pure.super_notes table.now (context_of place.now) super_at at_name (args_of args.now)
        ++ walks.super_args_notes (λ m b. (A.span_from m b).from) table.now
        (context_of place.now) at (args_of args.now))
        (notes_of table.now (member_of place.now) log.new.items)) }
    ensures slots { IfOk result (λ _. types.new ≡ types.old
        ++ args_slots table.now (context_of place.now) (args_of args.now)) }
{
    match args {
        None => put_implicit(alloc, table, place, at_name, log),
        Some(args) => put_written(
            alloc,
            table,
            place,
            super_at,
            at,
            args.as_slice(),
            log,
            types,
        ),
    }
}

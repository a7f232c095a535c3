//! The walk over statements (JLS 14): notes and trees of types.
ghost use Rattle.std.specs.Prelude.{◌≡◌, ◌++◌, IfOk};
ghost use Rattle.jr_ast.specs.View.{stmt_of, stmts_of, else_of};
ghost use Rattle.jr_expr_types.specs.Trees.{flat, flats};
ghost use Rattle.jr_expr_types.specs.TypedTrees.{stmt_parts, stmt_tree};
ghost use Rattle.jr_bind_expr.specs.Places.{context_of, Knows};
ghost use Rattle.jr_bind_expr.specs.Fits.{FitsStmt, FitsElse, FitsStmts};
ghost use Rattle.jr_bind_parts.specs.Flow as flow;
ghost use Rattle.jr_bind_parts.specs.TypedFlow.{else_slots, body_slots};

use crate::completing::{
    Behind, behind_both, behind_branches, behind_loop, is_true, reachable_from, unreachable_from,
};
use crate::locals::local;
use crate::stmt_nodes::close_stmt;
use crate::stmt_parts::{condition, eval, lock, loop_condition, return_value};
use jr_ast::{Stmt, StmtKind};
use jr_bind_expr::{Note, Place, put_unless};
use jr_expr_types::Types;
use jr_table::{Rule, Table};
use jr_text::Mark;
use std::alloc::{AllocError, Global};

/// Notes what a statement breaks, and what its parts find and break, and makes the trees of its
/// parts. A local that it declares stays in scope.
#[cycle(stmt_walk)]
pub fn stmt<'a, A: Mark>(
    alloc: Global,
    table: &Table,
    place: &mut Place<'a>,
    base: u32,
    number: u32,
    of: &'a Stmt<A>,
    log: &mut Vec<Note>,
    types: &mut Types,
) -> Result<Behind, AllocError>
    requires knows { Knows table.now place.now }
    requires fits { FitsStmt (λ m b. (A.span_from m b).from) A.fits_at base (stmt_of of.now) }
    ensures passes { IfOk result (λ b. flow.StmtPasses (λ m b. (A.span_from m b).from) table.now
        number place.old base (stmt_of of.now) log.old.items b place.new log.new.items) }
    ensures slots { IfOk result (λ _. types.new ≡ types.old
        ++ flats (stmt_parts table.now number (context_of place.old) (stmt_of of.now))) }
{
    let at = of.mark.span(base).from;
    match &of.kind {
        StmtKind::Local {
            is_final,
            ty,
            name,
            init,
        } => local(
            alloc, table, place, at, number, *is_final, ty, name, init, log, types,
        ),
        StmtKind::Eval(value) => {
            eval(alloc, table, place, at, value, log, types)?;
            Ok(reachable_from(number))
        }
        StmtKind::If(test, yes, no) => {
            condition(alloc, table, place, at, test, log, types)?;
            let yes = inner(alloc, table, place, at, number, yes, log, types)?;
            let no = otherwise(alloc, table, place, at, yes.number, no, log, types)?;
            Ok(behind_branches(yes, no))
        }
        StmtKind::While(test, body) => {
            loop_condition(alloc, table, place, at, test, log, types)?;
            let body = inner(alloc, table, place, at, number, body, log, types)?;
            Ok(behind_loop(body, is_true(test)))
        }
        StmtKind::Return(value) => {
            return_value(alloc, table, place, at, value, log, types)?;
            Ok(unreachable_from(number))
        }
        StmtKind::Block(body) => stmts(alloc, table, place, at, number, body, log, types),
        StmtKind::Sync(object, body) => {
            lock(alloc, table, place, at, object, log, types)?;
            stmts(alloc, table, place, at, number, body, log, types)
        }
        StmtKind::Empty => Ok(reachable_from(number)),
    }
}

/// A statement that is no element of a list, and its tree: what it declares is gone behind it.
#[cycle(stmt_walk)]
fn inner<'a, A: Mark>(
    alloc: Global,
    table: &Table,
    place: &mut Place<'a>,
    base: u32,
    number: u32,
    of: &'a Stmt<A>,
    log: &mut Vec<Note>,
    types: &mut Types,
) -> Result<Behind, AllocError>
    requires knows { Knows table.now place.now }
    requires fits { FitsStmt (λ m b. (A.span_from m b).from) A.fits_at base (stmt_of of.now) }
    ensures passes { IfOk result (λ b. flow.InnerPasses (λ m b. (A.span_from m b).from) table.now
        number place.old base (stmt_of of.now) log.old.items b place.new log.new.items) }
    ensures slots { IfOk result (λ _. types.new ≡ types.old
        ++ flat (stmt_tree table.now number (context_of place.old) (stmt_of of.now))) }
{
    let depth = place.locals.len();
    let own = place.own;
    let before = types.count();
    let behind = stmt(alloc, table, place, base, number, of, log, types)?;
    close_stmt(before, of, types)?;
    place.locals.truncate(depth)?;
    place.own = own;
    Ok(behind)
}

/// What stands behind `else`, if anything.
#[cycle(stmt_walk)]
fn otherwise<'a, A: Mark>(
    alloc: Global,
    table: &Table,
    place: &mut Place<'a>,
    at: u32,
    number: u32,
    of: &'a Option<Box<Stmt<A>>>,
    log: &mut Vec<Note>,
    types: &mut Types,
) -> Result<Behind, AllocError>
    requires knows { Knows table.now place.now }
    requires fits { FitsElse (λ m b. (A.span_from m b).from) A.fits_at at (else_of of.now) }
    ensures passes { IfOk result (λ b. flow.ElsePasses (λ m b. (A.span_from m b).from) table.now
        number place.old at (else_of of.now) log.old.items b place.new log.new.items) }
    ensures slots { IfOk result (λ _. types.new ≡ types.old
        ++ else_slots table.now number (context_of place.old) (else_of of.now)) }
{
    match of {
        None => Ok(reachable_from(number)),
        Some(of) => inner(alloc, table, place, at, number, of, log, types),
    }
}

/// A statement of a list, and its tree.
#[cycle(stmt_walk)]
fn item<'a, A: Mark>(
    alloc: Global,
    table: &Table,
    place: &mut Place<'a>,
    at: u32,
    before: Behind,
    of: &'a Stmt<A>,
    log: &mut Vec<Note>,
    types: &mut Types,
) -> Result<Behind, AllocError>
    requires knows { Knows table.now place.now }
    requires fits { FitsStmt (λ m b. (A.span_from m b).from) A.fits_at at (stmt_of of.now) }
    ensures passes { IfOk result (λ b. flow.ItemPasses (λ m b. (A.span_from m b).from) table.now
        before.number place.old at before.completes (stmt_of of.now) log.old.items b place.new
        log.new.items) }
    ensures slots { IfOk result (λ _. types.new ≡ types.old
        ++ flat (stmt_tree table.now before.number (context_of place.old) (stmt_of of.now))) }
{
    let begin = of.mark.span(at).from;
    put_unless(
        table,
        place,
        before.completes,
        begin,
        Rule::Unreachable,
        log,
    )?;
    let begun = types.count();
    let behind = stmt(alloc, table, place, at, before.number, of, log, types)?;
    close_stmt(begun, of, types)?;
    Ok(behind_both(before, behind))
}

/// A list of statements: what it declares is gone behind it.
#[cycle(stmt_walk)]
pub fn stmts<'a, A: Mark>(
    alloc: Global,
    table: &Table,
    place: &mut Place<'a>,
    at: u32,
    number: u32,
    body: &'a [Stmt<A>],
    log: &mut Vec<Note>,
    types: &mut Types,
) -> Result<Behind, AllocError>
    requires knows { Knows table.now place.now }
    requires fits { FitsStmts (λ m b. (A.span_from m b).from) A.fits_at at (stmts_of body.now) }
    ensures passes { IfOk result (λ b. flow.BodyPasses (λ m b. (A.span_from m b).from) table.now
        number place.old at (stmts_of body.now) log.old.items b place.new log.new.items) }
    ensures slots { IfOk result (λ _. types.new ≡ types.old
        ++ body_slots table.now number (context_of place.old) (stmts_of body.now)) }
{
    let depth = place.locals.len();
    let own = place.own;
    let mut behind = reachable_from(number);
    for of in body {
        behind = item(alloc, table, place, at, behind, of, log, types)?;
    }
    place.locals.truncate(depth)?;
    place.own = own;
    Ok(behind)
}

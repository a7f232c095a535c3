//! What stands in front of a part of a statement, in evaluation order (JLS 14).
ghost use Rattle.std.specs.Prelude.{List, ◌+◌, ◌++◌, ◌∷◌, [], ℕ, IfOk, OnOk, pred, suc};
ghost use Rattle.jr_ast.specs.View.{expr_of, stmt_of, stmts_of};
ghost use Rattle.jr_bind_expr.specs.Fits.{FitsExp, FitsStmt, FitsStmts};
ghost use Rattle.jr_cfg.specs.StatementRoutes.{Numbered, NumberedAll};
ghost use Rattle.jr_cover.specs.Spots.{spot_stmt, spot_stmts};
ghost use Rattle.jr_cover.specs.Ways.{size};
ghost use Rattle.jr_expr_sites.specs.KnownFacts.{known_of, place};
ghost use Rattle.jr_expr_sites.specs.Routes.{begins_by, ends_by, spots};
ghost use Rattle.jr_expr_sites.specs.Routes as route;
ghost use Rattle.jr_expr_sites.specs.StepView.{given};
ghost use Rattle.jr_cfg.specs.StatementRoutes as list;
ghost use Rattle.jr_piece_sites.specs.Fronts as pure;
ghost use Rattle.jr_piece_sites.specs.Growth.{Grows, GrownTo};
ghost use Rattle.jr_piece_sites.specs.Pieces as piece;

use crate::fronts::{first_ones, put_if};
use jr_ast::{Expr, Path, Stmt, StmtKind};
use jr_cfg::{stmt, stmts};
use jr_expr_sites::{Here, Step, What, below, is_never_null, operand, put_site};
use jr_table::Facts;
use jr_text::Mark;
use std::alloc::{AllocError, Global};

/// Puts the first statements of a list, at most so many, of which the first is the part of the
/// number `first`; `number` is that of the first local that is declared in the list. Answers the
/// number of the first one behind them.
pub(crate) fn put_stmts<'a, F: Facts, A: Mark>(
    alloc: Global,
    here: &Here<'a, F>,
    path: &Path,
    first: u32,
    at: u32,
    number: u32,
    body: &[Stmt<A>],
    count: u32,
    out: &mut Vec<Step<'a>>,
) -> Result<u32, AllocError>
    requires fits { FitsStmts (begins_by A.span_from) A.fits_at at (stmts_of body.now) }
    ensures { IfOk result (λ n. GrownTo (given F.decls F.types here.now)
        (NumberedAll A.span_from number path.now.steps.items first at (stmts_of body.now))
        (λ o. pure.stmts_front (known_of (given F.decls F.types here.now) o)
        (spot_stmts (begins_by A.span_from) (ends_by A.span_from) (stmts_of body.now) at
        path.now.steps.items first) count)
        (number + piece.locals_up_to (stmts_of body.now) count) n
        out.old.items out.new.items) }
{
    let front = first_ones(body, count);
    stmts(alloc, here, path, first, at, number, front, out)
}

/// Puts what stands in front of a part of an `if`.
fn branch_front<'a, F: Facts, A: Mark>(
    alloc: Global,
    here: &Here<'a, F>,
    path: &Path,
    at: u32,
    number: u32,
    test: &Expr<A>,
    yes: &Stmt<A>,
    part: u32,
    out: &mut Vec<Step<'a>>,
) -> Result<u32, AllocError>
    requires fits { FitsExp (begins_by A.span_from) A.fits_at at (expr_of test.now) }
    requires fits_yes { FitsStmt (begins_by A.span_from) A.fits_at at (stmt_of yes.now) }
    ensures { IfOk result (λ n. GrownTo (given F.decls F.types here.now)
        (Numbered A.span_from number (path.now.steps.items ++ 1 ∷ []) at (stmt_of yes.now))
        (λ o. pure.branch_front (known_of (given F.decls F.types here.now) o)
        (spots A.span_from (path.now.steps.items ++ 0 ∷ []) at (expr_of test.now))
        (spot_stmt (begins_by A.span_from) (ends_by A.span_from) (stmt_of yes.now) at
        (path.now.steps.items ++ 1 ∷ [])) part)
        (number + piece.branch_locals (stmt_of yes.now) part) n
        out.old.items out.new.items) }
{
    if part == 0 {
        return Ok(number);
    }
    operand(alloc, here, path, 0, at, test, out)?;
    if part == 1 {
        return Ok(number);
    }
    let place = below(alloc, path, 1)?;
    stmt(alloc, here, &place, at, number, yes, out)
}

/// Puts what stands in front of a part of a loop.
fn loop_front<'a, F: Facts, A: Mark>(
    alloc: Global,
    here: &Here<'a, F>,
    path: &Path,
    at: u32,
    test: &Expr<A>,
    part: u32,
    out: &mut Vec<Step<'a>>,
) -> Result<(), AllocError>
    requires fits { FitsExp (begins_by A.span_from) A.fits_at at (expr_of test.now) }
    ensures { OnOk result (Grows (given F.decls F.types here.now)
        (λ o. suc (pure.behind_first part (size (route.exp A.span_from
        (path.now.steps.items ++ 0 ∷ []) at (expr_of test.now)
        (given F.decls F.types here.now) o)))) out.old.items out.new.items) }
{
    put_site(at, What::Loops, out)?;
    if part == 0 {
        return Ok(());
    }
    operand(alloc, here, path, 0, at, test, out)
}

/// Puts the test for null of a lock (JLS 14.19), and that the monitor is entered.
fn put_entry<'a, F: Facts, A: Mark>(
    here: &Here<'a, F>,
    at: u32,
    object: &Expr<A>,
    out: &mut Vec<Step<'a>>,
) -> Result<(), AllocError>
    requires fits { FitsExp (begins_by A.span_from) A.fits_at at (expr_of object.now) }
    ensures { (path : List ℕ) → OnOk result (Grows (given F.decls F.types here.now)
        (λ o. size (list.lock_check A.span_from path at (expr_of object.now)
        (given F.decls F.types here.now) o) + 1) out.old.items out.new.items) }
{
    let is_there = is_never_null(here, at, object);
    put_if(!is_there, at, What::Checks, out)?;
    put_site(at, What::Enters, out)
}

/// Puts what stands in front of a part of a `synchronized` statement.
fn sync_front<'a, F: Facts, A: Mark>(
    alloc: Global,
    here: &Here<'a, F>,
    path: &Path,
    at: u32,
    number: u32,
    object: &Expr<A>,
    body: &[Stmt<A>],
    part: u32,
    out: &mut Vec<Step<'a>>,
) -> Result<u32, AllocError>
    requires fits { FitsExp (begins_by A.span_from) A.fits_at at (expr_of object.now) }
    requires fits_body { FitsStmts (begins_by A.span_from) A.fits_at at (stmts_of body.now) }
    ensures { IfOk result (λ n. GrownTo (given F.decls F.types here.now)
        (NumberedAll A.span_from number path.now.steps.items 1 at (stmts_of body.now))
        (λ o. pure.behind_first part (size (route.exp A.span_from (path.now.steps.items ++ 0 ∷ [])
        at (expr_of object.now) (given F.decls F.types here.now) o)
        + (size (list.lock_check A.span_from (path.now.steps.items ++ 0 ∷ []) at
        (expr_of object.now) (given F.decls F.types here.now) o)
        + (1 + pure.stmts_front (known_of (given F.decls F.types here.now) o)
        (spot_stmts (begins_by A.span_from) (ends_by A.span_from) (stmts_of body.now) at
        path.now.steps.items 1) (pred part)))))
        (number + piece.locals_up_to (stmts_of body.now) (pred part)) n
        out.old.items out.new.items) }
{
    match part.checked_sub(1) {
        None => Ok(number),
        Some(count) => {
            operand(alloc, here, path, 0, at, object, out)?;
            put_entry(here, at, object, out)?;
            put_stmts(alloc, here, path, 1, at, number, body, count, out)
        }
    }
}

/// Puts what stands in front of the part of this number of a statement to which the path leads, and
/// whose parent begins at `base`; `number` is that of the first local that is declared in the
/// statement. Answers that of the first one that is declared in the part.
pub(crate) fn stmt_front<'a, F: Facts, A: Mark>(
    alloc: Global,
    here: &Here<'a, F>,
    path: &Path,
    base: u32,
    number: u32,
    of: &Stmt<A>,
    part: u32,
    out: &mut Vec<Step<'a>>,
) -> Result<u32, AllocError>
    requires fits { FitsStmt (begins_by A.span_from) A.fits_at base (stmt_of of.now) }
    ensures { IfOk result (λ n. GrownTo (given F.decls F.types here.now)
        (Numbered A.span_from number path.now.steps.items base (stmt_of of.now))
        (λ o. pure.stmt_front (known_of (given F.decls F.types here.now) o)
        (spot_stmt (begins_by A.span_from) (ends_by A.span_from) (stmt_of of.now) base
        path.now.steps.items) part)
        (number + piece.stmt_locals (stmt_of of.now) part) n out.old.items out.new.items) }
{
    let at = of.mark.span(base).from;
    match &of.kind {
        StmtKind::Local {
            is_final: _,
            ty: _,
            name: _,
            init: _,
        } => Ok(number),
        StmtKind::Eval(_) => Ok(number),
        StmtKind::If(test, yes, _) => {
            branch_front(alloc, here, path, at, number, test, yes, part, out)
        }
        StmtKind::While(test, _) => {
            loop_front(alloc, here, path, at, test, part, out)?;
            Ok(number)
        }
        StmtKind::Return(_) => Ok(number),
        StmtKind::Block(body) => put_stmts(alloc, here, path, 0, at, number, body, part, out),
        StmtKind::Sync(object, body) => {
            sync_front(alloc, here, path, at, number, object, body, part, out)
        }
        StmtKind::Empty => Ok(number),
    }
}

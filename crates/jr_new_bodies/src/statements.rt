//! The walk over statements (JLS 14).
ghost use Rattle.std.specs.Prelude.{◌++◌, ◌∷◌, [], IfOk, option_map};
ghost use Rattle.jr_ast.specs.View.{expr_of, stmt_of, stmts_of, else_of};
ghost use Rattle.jr_table.specs.Binding.{statement};
ghost use Rattle.jr_new_bodies.specs.Known.{IsKnown, ExpReady};
ghost use Rattle.jr_new_bodies.specs.Walks.{ExpGathers};
ghost use Rattle.jr_new_bodies.specs.OutputView.{gathered};
ghost use Rattle.jr_new_bodies.specs.Bodies.{MaybeGathers};
ghost use Rattle.jr_new_bodies.specs.Moves as gives;
ghost use Rattle.jr_new_bodies.specs.Lasts as lasts;
ghost use Rattle.jr_new_bodies.specs.Ready.{MaybeReady, StmtReady, StmtsReady};
ghost use Rattle.jr_new_bodies.specs.Ready.{BranchReady, SyncReady};

use crate::here::{Here, Role, below, next};
use crate::locals::local;
use crate::outputs::Output;
use crate::places::{cut_back, depth, own};
use crate::walk::{expr, operand};
use jr_ast::{Expr, Path, Stmt, StmtKind};
use jr_text::Mark;
use std::alloc::{AllocError, Global};

/// Gathers what comes of an expression, if one is written, which is then the part of number `step`
/// of the node to which the path leads, and whose first byte is `at`. The only fault is want of
/// memory.
pub fn maybe<A: Mark>(
    alloc: Global,
    here: &Here<'_>,
    path: &Path,
    step: u32,
    at: u32,
    of: &Option<Expr<A>>,
    out: &mut Output,
) -> Result<(), AllocError>
    requires known { IsKnown here.now }
    requires ready { MaybeReady A.span_from A.fits_at here.now path.now.steps.items step at
        (option_map expr_of of.now) }
    ensures { IfOk result (λ _. MaybeGathers A.span_from here.now at (option_map expr_of of.now)
        (gathered out.old) (gathered out.new)) }
{
    match of {
        None => Ok(()),
        Some(of) => operand(alloc, here, 0, path, step, at, of, out),
    }
}

/// A whole statement that is an expression.
fn eval<A: Mark>(
    alloc: Global,
    here: &Here<'_>,
    path: &Path,
    at: u32,
    of: &Expr<A>,
    out: &mut Output,
) -> Result<(), AllocError>
    requires known { IsKnown here.now }
    requires ready { ExpReady A.span_from A.fits_at here.now statement
        (path.now.steps.items ++ 0 ∷ []) at (expr_of of.now) }
    ensures { IfOk result (λ _. ExpGathers A.span_from here.now statement at (expr_of of.now)
        (gathered out.old) (gathered out.new)) }
{
    let inner = below(alloc, path, 0)?;
    expr(alloc, here, Role::Statement, &inner, at, of, out)
}

/// A statement that stands last in another one, which begins at `at`, as its part of the number
/// `step`; `number` is that of the first local that is declared in it.
#[derive(Drop)]
pub(crate) struct Last<'a, A> {
    of: &'a Stmt<A>,
    step: u32,
    at: u32,
    number: u32,
}

/// How far a walk over a statement has come: behind it, where the next local has this number, or to
/// the statement that stands last in it.
#[derive(Drop)]
pub(crate) enum Reached<'a, A> {
    Behind(u32),
    To(Last<'a, A>),
}

/// What comes of a statement but for the statement that stands last in it, if one does: a call for
/// each of those would take stack for each of the thousands of `if` and `while` that a text may
/// nest. A local that it declares stays in scope.
#[cycle(stmt_walk)]
fn head<'a, A: Mark>(
    alloc: Global,
    here: &mut Here<'a>,
    path: &Path,
    base: u32,
    number: u32,
    of: &'a Stmt<A>,
    out: &mut Output,
) -> Result<Reached<'a, A>, AllocError>
    requires known { IsKnown here.old }
    requires ready { StmtReady A.span_from A.fits_at here.old number path.now.steps.items base
        (stmt_of of.now) }
    ensures { IfOk result (λ r. lasts.HeadPasses A.span_from A.fits_at number here.old
        path.now.steps.items base (stmt_of of.now) r here.new (gathered out.old)
        (gathered out.new)) }
{
    let at = of.mark.span(base).from;
    match &of.kind {
        StmtKind::Local {
            is_final,
            ty,
            name,
            init,
        } => {
            let number = local(
                alloc, here, path, at, number, *is_final, ty, name, init, out,
            )?;
            Ok(Reached::Behind(number))
        }
        StmtKind::Eval(value) => {
            eval(alloc, here, path, at, value, out)?;
            Ok(Reached::Behind(number))
        }
        StmtKind::If(test, yes, no) => {
            let last = branch(alloc, here, path, at, number, test, yes, no, out)?;
            Ok(Reached::To(last))
        }
        StmtKind::While(test, body) => {
            operand(alloc, here, 0, path, 0, at, test, out)?;
            Ok(Reached::To(Last {
                of: body,
                step: 1,
                at,
                number,
            }))
        }
        StmtKind::Return(value) => {
            maybe(alloc, here, path, 0, at, value, out)?;
            Ok(Reached::Behind(number))
        }
        StmtKind::Block(body) => {
            let number = stmts(alloc, here, path, 0, at, number, body, out)?;
            Ok(Reached::Behind(number))
        }
        StmtKind::Sync(object, body) => {
            let number = sync(alloc, here, path, at, number, object, body, out)?;
            Ok(Reached::Behind(number))
        }
        StmtKind::Empty => Ok(Reached::Behind(number)),
    }
}

/// Gathers what comes of a statement of a list (JLS 14.2), which stands at its path in a node whose
/// first byte is `base`; `number` is that of the first local that is declared in it. Answers the
/// number of the next one. A local that it declares stays in scope. The only fault is want of
/// memory.
#[cycle(stmt_walk)]
pub fn stmt<'a, A: Mark>(
    alloc: Global,
    here: &mut Here<'a>,
    path: &Path,
    base: u32,
    number: u32,
    of: &'a Stmt<A>,
    out: &mut Output,
) -> Result<u32, AllocError>
    requires known { IsKnown here.old }
    requires ready { StmtReady A.span_from A.fits_at here.old number path.now.steps.items base
        (stmt_of of.now) }
    ensures { IfOk result (λ n. gives.StmtPasses A.span_from number here.old base
        (stmt_of of.now) n here.new (gathered out.old) (gathered out.new)) }
{
    match head(alloc, here, path, base, number, of, out)? {
        Reached::Behind(number) => Ok(number),
        Reached::To(last) => inner(
            alloc,
            here,
            path,
            last.step,
            last.at,
            last.number,
            last.of,
            out,
        ),
    }
}

/// A condition and its statements, but for the last one.
#[cycle(stmt_walk)]
fn branch<'a, A: Mark>(
    alloc: Global,
    here: &mut Here<'a>,
    path: &Path,
    at: u32,
    number: u32,
    test: &Expr<A>,
    yes: &'a Stmt<A>,
    no: &'a Option<Box<Stmt<A>>>,
    out: &mut Output,
) -> Result<Last<'a, A>, AllocError>
    requires known { IsKnown here.old }
    requires ready { BranchReady A.span_from A.fits_at here.old number path.now.steps.items at
        (expr_of test.now) (stmt_of yes.now) (else_of no.now) }
    ensures { IfOk result (λ l. lasts.BranchPasses A.span_from A.fits_at number here.old
        path.now.steps.items at (expr_of test.now) (stmt_of yes.now) (else_of no.now) l here.new
        (gathered out.old) (gathered out.new)) }
{
    operand(alloc, here, 0, path, 0, at, test, out)?;
    match no {
        None => Ok(Last {
            of: yes,
            step: 1,
            at,
            number,
        }),
        Some(no) => {
            let number = inner(alloc, here, path, 1, at, number, yes, out)?;
            Ok(Last {
                of: no,
                step: 2,
                at,
                number,
            })
        }
    }
}

/// An object and the statements that hold its lock.
#[cycle(stmt_walk)]
fn sync<'a, A: Mark>(
    alloc: Global,
    here: &mut Here<'a>,
    path: &Path,
    at: u32,
    number: u32,
    object: &Expr<A>,
    body: &'a [Stmt<A>],
    out: &mut Output,
) -> Result<u32, AllocError>
    requires known { IsKnown here.old }
    requires ready { SyncReady A.span_from A.fits_at here.old number path.now.steps.items at
        (expr_of object.now) (stmts_of body.now) }
    ensures { IfOk result (λ n. gives.SyncPasses A.span_from number here.old at
        (expr_of object.now) (stmts_of body.now) n here.new (gathered out.old)
        (gathered out.new)) }
{
    operand(alloc, here, 0, path, 0, at, object, out)?;
    stmts(alloc, here, path, 1, at, number, body, out)
}

/// A statement that is no element of a list, the part of this number: what it declares is gone
/// behind it.
#[cycle(stmt_walk)]
fn inner<'a, A: Mark>(
    alloc: Global,
    here: &mut Here<'a>,
    path: &Path,
    step: u32,
    base: u32,
    number: u32,
    of: &'a Stmt<A>,
    out: &mut Output,
) -> Result<u32, AllocError>
    requires known { IsKnown here.old }
    requires ready { StmtReady A.span_from A.fits_at here.old number
        (path.now.steps.items ++ step ∷ []) base (stmt_of of.now) }
    ensures { IfOk result (λ n. gives.InnerPasses A.span_from number here.old base
        (stmt_of of.now) n here.new (gathered out.old) (gathered out.new)) }
{
    let depth = depth(here);
    let own = own(here);
    let mut place = below(alloc, path, step)?;
    let mut base = base;
    let mut number = number;
    let mut of = of;
    loop {
        match head(alloc, here, &place, base, number, of, out)? {
            Reached::Behind(number) => {
                cut_back(here, depth, own)?;
                return Ok(number);
            }
            Reached::To(last) => {
                place.steps.push(last.step)?;
                base = last.at;
                number = last.number;
                of = last.of;
            }
        }
    }
}

/// Gathers what comes of a list of statements (JLS 14.2), of which the first is the part of number
/// `first` of the node to which the path leads, and whose first byte is `at`; `number` is that of
/// the first local that is declared in it. Answers the number of the next one. Behind it the locals
/// that it declares are gone from the place. The only fault is want of memory.
#[cycle(stmt_walk)]
pub fn stmts<'a, A: Mark>(
    alloc: Global,
    here: &mut Here<'a>,
    path: &Path,
    first: u32,
    at: u32,
    number: u32,
    body: &'a [Stmt<A>],
    out: &mut Output,
) -> Result<u32, AllocError>
    requires known { IsKnown here.old }
    requires ready { StmtsReady A.span_from A.fits_at here.old number path.now.steps.items first
        at (stmts_of body.now) }
    ensures { IfOk result (λ n. gives.BodyPasses A.span_from number here.old at
        (stmts_of body.now) n here.new (gathered out.old) (gathered out.new)) }
{
    let depth = depth(here);
    let own = own(here);
    let mut after = number;
    let mut step = first;
    for of in body {
        let place = below(alloc, path, step)?;
        after = stmt(alloc, here, &place, at, after, of, out)?;
        step = next(step)?;
    }
    cut_back(here, depth, own)?;
    Ok(after)
}

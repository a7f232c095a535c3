//! The walk over statements (JLS 14).
ghost use Rattle.std.specs.Prelude.{◌≡◌, ◌+◌, ◌++◌, ◌∷◌, [], ℕ, List, IfOk, OnOk, option_map};
ghost use Rattle.jr_ast.specs.View.{expr_of, stmt_of, stmts_of, else_of};
ghost use Rattle.jr_table.specs.Context.{locals_in, locals_in_row};
ghost use Rattle.jr_table.specs.Decls as decls;
ghost use Rattle.jr_bind_expr.specs.Fits.{FitsExp, FitsMaybe, FitsStmt, FitsElse, FitsStmts};
ghost use Rattle.jr_expr_sites.specs.KnownFacts.{Given};
ghost use Rattle.jr_expr_sites.specs.Routes.{Walked, begins_by, ends_by};
ghost use Rattle.jr_cfg.specs.StatementRoutes as route;
ghost use Rattle.jr_cfg.specs.StatementRoutes.{Passed};
ghost use Rattle.jr_cfg.specs.declared.statements.Ending.TheVariants as endings;
ghost use Rattle.jr_expr_sites.specs.StepView.{given, steps_in};

use jr_ast::{Expr, Ident, Path, Stmt, StmtKind};
use jr_expr_sites::{
    Here, Site, Step, What, below, is_never_null, next, operand, put, put_nothing, put_row,
    put_rows, put_site,
};
use jr_table::Facts;
use jr_text::Mark;
use std::alloc::{AllocError, Global};

/// What stands behind the statement that stands last in another.
#[derive(Clone, Copy, Drop)]
pub(crate) enum Ending {
    /// Of an `if` without `else`.
    Yes,
    /// Of an `if` with `else`.
    No,
    /// Of a loop.
    Turn,
}

/// A statement that stands last in another one, which begins at `at`, as its part of the number
/// `step`; `number` is that of the first local that is declared in it.
#[derive(Drop)]
pub(crate) struct Last<'b, A> {
    of: &'b Stmt<A>,
    step: u32,
    at: u32,
    number: u32,
    ending: Ending,
}

/// How far a walk over a statement has come: behind it, where the next local has this number, or to
/// the statement that stands last in it.
#[derive(Drop)]
pub(crate) enum Reached<'b, A> {
    Behind(u32),
    To(Last<'b, A>),
}

fn put_fork<'a>(out: &mut Vec<Step<'a>>) -> Result<(), AllocError>
    ensures { (key : decls.MemberKey) → OnOk result (steps_in key out.new.items
        ≡ steps_in key out.old.items ++ route.ending_steps endings.No) }
{
    put(Step::Fork, out)?;
    put(Step::Row, out)
}

fn put_ending<'a>(ending: Ending, out: &mut Vec<Step<'a>>) -> Result<(), AllocError>
    ensures { (key : decls.MemberKey) → OnOk result (steps_in key out.new.items
        ≡ steps_in key out.old.items ++ route.ending_steps ending) }
{
    match ending {
        Ending::Yes => {
            put(Step::Pass, out)?;
            put_fork(out)
        }
        Ending::No => put_fork(out),
        Ending::Turn => put(Step::Turns, out),
    }
}

/// Puts what stands behind the statements that are walked, that of the last one first.
fn put_endings<'a>(endings: Vec<Ending>, out: &mut Vec<Step<'a>>) -> Result<(), AllocError>
    ensures { (key : decls.MemberKey) → OnOk result (steps_in key out.new.items
        ≡ steps_in key out.old.items ++ route.endings_steps endings.items) }
{
    let mut endings = endings;
    loop {
        match endings.pop() {
            None => return Ok(()),
            Some(ending) => put_ending(ending, out)?,
        }
    }
}

/// A local that is declared: its initializer, and the write.
fn local<'a, F: Facts, A: Mark>(
    alloc: Global,
    here: &Here<'a, F>,
    path: &Path,
    at: u32,
    number: u32,
    name: &Ident<A>,
    init: &Expr<A>,
    out: &mut Vec<Step<'a>>,
) -> Result<(), AllocError>
    requires fits { FitsExp (begins_by A.span_from) A.fits_at at (expr_of init.now) }
    requires fits_name { A.fits_at name.now.mark at }
    ensures { OnOk result (Walked (given F.decls F.types here.now)
        (route.local A.span_from number path.now.steps.items at
        (begins_by A.span_from name.now.mark at) (expr_of init.now))
        out.old.items out.new.items) }
{
    let word = name.mark.span(at).from;
    operand(alloc, here, path, 2, at, init, out)?;
    put_site(word, What::Writes(number), out)?;
    put_row(out)
}

/// `return`.
fn returned<'a, F: Facts, A: Mark>(
    alloc: Global,
    here: &Here<'a, F>,
    path: &Path,
    at: u32,
    value: &Option<Expr<A>>,
    out: &mut Vec<Step<'a>>,
) -> Result<(), AllocError>
    requires fits { FitsMaybe (begins_by A.span_from) A.fits_at at (option_map expr_of value.now) }
    ensures { OnOk result (Walked (given F.decls F.types here.now)
        (route.returned A.span_from path.now.steps.items at (option_map expr_of value.now))
        out.old.items out.new.items) }
{
    match value {
        None => put(Step::Leave, out),
        Some(value) => {
            operand(alloc, here, path, 0, at, value, out)?;
            put(Step::Leave, out)?;
            put_row(out)
        }
    }
}

/// The test for null of a lock, the first part of a statement that begins at `at` (JLS 14.19).
fn lock_check<'a, F: Facts, A: Mark>(
    here: &Here<'a, F>,
    at: u32,
    object: &Expr<A>,
    out: &mut Vec<Step<'a>>,
) -> Result<(), AllocError>
    requires fits { FitsExp (begins_by A.span_from) A.fits_at at (expr_of object.now) }
    ensures { (path : List ℕ) → OnOk result (Walked (given F.decls F.types here.now)
        (route.lock_check A.span_from path at (expr_of object.now)) out.old.items out.new.items) }
{
    let is_there = is_never_null(here, at, object);
    if is_there {
        return put_nothing(out);
    }
    put_site(at, What::Checks, out)
}

/// Puts the steps of a statement but for those of the statement that stands last in it, if one
/// does: a call for each of those would take stack for each of the thousands of `if` and `while`
/// that a text may nest.
#[cycle(stmt_walk)]
fn head<'a, 'b, F: Facts, A: Mark>(
    alloc: Global,
    here: &Here<'a, F>,
    path: &Path,
    base: u32,
    number: u32,
    of: &'b Stmt<A>,
    out: &mut Vec<Step<'a>>,
) -> Result<Reached<'b, A>, AllocError>
    requires fits { FitsStmt (begins_by A.span_from) A.fits_at base (stmt_of of.now) }
    ensures { IfOk result (λ r. route.HeadWalked A.span_from A.fits_at
        (given F.decls F.types here.now) number path.now.steps.items base (stmt_of of.now) r
        out.old.items out.new.items) }
{
    let span = of.mark.span(base);
    let at = span.from;
    match &of.kind {
        StmtKind::Local {
            is_final: _,
            ty: _,
            name,
            init,
        } => {
            local(alloc, here, path, at, number, name, init, out)?;
            let number = next(number)?;
            Ok(Reached::Behind(number))
        }
        StmtKind::Eval(value) => {
            operand(alloc, here, path, 0, at, value, out)?;
            Ok(Reached::Behind(number))
        }
        StmtKind::If(test, yes, no) => {
            let last = branch(alloc, here, path, at, number, test, yes, no, out)?;
            Ok(Reached::To(last))
        }
        StmtKind::While(test, body) => {
            put(
                Step::Opens(Site {
                    at,
                    what: What::Loops,
                }),
                out,
            )?;
            operand(alloc, here, path, 0, at, test, out)?;
            Ok(Reached::To(Last {
                of: body,
                step: 1,
                at,
                number,
                ending: Ending::Turn,
            }))
        }
        StmtKind::Return(value) => {
            returned(alloc, here, path, at, value, out)?;
            Ok(Reached::Behind(number))
        }
        StmtKind::Block(body) => {
            let number = stmts(alloc, here, path, 0, at, number, body, out)?;
            Ok(Reached::Behind(number))
        }
        StmtKind::Sync(object, body) => {
            let last = span.to.saturating_sub(1);
            let number = sync(alloc, here, path, at, last, number, object, body, out)?;
            Ok(Reached::Behind(number))
        }
        StmtKind::Empty => {
            put_nothing(out)?;
            Ok(Reached::Behind(number))
        }
    }
}

/// A condition and its statements, but for the last one.
#[cycle(stmt_walk)]
fn branch<'a, 'b, F: Facts, A: Mark>(
    alloc: Global,
    here: &Here<'a, F>,
    path: &Path,
    at: u32,
    number: u32,
    test: &Expr<A>,
    yes: &'b Stmt<A>,
    no: &'b Option<Box<Stmt<A>>>,
    out: &mut Vec<Step<'a>>,
) -> Result<Last<'b, A>, AllocError>
    requires fits { FitsExp (begins_by A.span_from) A.fits_at at (expr_of test.now) }
    requires fits_yes { FitsStmt (begins_by A.span_from) A.fits_at at (stmt_of yes.now) }
    requires fits_no { FitsElse (begins_by A.span_from) A.fits_at at (else_of no.now) }
    ensures { IfOk result (λ l. route.BranchWalked A.span_from A.fits_at
        (given F.decls F.types here.now) number path.now.steps.items at (expr_of test.now)
        (stmt_of yes.now) (else_of no.now) l out.old.items out.new.items) }
{
    operand(alloc, here, path, 0, at, test, out)?;
    match no {
        None => Ok(Last {
            of: yes,
            step: 1,
            at,
            number,
            ending: Ending::Yes,
        }),
        Some(no) => {
            let place = below(alloc, path, 1)?;
            let number = stmt(alloc, here, &place, at, number, yes, out)?;
            Ok(Last {
                of: no,
                step: 2,
                at,
                number,
                ending: Ending::No,
            })
        }
    }
}

/// An object and the statements that hold its lock, which is left at the byte `last`.
#[cycle(stmt_walk)]
fn sync<'a, F: Facts, A: Mark>(
    alloc: Global,
    here: &Here<'a, F>,
    path: &Path,
    at: u32,
    last: u32,
    number: u32,
    object: &Expr<A>,
    body: &[Stmt<A>],
    out: &mut Vec<Step<'a>>,
) -> Result<u32, AllocError>
    requires fits { FitsExp (begins_by A.span_from) A.fits_at at (expr_of object.now) }
    requires fits_body { FitsStmts (begins_by A.span_from) A.fits_at at (stmts_of body.now) }
    ensures { IfOk result (λ n. Passed (given F.decls F.types here.now)
        (route.NumberedAll A.span_from number path.now.steps.items 1 at (stmts_of body.now))
        (route.sync A.span_from path.now.steps.items at last (expr_of object.now)
        (stmts_of body.now)) (number + locals_in_row (stmts_of body.now)) n
        out.old.items out.new.items) }
{
    operand(alloc, here, path, 0, at, object, out)?;
    lock_check(here, at, object, out)?;
    put(
        Step::Opens(Site {
            at,
            what: What::Enters,
        }),
        out,
    )?;
    let after = stmts(alloc, here, path, 1, at, number, body, out)?;
    put(
        Step::Closes(Site {
            at: last,
            what: What::Exits,
        }),
        out,
    )?;
    put_row(out)?;
    put_row(out)?;
    Ok(after)
}

/// Puts the steps of a statement to which the path leads, and whose parent begins at `base`;
/// `number` is that of the first local that is declared in it. Answers the number of the next one.
#[cycle(stmt_walk)]
pub fn stmt<'a, F: Facts, A: Mark>(
    alloc: Global,
    here: &Here<'a, F>,
    path: &Path,
    base: u32,
    number: u32,
    of: &Stmt<A>,
    out: &mut Vec<Step<'a>>,
) -> Result<u32, AllocError>
    requires fits { FitsStmt (begins_by A.span_from) A.fits_at base (stmt_of of.now) }
    ensures { IfOk result (λ n. Passed (given F.decls F.types here.now)
        (route.Numbered A.span_from number path.now.steps.items base (stmt_of of.now))
        (route.stmt A.span_from path.now.steps.items base (stmt_of of.now))
        (number + locals_in (stmt_of of.now)) n out.old.items out.new.items) }
{
    let mut place = Path {
        steps: Vec::new(alloc),
    };
    place.steps.extend_from_slice(path.steps.as_slice())?;
    let mut endings = Vec::new(alloc);
    let mut base = base;
    let mut number = number;
    let mut of = of;
    loop {
        let reached = head(alloc, here, &place, base, number, of, out)?;
        match reached {
            Reached::Behind(number) => {
                put_endings(endings, out)?;
                return Ok(number);
            }
            Reached::To(last) => {
                place.steps.push(last.step)?;
                endings.push(last.ending)?;
                base = last.at;
                number = last.number;
                of = last.of;
            }
        }
    }
}

/// Puts the steps of a list of statements (JLS 14.2), of which the first is the part of number
/// `first` of the node to which the path leads, and whose first byte is `at`; `number` is that of
/// the first local that is declared in it. Answers the number of the next one. The only fault is
/// want of memory.
#[cycle(stmt_walk)]
pub fn stmts<'a, F: Facts, A: Mark>(
    alloc: Global,
    here: &Here<'a, F>,
    path: &Path,
    first: u32,
    at: u32,
    number: u32,
    body: &[Stmt<A>],
    out: &mut Vec<Step<'a>>,
) -> Result<u32, AllocError>
    requires fits { FitsStmts (begins_by A.span_from) A.fits_at at (stmts_of body.now) }
    ensures { IfOk result (λ n. Passed (given F.decls F.types here.now)
        (route.NumberedAll A.span_from number path.now.steps.items first at (stmts_of body.now))
        (route.stmts A.span_from path.now.steps.items first at (stmts_of body.now))
        (number + locals_in_row (stmts_of body.now)) n out.old.items out.new.items) }
{
    let mut after = number;
    let mut step = first;
    for of in body {
        let place = below(alloc, path, step)?;
        after = stmt(alloc, here, &place, at, after, of, out)?;
        step = next(step)?;
    }
    put_nothing(out)?;
    put_rows(body.len(), out)?;
    Ok(after)
}

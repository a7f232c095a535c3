//! The walk over a member's statements (JLS 14) that gathers what the flags of its locals are made
//! of: the steps of expressions, among which are the writes, and what locals begin with.
ghost use Rattle.std.specs.Prelude.{◌≡◌, ◌++◌, ◌∷◌, [], IfOk, OnOk, option_map};
ghost use Rattle.jr_ast.specs.View.{args_of, else_of, expr_of, stmt_of, stmts_of};
ghost use Rattle.jr_bind_expr.specs.Fits.{FitsElse, FitsExp, FitsMaybe, FitsStmt, FitsStmts};
ghost use Rattle.jr_cfg.specs.MemberRoutes.{FitsArgs};
ghost use Rattle.jr_expr_sites.specs.KnownFacts.{meaning_at};
ghost use Rattle.jr_expr_sites.specs.Routes.{begins_by};
ghost use Rattle.jr_expr_sites.specs.StepView.{given};
ghost use Rattle.jr_member_graphs.specs.Gathering.{BranchGathered, HeadGathered};
ghost use Rattle.jr_member_graphs.specs.Notes as pure;
ghost use Rattle.jr_member_graphs.specs.Notes.{both, wrote};
ghost use Rattle.jr_member_graphs.specs.NotesView.{noted, notes_in};

use jr_ast::{Expr, Path, Stmt, StmtKind};
use jr_expr_sites::{Here, Step, expr, exprs};
use jr_table::Facts;
use jr_text::Mark;
use std::alloc::{AllocError, Global};

/// A local's initializer; its declaration begins at the byte `base`.
#[derive(Drop)]
pub(crate) struct Begin<'b, A> {
    pub(crate) base: u32,
    pub(crate) of: &'b Expr<A>,
}

/// A statement that stands last in another one, which begins at `at`.
#[derive(Drop)]
pub(crate) struct Last<'b, A> {
    of: &'b Stmt<A>,
    at: u32,
}

/// How far a walk over a statement has come: behind it, or to the statement that stands last in it.
#[derive(Drop)]
pub(crate) enum Reached<'b, A> {
    Behind,
    To(Last<'b, A>),
}

/// The path of a member: what an expression writes doesn't depend on where it stands.
fn no_path(alloc: Global) -> Path
    ensures { result.steps.items ≡ [] }
{
    Path {
        steps: Vec::new(alloc),
    }
}

/// Puts the steps of an expression whose parent begins at `base`.
fn gather_expr<'a, F: Facts, A: Mark>(
    alloc: Global,
    here: &Here<'a, F>,
    base: u32,
    of: &Expr<A>,
    steps: &mut Vec<Step<'a>>,
) -> Result<(), AllocError>
    requires fits { FitsExp (begins_by A.span_from) A.fits_at base (expr_of of.now) }
    ensures { OnOk result (noted (given F.decls F.types here.now).member steps.new.items
        ≡ noted (given F.decls F.types here.now).member steps.old.items
        ++ pure.exp_locals A.span_from (meaning_at (given F.decls F.types here.now)) base
        (expr_of of.now)) }
{
    let path = no_path(alloc);
    expr(alloc, here, &path, base, of, steps)
}

/// Puts the steps of the arguments of a written `super(..)` in a member that begins at `at`.
pub(crate) fn gather_args<'a, F: Facts, A: Mark>(
    alloc: Global,
    here: &Here<'a, F>,
    at: u32,
    args: &Option<Vec<Expr<A>>>,
    steps: &mut Vec<Step<'a>>,
) -> Result<(), AllocError>
    requires fits { FitsArgs A.span_from A.fits_at at (args_of args.now) }
    ensures { OnOk result (noted (given F.decls F.types here.now).member steps.new.items
        ≡ noted (given F.decls F.types here.now).member steps.old.items
        ++ pure.args_locals A.span_from (meaning_at (given F.decls F.types here.now)) at
        (args_of args.now)) }
{
    match args {
        None => Ok(()),
        Some(args) => {
            let path = no_path(alloc);
            exprs(alloc, here, &path, 0, at, args, steps)
        }
    }
}

/// A local that is declared by a statement that begins at `at`.
fn local<'a, 'b, F: Facts, A: Mark>(
    alloc: Global,
    here: &Here<'a, F>,
    at: u32,
    init: &'b Expr<A>,
    steps: &mut Vec<Step<'a>>,
    begins: &mut Vec<Begin<'b, A>>,
) -> Result<(), AllocError>
    requires fits { FitsExp (begins_by A.span_from) A.fits_at at (expr_of init.now) }
    ensures { OnOk result (notes_in (given F.decls F.types here.now).member steps.new.items
        begins.new.items ≡ both (notes_in (given F.decls F.types here.now).member steps.old.items
        begins.old.items) (record {
          writes = pure.exp_locals A.span_from
              (meaning_at (given F.decls F.types here.now)) at (expr_of init.now);
          begins = (record { base = at; of = expr_of init.now }) ∷ [];
        })) }
{
    gather_expr(alloc, here, at, init, steps)?;
    begins.push(Begin { base: at, of: init })?;
    Ok(())
}

/// `return`.
fn returned<'a, F: Facts, A: Mark>(
    alloc: Global,
    here: &Here<'a, F>,
    at: u32,
    value: &Option<Expr<A>>,
    steps: &mut Vec<Step<'a>>,
) -> Result<(), AllocError>
    requires fits { FitsMaybe (begins_by A.span_from) A.fits_at at (option_map expr_of value.now) }
    ensures { OnOk result (noted (given F.decls F.types here.now).member steps.new.items
        ≡ noted (given F.decls F.types here.now).member steps.old.items
        ++ pure.maybe_locals A.span_from (meaning_at (given F.decls F.types here.now)) at
        (option_map expr_of value.now)) }
{
    match value {
        None => Ok(()),
        Some(value) => gather_expr(alloc, here, at, value, steps),
    }
}

/// Gathers what is in a statement but for the statement that stands last in it, if one does: a call
/// for each of those would take stack for each of the thousands of `if` and `while` that a text may
/// nest.
#[cycle(gathering)]
fn head<'a, 'b, F: Facts, A: Mark>(
    alloc: Global,
    here: &Here<'a, F>,
    base: u32,
    of: &'b Stmt<A>,
    steps: &mut Vec<Step<'a>>,
    begins: &mut Vec<Begin<'b, A>>,
) -> Result<Reached<'b, A>, AllocError>
    requires fits { FitsStmt (begins_by A.span_from) A.fits_at base (stmt_of of.now) }
    ensures { IfOk result (λ r. HeadGathered A.span_from A.fits_at
        (meaning_at (given F.decls F.types here.now)) base (stmt_of of.now) r
        (notes_in (given F.decls F.types here.now).member steps.old.items begins.old.items)
        (notes_in (given F.decls F.types here.now).member steps.new.items begins.new.items)) }
{
    let at = of.mark.span(base).from;
    match &of.kind {
        StmtKind::Local {
            is_final: _,
            ty: _,
            name: _,
            init,
        } => {
            local(alloc, here, at, init, steps, begins)?;
            Ok(Reached::Behind)
        }
        StmtKind::Eval(value) => {
            gather_expr(alloc, here, at, value, steps)?;
            Ok(Reached::Behind)
        }
        StmtKind::If(test, yes, no) => {
            let last = branch(alloc, here, at, test, yes, no, steps, begins)?;
            Ok(Reached::To(last))
        }
        StmtKind::While(test, body) => {
            gather_expr(alloc, here, at, test, steps)?;
            Ok(Reached::To(Last { of: body, at }))
        }
        StmtKind::Return(value) => {
            returned(alloc, here, at, value, steps)?;
            Ok(Reached::Behind)
        }
        StmtKind::Block(body) => {
            stmts(alloc, here, at, body, steps, begins)?;
            Ok(Reached::Behind)
        }
        StmtKind::Sync(object, body) => {
            sync(alloc, here, at, object, body, steps, begins)?;
            Ok(Reached::Behind)
        }
        StmtKind::Empty => Ok(Reached::Behind),
    }
}

/// A condition and its statements, but for the last one, in an `if` that begins at `at`.
#[cycle(gathering)]
fn branch<'a, 'b, F: Facts, A: Mark>(
    alloc: Global,
    here: &Here<'a, F>,
    at: u32,
    test: &Expr<A>,
    yes: &'b Stmt<A>,
    no: &'b Option<Box<Stmt<A>>>,
    steps: &mut Vec<Step<'a>>,
    begins: &mut Vec<Begin<'b, A>>,
) -> Result<Last<'b, A>, AllocError>
    requires fits { FitsExp (begins_by A.span_from) A.fits_at at (expr_of test.now) }
    requires fits_yes { FitsStmt (begins_by A.span_from) A.fits_at at (stmt_of yes.now) }
    requires fits_no { FitsElse (begins_by A.span_from) A.fits_at at (else_of no.now) }
    ensures { IfOk result (λ l. BranchGathered A.span_from A.fits_at
        (meaning_at (given F.decls F.types here.now)) at (expr_of test.now) (stmt_of yes.now)
        (else_of no.now) l
        (notes_in (given F.decls F.types here.now).member steps.old.items begins.old.items)
        (notes_in (given F.decls F.types here.now).member steps.new.items begins.new.items)) }
{
    gather_expr(alloc, here, at, test, steps)?;
    match no {
        None => Ok(Last { of: yes, at }),
        Some(no) => {
            stmt(alloc, here, at, yes, steps, begins)?;
            Ok(Last { of: no, at })
        }
    }
}

/// An object and the statements that hold its lock.
#[cycle(gathering)]
fn sync<'a, 'b, F: Facts, A: Mark>(
    alloc: Global,
    here: &Here<'a, F>,
    at: u32,
    object: &Expr<A>,
    body: &'b [Stmt<A>],
    steps: &mut Vec<Step<'a>>,
    begins: &mut Vec<Begin<'b, A>>,
) -> Result<(), AllocError>
    requires fits { FitsExp (begins_by A.span_from) A.fits_at at (expr_of object.now) }
    requires fits_body { FitsStmts (begins_by A.span_from) A.fits_at at (stmts_of body.now) }
    ensures { OnOk result (notes_in (given F.decls F.types here.now).member steps.new.items
        begins.new.items ≡ both (notes_in (given F.decls F.types here.now).member steps.old.items
        begins.old.items) (both (wrote (pure.exp_locals A.span_from
        (meaning_at (given F.decls F.types here.now)) at (expr_of object.now)))
        (pure.stmts_notes A.span_from (meaning_at (given F.decls F.types here.now)) at
        (stmts_of body.now)))) }
{
    gather_expr(alloc, here, at, object, steps)?;
    stmts(alloc, here, at, body, steps, begins)
}

/// A statement whose parent begins at `base`.
#[cycle(gathering)]
fn stmt<'a, 'b, F: Facts, A: Mark>(
    alloc: Global,
    here: &Here<'a, F>,
    base: u32,
    of: &'b Stmt<A>,
    steps: &mut Vec<Step<'a>>,
    begins: &mut Vec<Begin<'b, A>>,
) -> Result<(), AllocError>
    requires fits { FitsStmt (begins_by A.span_from) A.fits_at base (stmt_of of.now) }
    ensures { OnOk result (notes_in (given F.decls F.types here.now).member steps.new.items
        begins.new.items ≡ both (notes_in (given F.decls F.types here.now).member steps.old.items
        begins.old.items) (pure.stmt_notes A.span_from
        (meaning_at (given F.decls F.types here.now)) base (stmt_of of.now))) }
{
    let mut base = base;
    let mut of = of;
    loop {
        let reached = head(alloc, here, base, of, steps, begins)?;
        match reached {
            Reached::Behind => return Ok(()),
            Reached::To(last) => {
                base = last.at;
                of = last.of;
            }
        }
    }
}

/// A list of statements in a node that begins at `at`.
#[cycle(gathering)]
pub(crate) fn stmts<'a, 'b, F: Facts, A: Mark>(
    alloc: Global,
    here: &Here<'a, F>,
    at: u32,
    body: &'b [Stmt<A>],
    steps: &mut Vec<Step<'a>>,
    begins: &mut Vec<Begin<'b, A>>,
) -> Result<(), AllocError>
    requires fits { FitsStmts (begins_by A.span_from) A.fits_at at (stmts_of body.now) }
    ensures { OnOk result (notes_in (given F.decls F.types here.now).member steps.new.items
        begins.new.items ≡ both (notes_in (given F.decls F.types here.now).member steps.old.items
        begins.old.items) (pure.stmts_notes A.span_from
        (meaning_at (given F.decls F.types here.now)) at (stmts_of body.now))) }
{
    for of in body {
        stmt(alloc, here, at, of, steps, begins)?;
    }
    Ok(())
}

//! The walk over an expression (JLS 15).
ghost use Rattle.std.specs.Prelude.{◌≡◌, ◌+◌, ◌++◌, ◌∷◌, [], ℕ, List, IfOk, OnOk};
ghost use Rattle.jr_ast.specs.View.{expr_of, exprs_of, target_of};
ghost use Rattle.jr_bind_expr.specs.Fits.{FitsExp, FitsExps, FitsTarget};
ghost use Rattle.jr_cover.specs.Sites as sites;
ghost use Rattle.jr_expr_sites.specs.KnownFacts.{Given};
ghost use Rattle.jr_expr_sites.specs.Routes.{Route, Walked, begins_by};
ghost use Rattle.jr_expr_sites.specs.Routes as route;
ghost use Rattle.jr_expr_sites.specs.StepView.{given};

use crate::aims::{Aim, aim_of};
use crate::checks::{called, cast_check, checked_load, divisor_check, is_class_name};
use crate::here::{Here, below};
use crate::puts::{field_load, load, put, put_nothing, put_row, put_rows, put_site};
use crate::step::{Step, What};
use crate::targets::{target_check, target_load, target_store};
use jr_ast::{BinOp, Expr, ExprKind, Ident, Path};
use jr_table::Facts;
use jr_text::Mark;
use std::alloc::{AllocError, Global};

/// The number of a call's first argument among its parts.
fn first_argument<A>(target: &Option<Box<Expr<A>>>) -> u32
    ensures { result ≡ route.first_argument (target_of target.now) }
{
    match target {
        None => 1,
        Some(_) => 2,
    }
}

/// The number behind this one. More parts than numbers don't fit any memory.
pub fn next(number: u32) -> Result<u32, AllocError>
    ensures { IfOk result (λ n. n ≡ number + 1) }
{
    match number.checked_add(1) {
        None => Err(AllocError),
        Some(next) => Ok(next),
    }
}

/// Whether the right operand may be left out (JLS 15.23, 15.24).
fn is_lazy(op: BinOp) -> bool
    ensures { result ≡ route.is_lazy op }
{
    match op {
        BinOp::Or => true,
        BinOp::And => true,
        BinOp::Eq => false,
        BinOp::Ne => false,
        BinOp::Lt => false,
        BinOp::Gt => false,
        BinOp::Le => false,
        BinOp::Ge => false,
        BinOp::Add => false,
        BinOp::Sub => false,
        BinOp::Mul => false,
        BinOp::Div => false,
        BinOp::Rem => false,
    }
}

/// Puts what stands behind both operands, which begin at or behind the byte `at`.
fn operands_end<'a, A: Mark>(
    op: BinOp,
    at: u32,
    right: &Expr<A>,
    out: &mut Vec<Step<'a>>,
) -> Result<(), AllocError>
    requires fits { FitsExp (begins_by A.span_from) A.fits_at at (expr_of right.now) }
    ensures { (g : Given) (path : List ℕ) (r s : Route) (start middle : route.Steps)
        → Walked g r start middle → Walked g s middle out.old.items
        → OnOk result (Walked g (λ g o. sites.operands op (r g o) (s g o)
        (route.divisor_check A.span_from op path at (expr_of right.now) g o))
        start out.new.items) }
{
    let may_pass = is_lazy(op);
    if may_pass {
        put_nothing(out)?;
        put(Step::Fork, out)?;
        return put_row(out);
    }
    divisor_check(op, at, right, out)?;
    put_row(out)?;
    put_row(out)
}

/// Puts what a simple name does, in a node that begins at `at`.
fn simple<'a, F: Facts, A: Mark>(
    here: &Here<'a, F>,
    at: u32,
    name: &Ident<A>,
    out: &mut Vec<Step<'a>>,
) -> Result<(), AllocError>
    requires fits { A.fits_at name.now.mark at }
    ensures { OnOk result (Walked (given F.decls F.types here.now)
        (route.load (begins_by A.span_from name.now.mark at)) out.old.items out.new.items) }
{
    load(here, name.mark.span(at).from, out)
}

/// Puts what a field behind `super` does.
fn on_super<'a, F: Facts, A: Mark>(
    here: &Here<'a, F>,
    at: u32,
    name: &Ident<A>,
    out: &mut Vec<Step<'a>>,
) -> Result<(), AllocError>
    requires fits { A.fits_at name.now.mark at }
    ensures { OnOk result (Walked (given F.decls F.types here.now)
        (route.field_load (begins_by A.span_from name.now.mark at)) out.old.items out.new.items) }
{
    field_load(here, name.mark.span(at).from, out)
}

/// Puts the steps of an expression to which the path leads, and whose parent begins at `base`. The
/// only fault is want of memory.
#[cycle(walk)]
pub fn expr<'a, F: Facts, A: Mark>(
    alloc: Global,
    here: &Here<'a, F>,
    path: &Path,
    base: u32,
    of: &Expr<A>,
    out: &mut Vec<Step<'a>>,
) -> Result<(), AllocError>
    requires fits { FitsExp (begins_by A.span_from) A.fits_at base (expr_of of.now) }
    ensures { OnOk result (Walked (given F.decls F.types here.now)
        (route.exp A.span_from path.now.steps.items base (expr_of of.now))
        out.old.items out.new.items) }
{
    let at = of.mark.span(base).from;
    match &of.kind {
        ExprKind::Int(_) => put_nothing(out),
        ExprKind::Bool(_) => put_nothing(out),
        ExprKind::Null => put_nothing(out),
        ExprKind::Text(_) => put_nothing(out),
        ExprKind::This => put_nothing(out),
        ExprKind::ClassLit(_) => put_nothing(out),
        ExprKind::Simple(name) => simple(here, at, name, out),
        ExprKind::Field(part, name) => field(alloc, here, path, at, part, name, out),
        ExprKind::SuperField(name) => on_super(here, at, name, out),
        ExprKind::Call(target, name, args) => call(alloc, here, path, at, target, name, args, out),
        ExprKind::SuperCall(name, args) => super_call(alloc, here, path, at, name, args, out),
        ExprKind::New(_, args) => create(alloc, here, path, at, args, out),
        ExprKind::Paren(part) => operand(alloc, here, path, 0, at, part, out),
        ExprKind::Cast(_, part) => cast(alloc, here, path, at, part, out),
        ExprKind::Unary(_, part) => operand(alloc, here, path, 0, at, part, out),
        ExprKind::Bump(_, to) => bump(alloc, here, path, at, to, out),
        ExprKind::Binary(op, left, right) => {
            binary(alloc, here, path, at, *op, left, right, out)
        }
        ExprKind::Assign(to, value) => assign(alloc, here, path, at, to, value, out),
        ExprKind::Compound(op, to, value) => {
            compound(alloc, here, path, at, *op, to, value, out)
        }
    }
}

/// An operand, which is the part of this number.
#[cycle(walk)]
pub fn operand<'a, F: Facts, A: Mark>(
    alloc: Global,
    here: &Here<'a, F>,
    path: &Path,
    step: u32,
    at: u32,
    part: &Expr<A>,
    out: &mut Vec<Step<'a>>,
) -> Result<(), AllocError>
    requires fits { FitsExp (begins_by A.span_from) A.fits_at at (expr_of part.now) }
    ensures { OnOk result (Walked (given F.decls F.types here.now)
        (route.exp A.span_from (path.now.steps.items ++ step ∷ []) at (expr_of part.now))
        out.old.items out.new.items) }
{
    let inner = below(alloc, path, step)?;
    expr(alloc, here, &inner, at, part, out)
}

/// What stands in front of a dot, the first part of the node to which the path leads: the name of a
/// class does nothing.
#[cycle(walk)]
pub fn left<'a, F: Facts, A: Mark>(
    alloc: Global,
    here: &Here<'a, F>,
    path: &Path,
    at: u32,
    part: &Expr<A>,
    out: &mut Vec<Step<'a>>,
) -> Result<(), AllocError>
    requires fits { FitsExp (begins_by A.span_from) A.fits_at at (expr_of part.now) }
    ensures { OnOk result (Walked (given F.decls F.types here.now)
        (route.left A.span_from (path.now.steps.items ++ 0 ∷ []) at (expr_of part.now))
        out.old.items out.new.items) }
{
    let is_class = is_class_name(here, at, part);
    if is_class {
        return put_nothing(out);
    }
    operand(alloc, here, path, 0, at, part, out)
}

/// The operand of what is assigned or bumped, the first part of the node to which the path leads.
#[cycle(walk)]
pub fn target_operand<'a, F: Facts, A: Mark>(
    alloc: Global,
    here: &Here<'a, F>,
    path: &Path,
    at: u32,
    to: &Expr<A>,
    out: &mut Vec<Step<'a>>,
) -> Result<(), AllocError>
    requires fits { FitsExp (begins_by A.span_from) A.fits_at at (expr_of to.now) }
    ensures { OnOk result (Walked (given F.decls F.types here.now)
        (route.target_operand A.span_from (path.now.steps.items ++ 0 ∷ []) at (expr_of to.now))
        out.old.items out.new.items) }
{
    let inner = below(alloc, path, 0)?;
    let from = to.mark.span(at).from;
    match aim_of(to) {
        Aim::Dotted(part, _) => left(alloc, here, &inner, from, part, out),
        Aim::Name(_) => put_nothing(out),
        Aim::OnSuper(_) => put_nothing(out),
        Aim::Other => put_nothing(out),
    }
}

/// A field behind a dot.
#[cycle(walk)]
fn field<'a, F: Facts, A: Mark>(
    alloc: Global,
    here: &Here<'a, F>,
    path: &Path,
    at: u32,
    part: &Expr<A>,
    name: &Ident<A>,
    out: &mut Vec<Step<'a>>,
) -> Result<(), AllocError>
    requires fits { FitsExp (begins_by A.span_from) A.fits_at at (expr_of part.now) }
    requires fits_name { A.fits_at name.now.mark at }
    ensures { OnOk result (Walked (given F.decls F.types here.now)
        (route.field A.span_from path.now.steps.items at (expr_of part.now)
        (begins_by A.span_from name.now.mark at)) out.old.items out.new.items) }
{
    let word = name.mark.span(at).from;
    left(alloc, here, path, at, part, out)?;
    checked_load(here, at, part, word, out)?;
    put_row(out)
}

/// What a call is made on.
#[cycle(walk)]
fn receiver<'a, F: Facts, A: Mark>(
    alloc: Global,
    here: &Here<'a, F>,
    path: &Path,
    at: u32,
    target: &Option<Box<Expr<A>>>,
    out: &mut Vec<Step<'a>>,
) -> Result<(), AllocError>
    requires fits { FitsTarget (begins_by A.span_from) A.fits_at at (target_of target.now) }
    ensures { OnOk result (Walked (given F.decls F.types here.now)
        (route.receiver A.span_from path.now.steps.items at (target_of target.now))
        out.old.items out.new.items) }
{
    match target {
        None => put_nothing(out),
        Some(part) => left(alloc, here, path, at, part, out),
    }
}

/// A call: the test for null stands behind the arguments (JLS 15.12.4).
#[cycle(walk)]
fn call<'a, F: Facts, A: Mark>(
    alloc: Global,
    here: &Here<'a, F>,
    path: &Path,
    at: u32,
    target: &Option<Box<Expr<A>>>,
    name: &Ident<A>,
    args: &[Expr<A>],
    out: &mut Vec<Step<'a>>,
) -> Result<(), AllocError>
    requires fits { FitsTarget (begins_by A.span_from) A.fits_at at (target_of target.now) }
    requires fits_name { A.fits_at name.now.mark at }
    requires fits_args { FitsExps (begins_by A.span_from) A.fits_at at (exprs_of args.now) }
    ensures { OnOk result (Walked (given F.decls F.types here.now)
        (route.call A.span_from path.now.steps.items at (target_of target.now)
        (begins_by A.span_from name.now.mark at) (exprs_of args.now))
        out.old.items out.new.items) }
{
    let word = name.mark.span(at).from;
    receiver(alloc, here, path, at, target, out)?;
    exprs(alloc, here, path, first_argument(target), at, args, out)?;
    called(here, at, target, word, out)?;
    put_row(out)?;
    put_row(out)
}

/// A call behind `super`.
#[cycle(walk)]
fn super_call<'a, F: Facts, A: Mark>(
    alloc: Global,
    here: &Here<'a, F>,
    path: &Path,
    at: u32,
    name: &Ident<A>,
    args: &[Expr<A>],
    out: &mut Vec<Step<'a>>,
) -> Result<(), AllocError>
    requires fits_name { A.fits_at name.now.mark at }
    requires fits_args { FitsExps (begins_by A.span_from) A.fits_at at (exprs_of args.now) }
    ensures { OnOk result (Walked (given F.decls F.types here.now)
        (route.super_call A.span_from path.now.steps.items at
        (begins_by A.span_from name.now.mark at) (exprs_of args.now))
        out.old.items out.new.items) }
{
    let word = name.mark.span(at).from;
    exprs(alloc, here, path, 1, at, args, out)?;
    put_site(word, What::Calls, out)?;
    put_row(out)
}

/// A creation: the object is there before the arguments (JLS 15.9.4).
#[cycle(walk)]
fn create<'a, F: Facts, A: Mark>(
    alloc: Global,
    here: &Here<'a, F>,
    path: &Path,
    at: u32,
    args: &[Expr<A>],
    out: &mut Vec<Step<'a>>,
) -> Result<(), AllocError>
    requires fits_args { FitsExps (begins_by A.span_from) A.fits_at at (exprs_of args.now) }
    ensures { OnOk result (Walked (given F.decls F.types here.now)
        (route.create A.span_from path.now.steps.items at (exprs_of args.now))
        out.old.items out.new.items) }
{
    put_site(at, What::Creates, out)?;
    exprs(alloc, here, path, 1, at, args, out)?;
    put_site(at, What::Calls, out)?;
    put_row(out)?;
    put_row(out)
}

/// A cast.
#[cycle(walk)]
fn cast<'a, F: Facts, A: Mark>(
    alloc: Global,
    here: &Here<'a, F>,
    path: &Path,
    at: u32,
    part: &Expr<A>,
    out: &mut Vec<Step<'a>>,
) -> Result<(), AllocError>
    requires fits { FitsExp (begins_by A.span_from) A.fits_at at (expr_of part.now) }
    ensures { OnOk result (Walked (given F.decls F.types here.now)
        (route.cast A.span_from path.now.steps.items at (expr_of part.now))
        out.old.items out.new.items) }
{
    operand(alloc, here, path, 1, at, part, out)?;
    cast_check(alloc, here, path, at, out)?;
    put_row(out)
}

/// `++` or `--`.
#[cycle(walk)]
fn bump<'a, F: Facts, A: Mark>(
    alloc: Global,
    here: &Here<'a, F>,
    path: &Path,
    at: u32,
    to: &Expr<A>,
    out: &mut Vec<Step<'a>>,
) -> Result<(), AllocError>
    requires fits { FitsExp (begins_by A.span_from) A.fits_at at (expr_of to.now) }
    ensures { OnOk result (Walked (given F.decls F.types here.now)
        (route.bump A.span_from path.now.steps.items at (expr_of to.now))
        out.old.items out.new.items) }
{
    target_operand(alloc, here, path, at, to, out)?;
    target_load(here, at, to, out)?;
    target_store(here, at, to, out)?;
    put_row(out)?;
    put_row(out)
}

/// A binary operator.
#[cycle(walk)]
fn binary<'a, F: Facts, A: Mark>(
    alloc: Global,
    here: &Here<'a, F>,
    path: &Path,
    at: u32,
    op: BinOp,
    left: &Expr<A>,
    right: &Expr<A>,
    out: &mut Vec<Step<'a>>,
) -> Result<(), AllocError>
    requires fits { FitsExp (begins_by A.span_from) A.fits_at at (expr_of left.now) }
    requires fits_right { FitsExp (begins_by A.span_from) A.fits_at at (expr_of right.now) }
    ensures { OnOk result (Walked (given F.decls F.types here.now)
        (route.binary A.span_from op path.now.steps.items at (expr_of left.now)
        (expr_of right.now)) out.old.items out.new.items) }
{
    operand(alloc, here, path, 0, at, left, out)?;
    operand(alloc, here, path, 1, at, right, out)?;
    operands_end(op, at, right, out)
}

/// An assignment: the test for null stands behind the right side (JLS 15.26.1).
#[cycle(walk)]
fn assign<'a, F: Facts, A: Mark>(
    alloc: Global,
    here: &Here<'a, F>,
    path: &Path,
    at: u32,
    to: &Expr<A>,
    value: &Expr<A>,
    out: &mut Vec<Step<'a>>,
) -> Result<(), AllocError>
    requires fits { FitsExp (begins_by A.span_from) A.fits_at at (expr_of to.now) }
    requires fits_value { FitsExp (begins_by A.span_from) A.fits_at at (expr_of value.now) }
    ensures { OnOk result (Walked (given F.decls F.types here.now)
        (route.assign A.span_from path.now.steps.items at (expr_of to.now) (expr_of value.now))
        out.old.items out.new.items) }
{
    target_operand(alloc, here, path, at, to, out)?;
    operand(alloc, here, path, 1, at, value, out)?;
    target_check(here, at, to, out)?;
    target_store(here, at, to, out)?;
    put_row(out)?;
    put_row(out)?;
    put_row(out)
}

/// `op=` (JLS 15.26.2).
#[cycle(walk)]
fn compound<'a, F: Facts, A: Mark>(
    alloc: Global,
    here: &Here<'a, F>,
    path: &Path,
    at: u32,
    op: BinOp,
    to: &Expr<A>,
    value: &Expr<A>,
    out: &mut Vec<Step<'a>>,
) -> Result<(), AllocError>
    requires fits { FitsExp (begins_by A.span_from) A.fits_at at (expr_of to.now) }
    requires fits_value { FitsExp (begins_by A.span_from) A.fits_at at (expr_of value.now) }
    ensures { OnOk result (Walked (given F.decls F.types here.now)
        (route.compound A.span_from op path.now.steps.items at (expr_of to.now)
        (expr_of value.now)) out.old.items out.new.items) }
{
    target_operand(alloc, here, path, at, to, out)?;
    target_load(here, at, to, out)?;
    operand(alloc, here, path, 1, at, value, out)?;
    divisor_check(op, at, value, out)?;
    target_store(here, at, to, out)?;
    put_row(out)?;
    put_row(out)?;
    put_row(out)?;
    put_row(out)
}

/// Arguments, the first of which is the part of this number.
#[cycle(walk)]
pub fn exprs<'a, F: Facts, A: Mark>(
    alloc: Global,
    here: &Here<'a, F>,
    path: &Path,
    first: u32,
    at: u32,
    parts: &[Expr<A>],
    out: &mut Vec<Step<'a>>,
) -> Result<(), AllocError>
    requires fits { FitsExps (begins_by A.span_from) A.fits_at at (exprs_of parts.now) }
    ensures { OnOk result (Walked (given F.decls F.types here.now)
        (route.exps A.span_from path.now.steps.items first at (exprs_of parts.now))
        out.old.items out.new.items) }
{
    let mut step = first;
    for part in parts {
        operand(alloc, here, path, step, at, part, out)?;
        step = next(step)?;
    }
    put_nothing(out)?;
    put_rows(parts.len(), out)
}

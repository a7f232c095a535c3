//! What stands in front of a part of an expression, in evaluation order (JLS 15.7).
ghost use Rattle.std.specs.Prelude.{◌≡◌, ◌+◌, ◌++◌, ◌∷◌, [], OnOk, pred, take};
ghost use Rattle.jr_ast.specs.View.{expr_of, exprs_of};
ghost use Rattle.jr_bind_expr.specs.Fits.{FitsExp, FitsExps};
ghost use Rattle.jr_cover.specs.Spots.{spot_exps};
ghost use Rattle.jr_cover.specs.Ways.{size};
ghost use Rattle.jr_expr_sites.specs.KnownFacts.{Given, known_of};
ghost use Rattle.jr_expr_sites.specs.Routes.{begins_by, ends_by, spots};
ghost use Rattle.jr_expr_sites.specs.Routes as route;
ghost use Rattle.jr_expr_sites.specs.StepView.{given};
ghost use Rattle.jr_piece_sites.specs.Fronts as pure;
ghost use Rattle.jr_piece_sites.specs.Growth.{Grows};
ghost use Rattle.jr_piece_sites.specs.Parts as parts;
ghost use Rattle.jr_piece_sites.specs.PartsView.{between_of};

use crate::parts::{Between, Parts, parts_of};
use jr_ast::{Expr, Path};
use jr_expr_sites::{Here, Step, What, exprs, left, operand, put_site, target_operand};
use jr_table::Facts;
use jr_text::Mark;
use std::alloc::{AllocError, Global};

/// The first of them, at most so many.
pub(crate) fn first_ones<T>(all: &[T], count: u32) -> &[T]
    ensures { result.now ≡ take count all.now }
{
    let count = count as usize;
    if count < all.len() {
        let (front, _) = all.split_at(count);
        return front;
    }
    all
}

/// Puts a site, if it is so.
pub(crate) fn put_if<'a>(
    is_so: bool,
    at: u32,
    what: What<'a>,
    out: &mut Vec<Step<'a>>,
) -> Result<(), AllocError>
    ensures { (g : Given) → OnOk result (Grows g (λ o. pure.one_if is_so)
        out.old.items out.new.items) }
{
    if is_so {
        return put_site(at, what, out);
    }
    Ok(())
}

/// Puts the operand of what is changed, the first part of the node to which the path leads, and
/// that it is read: what its evaluation for its value does.
fn put_read<'a, F: Facts, A: Mark>(
    alloc: Global,
    here: &Here<'a, F>,
    path: &Path,
    at: u32,
    to: &Expr<A>,
    out: &mut Vec<Step<'a>>,
) -> Result<(), AllocError>
    requires fits { FitsExp (begins_by A.span_from) A.fits_at at (expr_of to.now) }
    ensures { OnOk result (Grows (given F.decls F.types here.now)
        (λ o. pure.in_front_of_second (known_of (given F.decls F.types here.now) o) parts.changed
        (spots A.span_from (path.now.steps.items ++ 0 ∷ []) at (expr_of to.now)))
        out.old.items out.new.items) }
{
    match parts_of(to) {
        Parts::Named => operand(alloc, here, path, 0, at, to, out),
        Parts::Dotted(_) => operand(alloc, here, path, 0, at, to, out),
        Parts::Leaf => Ok(()),
        Parts::One(_, _) => Ok(()),
        Parts::Two(_, _, _) => Ok(()),
        Parts::Row(_, _) => Ok(()),
        Parts::On(_, _) => Ok(()),
    }
}

/// Puts the first of two parts of the node to which the path leads, as it is evaluated in front of
/// the second.
fn put_first<'a, F: Facts, A: Mark>(
    alloc: Global,
    here: &Here<'a, F>,
    path: &Path,
    at: u32,
    between: Between,
    first: &Expr<A>,
    out: &mut Vec<Step<'a>>,
) -> Result<(), AllocError>
    requires fits { FitsExp (begins_by A.span_from) A.fits_at at (expr_of first.now) }
    ensures { OnOk result (Grows (given F.decls F.types here.now)
        (λ o. pure.in_front_of_second (known_of (given F.decls F.types here.now) o)
        (between_of between)
        (spots A.span_from (path.now.steps.items ++ 0 ∷ []) at (expr_of first.now)))
        out.old.items out.new.items) }
{
    match between {
        Between::Valued => operand(alloc, here, path, 0, at, first, out),
        Between::Assigned => target_operand(alloc, here, path, at, first, out),
        Between::Changed => put_read(alloc, here, path, at, first, out),
    }
}

/// The same of two parts in front of the one of this number.
fn put_two_front<'a, F: Facts, A: Mark>(
    alloc: Global,
    here: &Here<'a, F>,
    path: &Path,
    at: u32,
    between: Between,
    first: &Expr<A>,
    number: u32,
    out: &mut Vec<Step<'a>>,
) -> Result<(), AllocError>
    requires fits { FitsExp (begins_by A.span_from) A.fits_at at (expr_of first.now) }
    ensures { OnOk result (Grows (given F.decls F.types here.now)
        (λ o. pure.behind_first number (pure.in_front_of_second
        (known_of (given F.decls F.types here.now) o) (between_of between)
        (spots A.span_from (path.now.steps.items ++ 0 ∷ []) at (expr_of first.now))))
        out.old.items out.new.items) }
{
    if number == 0 {
        return Ok(());
    }
    put_first(alloc, here, path, at, between, first, out)
}

/// Puts the first arguments, at most so many, of which the first is the part of the number `first`.
pub(crate) fn put_args<'a, F: Facts, A: Mark>(
    alloc: Global,
    here: &Here<'a, F>,
    path: &Path,
    first: u32,
    at: u32,
    args: &[Expr<A>],
    count: u32,
    out: &mut Vec<Step<'a>>,
) -> Result<(), AllocError>
    requires fits { FitsExps (begins_by A.span_from) A.fits_at at (exprs_of args.now) }
    ensures { OnOk result (Grows (given F.decls F.types here.now)
        (λ o. pure.exps_front (known_of (given F.decls F.types here.now) o)
        (spot_exps (begins_by A.span_from) (ends_by A.span_from) (exprs_of args.now) at
        path.now.steps.items first) count) out.old.items out.new.items) }
{
    let front = first_ones(args, count);
    exprs(alloc, here, path, first, at, front, out)
}

/// Puts that an object is made, if one is, and then the arguments in front of the part of this
/// number.
fn put_row_front<'a, F: Facts, A: Mark>(
    alloc: Global,
    here: &Here<'a, F>,
    path: &Path,
    at: u32,
    is_created: bool,
    args: &[Expr<A>],
    number: u32,
    out: &mut Vec<Step<'a>>,
) -> Result<(), AllocError>
    requires fits { FitsExps (begins_by A.span_from) A.fits_at at (exprs_of args.now) }
    ensures { OnOk result (Grows (given F.decls F.types here.now)
        (λ o. pure.one_if is_created
        + pure.exps_front (known_of (given F.decls F.types here.now) o)
        (spot_exps (begins_by A.span_from) (ends_by A.span_from) (exprs_of args.now) at
        path.now.steps.items 1) (pred number)) out.old.items out.new.items) }
{
    put_if(is_created, at, What::Creates, out)?;
    put_args(
        alloc,
        here,
        path,
        1,
        at,
        args,
        number.saturating_sub(1),
        out,
    )
}

/// Puts what a call is made on, and then the arguments in front of the part of this number, which
/// isn't the first.
fn put_call_front<'a, F: Facts, A: Mark>(
    alloc: Global,
    here: &Here<'a, F>,
    path: &Path,
    at: u32,
    target: &Expr<A>,
    args: &[Expr<A>],
    number: u32,
    out: &mut Vec<Step<'a>>,
) -> Result<(), AllocError>
    requires fits { FitsExps (begins_by A.span_from) A.fits_at at (exprs_of args.now) }
    requires fits_target { FitsExp (begins_by A.span_from) A.fits_at at (expr_of target.now) }
    ensures { OnOk result (Grows (given F.decls F.types here.now)
        (λ o. size (route.left A.span_from (path.now.steps.items ++ 0 ∷ []) at (expr_of target.now)
        (given F.decls F.types here.now) o)
        + pure.exps_front (known_of (given F.decls F.types here.now) o)
        (spot_exps (begins_by A.span_from) (ends_by A.span_from) (exprs_of args.now) at
        path.now.steps.items 2) (pred (pred number))) out.old.items out.new.items) }
{
    left(alloc, here, path, at, target, out)?;
    put_args(
        alloc,
        here,
        path,
        2,
        at,
        args,
        number.saturating_sub(2),
        out,
    )
}

/// The same in front of the part of any number.
fn put_on_front<'a, F: Facts, A: Mark>(
    alloc: Global,
    here: &Here<'a, F>,
    path: &Path,
    at: u32,
    target: &Expr<A>,
    args: &[Expr<A>],
    number: u32,
    out: &mut Vec<Step<'a>>,
) -> Result<(), AllocError>
    requires fits { FitsExps (begins_by A.span_from) A.fits_at at (exprs_of args.now) }
    requires fits_target { FitsExp (begins_by A.span_from) A.fits_at at (expr_of target.now) }
    ensures { OnOk result (Grows (given F.decls F.types here.now)
        (λ o. pure.behind_first number (size (route.left A.span_from
        (path.now.steps.items ++ 0 ∷ []) at (expr_of target.now)
        (given F.decls F.types here.now) o)
        + pure.exps_front (known_of (given F.decls F.types here.now) o)
        (spot_exps (begins_by A.span_from) (ends_by A.span_from) (exprs_of args.now) at
        path.now.steps.items 2) (pred (pred number)))) out.old.items out.new.items) }
{
    if number == 0 {
        return Ok(());
    }
    put_call_front(alloc, here, path, at, target, args, number, out)
}

/// Puts what stands in front of the part of this number of an expression to which the path leads,
/// and whose parent begins at `base`.
pub(crate) fn expr_front<'a, F: Facts, A: Mark>(
    alloc: Global,
    here: &Here<'a, F>,
    path: &Path,
    base: u32,
    of: &Expr<A>,
    number: u32,
    out: &mut Vec<Step<'a>>,
) -> Result<(), AllocError>
    requires fits { FitsExp (begins_by A.span_from) A.fits_at base (expr_of of.now) }
    ensures { OnOk result (Grows (given F.decls F.types here.now)
        (λ o. pure.exp_front (known_of (given F.decls F.types here.now) o)
        (parts.parts_of (spots A.span_from path.now.steps.items base (expr_of of.now))) number)
        out.old.items out.new.items) }
{
    let at = of.mark.span(base).from;
    match parts_of(of) {
        Parts::Leaf => Ok(()),
        Parts::Named => Ok(()),
        Parts::Dotted(_) => Ok(()),
        Parts::One(_, _) => Ok(()),
        Parts::Two(between, first, _) => {
            put_two_front(alloc, here, path, at, between, first, number, out)
        }
        Parts::Row(is_created, args) => {
            put_row_front(alloc, here, path, at, is_created, args, number, out)
        }
        Parts::On(target, args) => put_on_front(alloc, here, path, at, target, args, number, out),
    }
}

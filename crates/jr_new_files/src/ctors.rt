//! The walk over a constructor (JLS 8.8).
ghost use Rattle.std.specs.Prelude.{◌≡◌, ◌+◌, ◌<◌, ℕ, List, true, false, length, IfOk, map};
ghost use Rattle.std.specs.Prelude.{option_map};
ghost use Rattle.jr_ast.specs.View.{word_of, param_of, args_of, exprs_of, stmts_of, modifier_of};
ghost use Rattle.jr_table.specs.HeadRules.{plain, with_parameters};
ghost use Rattle.jr_table.specs.Rows.{Row};
ghost use Rattle.jr_table.specs.TypesAt.{count_super};
ghost use Rattle.jr_new_bodies.specs.OutputView.{gathered};
ghost use Rattle.jr_new_files.specs.Walking.{key_of, rows_of, mapping_of, CanWalk};
ghost use Rattle.jr_new_files.specs.Ready as ready;
ghost use Rattle.jr_new_files.specs.PartEffects as gives;

use crate::beginnings::{Walked, count, forget_here, here_with, no_path, plus};
use crate::methods::{body, parameters};
use crate::supers::super_call;
use crate::words::member_word;
use jr_ast::{Expr, Ident, Modifier, Param, Stmt};
use jr_bind::View;
use jr_new_bodies::Output;
use jr_text::Span;
use std::alloc::{AllocError, Global};

/// What stands in front of a constructor's body, but for a written `super(..)`.
fn ctor_head(
    alloc: Global,
    of: &Walked<'_>,
    name: &Ident<Span>,
    params: &[Param<Span>],
    out: &mut Output,
) -> Result<(), AllocError>
    requires walked { CanWalk of.now }
    requires ready { ready.ParamsReady (rows_of of.now) (plain (key_of of.now) false)
        (map param_of params.now) }
    ensures { IfOk result (λ _. (at : ℕ) → gives.CtorHeadGathers (rows_of of.now) (mapping_of of.now)
        (key_of of.now) at (word_of name.now) (map param_of params.now) (gathered out.old)
        (gathered out.new)) }
{
    member_word(alloc, of, name, out)?;
    parameters(alloc, of, params, out)
}

/// A written `super(..)`, in which the parameters are in scope and there is no object.
fn super_part<'a, V: View<Span>>(
    alloc: Global,
    view: &V,
    file: u32,
    span: Span,
    of: &Walked<'a>,
    params: &'a [Param<Span>],
    first: u32,
    args: &[Expr<Span>],
    out: &mut Output,
) -> Result<(), AllocError>
    requires walked { CanWalk of.now }
    requires file { file < length (V.program view.now).files }
    requires ready { ready.SuperReady (rows_of of.now) of.now.bound.now of.now.from
        (with_parameters (key_of of.now) true (map param_of params.now)) first span.from
        (exprs_of args.now) }
    requires stands { ready.IsFirstSuper (V.program view.now) file span
        ((V.program view.now).super_at (key_of of.now)) }
    ensures { IfOk result (λ _. gives.SuperGathers (rows_of of.now) (mapping_of of.now)
        (with_parameters (key_of of.now) true (map param_of params.now))
        ((V.program view.now).super_at (key_of of.now)) span.from (exprs_of args.now)
        (gathered out.old) (gathered out.new)) }
{
    let here = here_with(alloc, of, true, params)?;
    let path = no_path(alloc);
    let done = super_call(alloc, view, file, span, &here, &path, first, args, out);
    forget_here(here);
    done
}

/// The same, if one is written.
fn maybe_super<'a, V: View<Span>>(
    alloc: Global,
    view: &V,
    file: u32,
    span: Span,
    of: &Walked<'a>,
    params: &'a [Param<Span>],
    first: u32,
    args: &Option<Vec<Expr<Span>>>,
    out: &mut Output,
) -> Result<(), AllocError>
    requires walked { CanWalk of.now }
    requires file { file < length (V.program view.now).files }
    requires ready { ready.MaybeSuperReady (rows_of of.now) of.now.bound.now of.now.from
        (with_parameters (key_of of.now) true (map param_of params.now)) first span.from
        (args_of args.now) }
    requires stands { ready.IsMaybeSuper (V.program view.now) file span (args_of args.now)
        ((V.program view.now).super_at (key_of of.now)) }
    ensures { IfOk result (λ _. gives.MaybeSuperGathers (rows_of of.now) (mapping_of of.now)
        (with_parameters (key_of of.now) true (map param_of params.now))
        ((V.program view.now).super_at (key_of of.now)) span.from (args_of args.now)
        (gathered out.old) (gathered out.new)) }
{
    match args {
        None => Ok(()),
        Some(args) => super_part(alloc, view, file, span, of, params, first, args, out),
    }
}

fn count_args(args: &Option<Vec<Expr<Span>>>) -> Result<u32, AllocError>
    ensures { IfOk result (λ n. (rows : List Row) → n ≡ count_super rows (args_of args.now)) }
{
    match args {
        None => Ok(0),
        Some(args) => count(args),
    }
}

/// The number of a constructor's first argument of `super(..)` among its parts.
fn first_of_super(modifiers: &[Modifier<Span>], params: &[Param<Span>]) -> Result<u32, AllocError>
    ensures { IfOk result (λ n. n ≡ length (map modifier_of modifiers.now) + 1
        + length (map param_of params.now)) }
{
    let before = count(modifiers)?;
    let named = plus(before, 1)?;
    let some = count(params)?;
    plus(named, some)
}

/// A constructor of a file, of this span.
pub(crate) fn ctor<'a, V: View<Span>>(
    alloc: Global,
    view: &V,
    file: u32,
    span: Span,
    of: &Walked<'a>,
    modifiers: &[Modifier<Span>],
    name: &Ident<Span>,
    params: &'a [Param<Span>],
    args: &Option<Vec<Expr<Span>>>,
    statements: &'a [Stmt<Span>],
    out: &mut Output,
) -> Result<(), AllocError>
    requires walked { CanWalk of.now }
    requires file { file < length (V.program view.now).files }
    requires ready { ready.CtorReady (rows_of of.now) of.now.bound.now of.now.from (key_of of.now)
        span.from (map modifier_of modifiers.now) (map param_of params.now) (args_of args.now)
        (stmts_of statements.now) }
    requires stands { ready.IsMaybeSuper (V.program view.now) file span (args_of args.now)
        ((V.program view.now).super_at (key_of of.now)) }
    ensures { IfOk result (λ _. gives.CtorGathers (rows_of of.now) (mapping_of of.now)
        (key_of of.now) ((V.program view.now).super_at (key_of of.now)) span.from
        (word_of name.now) (map param_of params.now) (args_of args.now) (stmts_of statements.now)
        (gathered out.old) (gathered out.new)) }
{
    ctor_head(alloc, of, name, params, out)?;
    let first = first_of_super(modifiers, params)?;
    maybe_super(alloc, view, file, span, of, params, first, args, out)?;
    let more = count_args(args)?;
    let behind = plus(first, more)?;
    body(alloc, of, false, params, behind, span.from, statements, out)
}

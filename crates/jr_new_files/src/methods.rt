//! The walk over a method (JLS 8.4), and what constructors share with it: parameters and bodies.
ghost use Rattle.std.specs.Prelude.{◌≡◌, ◌+◌, ℕ, List, false, length, IfOk, map, option_map};
ghost use Rattle.jr_ast.specs.View.{word_of, type_of, param_of, stmts_of, modifier_of};
ghost use Rattle.jr_table.specs.HeadRules.{plain, with_parameters};
ghost use Rattle.jr_table.specs.Rows.{Row};
ghost use Rattle.jr_table.specs.TypesAt.{count_type};
ghost use Rattle.jr_new_bodies.specs.OutputView.{gathered};
ghost use Rattle.jr_new_files.specs.Walking.{key_of, rows_of, mapping_of, CanWalk};
ghost use Rattle.jr_new_files.specs.Ready as ready;
ghost use Rattle.jr_new_files.specs.PartEffects as gives;

use crate::beginnings::{Walked, count, forget_here, here_with, no_path, plus};
use crate::fields::declared_type;
use crate::words::{is_static, member_word, param_word};
use jr_ast::{Ident, Modifier, Param, Stmt, TypeRef};
use jr_new_bodies::{Output, next, stmts};
use jr_text::Span;
use std::alloc::{AllocError, Global};

/// The type of a method's result, unless it is `void`.
fn result_type(
    alloc: Global,
    of: &Walked<'_>,
    at: u32,
    ty: &Option<TypeRef<Span>>,
    out: &mut Output,
) -> Result<(), AllocError>
    requires walked { CanWalk of.now }
    requires ready { ready.ResultReady (rows_of of.now) (plain (key_of of.now) false) at
        (option_map type_of ty.now) }
    ensures { IfOk result (λ _. gives.ResultGathers (rows_of of.now) (mapping_of of.now)
        (key_of of.now) at (option_map type_of ty.now) (gathered out.old) (gathered out.new)) }
{
    match ty {
        None => Ok(()),
        Some(ty) => declared_type(alloc, of, at, ty, out),
    }
}

/// The parameter of a number.
fn parameter(
    alloc: Global,
    of: &Walked<'_>,
    number: u32,
    param: &Param<Span>,
    out: &mut Output,
) -> Result<(), AllocError>
    requires walked { CanWalk of.now }
    requires ready { ready.TypeReady (rows_of of.now) (plain (key_of of.now) false)
        (param_of param.now).mark.from (param_of param.now).type }
    ensures { IfOk result (λ _. gives.ParamGathers (rows_of of.now) (mapping_of of.now)
        (key_of of.now) number (param_of param.now) (gathered out.old) (gathered out.new)) }
{
    declared_type(alloc, of, param.mark.from, &param.ty, out)?;
    param_word(alloc, of, number, &param.name, out)
}

/// The parameters of a member that begins at `at`.
pub(crate) fn parameters(
    alloc: Global,
    of: &Walked<'_>,
    params: &[Param<Span>],
    out: &mut Output,
) -> Result<(), AllocError>
    requires walked { CanWalk of.now }
    requires ready { ready.ParamsReady (rows_of of.now) (plain (key_of of.now) false)
        (map param_of params.now) }
    ensures { IfOk result (λ _. (at : ℕ) → gives.ParamsGather (rows_of of.now) (mapping_of of.now)
        (key_of of.now) 0 at (map param_of params.now) (gathered out.old) (gathered out.new)) }
{
    let mut number = 0;
    for param in params {
        parameter(alloc, of, number, param, out)?;
        number = next(number)?;
    }
    Ok(())
}

/// What stands in front of a method's body.
fn method_head(
    alloc: Global,
    of: &Walked<'_>,
    at: u32,
    ret: &Option<TypeRef<Span>>,
    name: &Ident<Span>,
    params: &[Param<Span>],
    out: &mut Output,
) -> Result<(), AllocError>
    requires walked { CanWalk of.now }
    requires result { ready.ResultReady (rows_of of.now) (plain (key_of of.now) false) at
        (option_map type_of ret.now) }
    requires params { ready.ParamsReady (rows_of of.now) (plain (key_of of.now) false)
        (map param_of params.now) }
    ensures { IfOk result (λ _. gives.MethodHeadGathers (rows_of of.now) (mapping_of of.now)
        (key_of of.now) at (option_map type_of ret.now) (word_of name.now)
        (map param_of params.now) (gathered out.old) (gathered out.new)) }
{
    result_type(alloc, of, at, ret, out)?;
    member_word(alloc, of, name, out)?;
    parameters(alloc, of, params, out)
}

/// A body, in which the parameters are in scope and whose first statement is the part of this
/// number.
pub(crate) fn body<'a>(
    alloc: Global,
    of: &Walked<'a>,
    is_static: bool,
    params: &'a [Param<Span>],
    first: u32,
    at: u32,
    statements: &'a [Stmt<Span>],
    out: &mut Output,
) -> Result<(), AllocError>
    requires walked { CanWalk of.now }
    requires ready { ready.BodyReady (rows_of of.now) of.now.bound.now of.now.from
        (with_parameters (key_of of.now) is_static (map param_of params.now))
        (length (map param_of params.now)) first at (stmts_of statements.now) }
    ensures { IfOk result (λ _. gives.BodyGathers (rows_of of.now) (mapping_of of.now)
        (with_parameters (key_of of.now) is_static (map param_of params.now))
        (length (map param_of params.now)) at (stmts_of statements.now) (gathered out.old)
        (gathered out.new)) }
{
    let number = count(params)?;
    let mut here = here_with(alloc, of, is_static, params)?;
    let path = no_path(alloc);
    let walked = stmts(alloc, &mut here, &path, first, at, number, statements, out);
    forget_here(here);
    match walked {
        Ok(_) => Ok(()),
        Err(error) => Err(error),
    }
}

fn has_type(ret: &Option<TypeRef<Span>>) -> u32
    ensures { (rows : List Row) → result ≡ count_type rows (option_map type_of ret.now) }
{
    match ret {
        None => 0,
        Some(_) => 1,
    }
}

/// The number of a method's first statement among its parts.
fn first_of_body(
    modifiers: &[Modifier<Span>],
    ret: &Option<TypeRef<Span>>,
    params: &[Param<Span>],
) -> Result<u32, AllocError>
    ensures { IfOk result (λ n. (rows : List Row) → n ≡ length (map modifier_of modifiers.now)
        + count_type rows (option_map type_of ret.now) + 1 + length (map param_of params.now)) }
{
    let before = count(modifiers)?;
    let typed = plus(before, has_type(ret))?;
    let named = plus(typed, 1)?;
    let some = count(params)?;
    plus(named, some)
}

/// A method that begins at `at`.
pub(crate) fn method<'a>(
    alloc: Global,
    of: &Walked<'a>,
    at: u32,
    modifiers: &[Modifier<Span>],
    ret: &Option<TypeRef<Span>>,
    name: &Ident<Span>,
    params: &'a [Param<Span>],
    statements: &'a [Stmt<Span>],
    out: &mut Output,
) -> Result<(), AllocError>
    requires walked { CanWalk of.now }
    requires ready { ready.MethodReady (rows_of of.now) of.now.bound.now of.now.from (key_of of.now)
        at (map modifier_of modifiers.now) (option_map type_of ret.now) (map param_of params.now)
        (stmts_of statements.now) }
    ensures { IfOk result (λ _. gives.MethodGathers (rows_of of.now) (mapping_of of.now)
        (key_of of.now) at (map modifier_of modifiers.now) (option_map type_of ret.now)
        (word_of name.now) (map param_of params.now) (stmts_of statements.now) (gathered out.old)
        (gathered out.new)) }
{
    method_head(alloc, of, at, ret, name, params, out)?;
    let first = first_of_body(modifiers, ret, params)?;
    body(
        alloc,
        of,
        is_static(modifiers),
        params,
        first,
        at,
        statements,
        out,
    )
}

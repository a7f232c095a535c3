//! The walk over a field (JLS 8.3), and what members share: types and initializers.
ghost use Rattle.std.specs.Prelude.{◌+◌, false, length, IfOk, map, option_map};
ghost use Rattle.jr_ast.specs.View.{word_of, type_of, expr_of, modifier_of};
ghost use Rattle.jr_table.specs.HeadRules.{plain};
ghost use Rattle.jr_new_bodies.specs.OutputView.{gathered};
ghost use Rattle.jr_new_files.specs.Walking.{key_of, rows_of, mapping_of, CanWalk};
ghost use Rattle.jr_new_files.specs.Ready.{TypeReady, InitReady, FieldReady};
ghost use Rattle.jr_new_files.specs.PartEffects.{TypeGathers, InitGathers, FieldGathers};

use crate::beginnings::{Walked, count, forget_here, no_path, plain_here, plus};
use crate::words::{is_static, member_word};
use jr_ast::{Expr, Ident, Modifier, TypeKind, TypeRef};
use jr_new_bodies::{Output, maybe, written_type};
use jr_text::Span;
use std::alloc::{AllocError, Global};

/// A class as a type in a declaration, whose parent begins at `at`.
fn class_type(
    alloc: Global,
    of: &Walked<'_>,
    at: u32,
    ty: &TypeRef<Span>,
    out: &mut Output,
) -> Result<(), AllocError>
    requires walked { CanWalk of.now }
    requires ready { TypeReady (rows_of of.now) (plain (key_of of.now) false) at (type_of ty.now) }
    ensures { IfOk result (λ _. TypeGathers (rows_of of.now) (mapping_of of.now)
        (plain (key_of of.now) false) at (type_of ty.now) (gathered out.old) (gathered out.new)) }
{
    let here = plain_here(alloc, of, false)?;
    let done = written_type(alloc, &here, at, ty, out);
    forget_here(here);
    done
}

/// A type in a declaration, whose parent begins at `at`. A primitive type has no name, and no place
/// is made for it.
pub(crate) fn declared_type(
    alloc: Global,
    of: &Walked<'_>,
    at: u32,
    ty: &TypeRef<Span>,
    out: &mut Output,
) -> Result<(), AllocError>
    requires walked { CanWalk of.now }
    requires ready { TypeReady (rows_of of.now) (plain (key_of of.now) false) at (type_of ty.now) }
    ensures { IfOk result (λ _. TypeGathers (rows_of of.now) (mapping_of of.now)
        (plain (key_of of.now) false) at (type_of ty.now) (gathered out.old) (gathered out.new)) }
{
    match &ty.kind {
        TypeKind::Int => Ok(()),
        TypeKind::Boolean => Ok(()),
        TypeKind::Named(_outer, _name) => class_type(alloc, of, at, ty, out),
    }
}

/// An initializer, which is the part of this number.
fn written_initializer(
    alloc: Global,
    of: &Walked<'_>,
    is_static: bool,
    step: u32,
    at: u32,
    init: &Option<Expr<Span>>,
    out: &mut Output,
) -> Result<(), AllocError>
    requires walked { CanWalk of.now }
    requires ready { InitReady (rows_of of.now) of.now.bound.now of.now.from
        (plain (key_of of.now) is_static) step at (option_map expr_of init.now) }
    ensures { IfOk result (λ _. InitGathers (rows_of of.now) (mapping_of of.now)
        (plain (key_of of.now) is_static) at (option_map expr_of init.now) (gathered out.old)
        (gathered out.new)) }
{
    let here = plain_here(alloc, of, is_static)?;
    let path = no_path(alloc);
    let done = maybe(alloc, &here, &path, step, at, init, out);
    forget_here(here);
    done
}

/// An initializer, if there is one, which is the part of this number. Else no place is made.
fn initializer(
    alloc: Global,
    of: &Walked<'_>,
    is_static: bool,
    step: u32,
    at: u32,
    init: &Option<Expr<Span>>,
    out: &mut Output,
) -> Result<(), AllocError>
    requires walked { CanWalk of.now }
    requires ready { InitReady (rows_of of.now) of.now.bound.now of.now.from
        (plain (key_of of.now) is_static) step at (option_map expr_of init.now) }
    ensures { IfOk result (λ _. InitGathers (rows_of of.now) (mapping_of of.now)
        (plain (key_of of.now) is_static) at (option_map expr_of init.now) (gathered out.old)
        (gathered out.new)) }
{
    match init {
        None => Ok(()),
        Some(_written) => written_initializer(alloc, of, is_static, step, at, init, out),
    }
}

/// A field that begins at `at`.
pub(crate) fn field(
    alloc: Global,
    of: &Walked<'_>,
    at: u32,
    modifiers: &[Modifier<Span>],
    ty: &TypeRef<Span>,
    name: &Ident<Span>,
    init: &Option<Expr<Span>>,
    out: &mut Output,
) -> Result<(), AllocError>
    requires walked { CanWalk of.now }
    requires ready { FieldReady (rows_of of.now) of.now.bound.now of.now.from (key_of of.now) at
        (map modifier_of modifiers.now) (type_of ty.now) (option_map expr_of init.now) }
    ensures { IfOk result (λ _. FieldGathers (rows_of of.now) (mapping_of of.now) (key_of of.now) at
        (map modifier_of modifiers.now) (type_of ty.now) (word_of name.now)
        (option_map expr_of init.now) (gathered out.old) (gathered out.new)) }
{
    declared_type(alloc, of, at, ty, out)?;
    member_word(alloc, of, name, out)?;
    let before = count(modifiers)?;
    let step = plus(before, 2)?;
    initializer(alloc, of, is_static(modifiers), step, at, init, out)
}

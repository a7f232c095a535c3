//! Expressions of parts that were made, in boxes.
ghost use Rattle.std.specs.Prelude.{◌≡◌};
ghost use Rattle.std.specs.Result.{IfOk, IsOkAnd};
ghost use Rattle.jr_ast.specs.Tree as tree;
ghost use Rattle.jr_ast.specs.View.{word_of, type_of, expr_of, exprs_of, target_of};

use crate::made::{Made, both};
use jr_ast::{BinOp, BumpOp, Expr, Ident, Name, TypeRef, UnOp};
use std::alloc::Global;

/// In a box, at this type alone: at any type, each call of it would cost the check more.
fn in_box<B: Drop>(alloc: Global, expr: Expr<B>) -> Made<Box<Expr<B>>>
    ensures { IfOk result (λ x. x.value ≡ expr) }
{
    Ok(Box::new(alloc, expr)?)
}

/// An integer literal.
pub(crate) fn number<B: Drop>(alloc: Global, mark: B, value: u32) -> Made<Box<Expr<B>>>
    ensures { IfOk result (λ x. expr_of x.value ≡ tree.number mark value) }
{
    in_box(alloc, Expr::number(mark, value))
}

/// `true` or `false`.
pub(crate) fn truth<B: Drop>(alloc: Global, mark: B, value: bool) -> Made<Box<Expr<B>>>
    ensures { IfOk result (λ x. expr_of x.value ≡ tree.truth mark value) }
{
    in_box(alloc, Expr::truth(mark, value))
}

/// `null`.
pub(crate) fn null<B: Drop>(alloc: Global, mark: B) -> Made<Box<Expr<B>>>
    ensures { IfOk result (λ x. expr_of x.value ≡ tree.null mark) }
{
    in_box(alloc, Expr::null(mark))
}

/// `this`.
pub(crate) fn this<B: Drop>(alloc: Global, mark: B) -> Made<Box<Expr<B>>>
    ensures { IfOk result (λ x. expr_of x.value ≡ tree.this mark) }
{
    in_box(alloc, Expr::this(mark))
}

/// A simple name.
pub(crate) fn simple<B: Drop>(alloc: Global, mark: B, name: Made<Ident<B>>) -> Made<Box<Expr<B>>>
    ensures { IfOk result (λ x. IsOkAnd name (λ name'.
        expr_of x.value ≡ tree.name mark (word_of name'))) }
{
    in_box(alloc, Expr::simple(mark, name?))
}

/// `super.name`.
pub(crate) fn super_field<B: Drop>(
    alloc: Global,
    mark: B,
    name: Made<Ident<B>>,
) -> Made<Box<Expr<B>>>
    ensures { IfOk result (λ x. IsOkAnd name (λ name'.
        expr_of x.value ≡ tree.super_field mark (word_of name'))) }
{
    in_box(alloc, Expr::super_field(mark, name?))
}

/// `ty.class`.
pub(crate) fn class_literal<B: Drop>(
    alloc: Global,
    mark: B,
    ty: Made<TypeRef<B>>,
) -> Made<Box<Expr<B>>>
    ensures { IfOk result (λ x. IsOkAnd ty (λ ty'.
        expr_of x.value ≡ tree.class_literal mark (type_of ty'))) }
{
    in_box(alloc, Expr::class_literal(mark, ty?))
}

/// `of.name`.
pub(crate) fn field<B: Drop>(
    alloc: Global,
    mark: B,
    of: Made<Box<Expr<B>>>,
    name: Made<Ident<B>>,
) -> Made<Box<Expr<B>>>
    ensures { IfOk result (λ x. IsOkAnd of (λ of'.
        IsOkAnd name (λ name'. expr_of x.value
        ≡ tree.field mark (expr_of of'.value) (word_of name')))) }
{
    let (of, name) = both(of, name)?;
    in_box(alloc, Expr::field(mark, of, name))
}

/// `super.name(args)`.
pub(crate) fn super_call<B: Drop>(
    alloc: Global,
    mark: B,
    name: Made<Ident<B>>,
    args: Made<Vec<Expr<B>>>,
) -> Made<Box<Expr<B>>>
    ensures { IfOk result (λ x. IsOkAnd name (λ name'.
        IsOkAnd args (λ args'. expr_of x.value
        ≡ tree.super_call mark (word_of name') (exprs_of args'.items)))) }
{
    let (name, args) = both(name, args)?;
    in_box(alloc, Expr::super_call(mark, name, args))
}

/// `new ty(args)`.
pub(crate) fn create<B: Drop>(
    alloc: Global,
    mark: B,
    ty: Made<Box<TypeRef<B>>>,
    args: Made<Vec<Expr<B>>>,
) -> Made<Box<Expr<B>>>
    ensures { IfOk result (λ x. IsOkAnd ty (λ ty'.
        IsOkAnd args (λ args'. expr_of x.value
        ≡ tree.create mark (type_of ty'.value) (exprs_of args'.items)))) }
{
    let (ty, args) = both(ty, args)?;
    in_box(alloc, Expr::create(mark, ty, args))
}

/// `(of)`.
pub(crate) fn paren<B: Drop>(alloc: Global, mark: B, of: Made<Box<Expr<B>>>) -> Made<Box<Expr<B>>>
    ensures { IfOk result (λ x. IsOkAnd of (λ of'.
        expr_of x.value ≡ tree.paren mark (expr_of of'.value))) }
{
    in_box(alloc, Expr::paren(mark, of?))
}

/// `(ty) of`.
pub(crate) fn cast<B: Drop>(
    alloc: Global,
    mark: B,
    ty: Made<Box<TypeRef<B>>>,
    of: Made<Box<Expr<B>>>,
) -> Made<Box<Expr<B>>>
    ensures { IfOk result (λ x. IsOkAnd ty (λ ty'. IsOkAnd of (λ of'.
        expr_of x.value ≡ tree.cast mark (type_of ty'.value) (expr_of of'.value)))) }
{
    let (ty, of) = both(ty, of)?;
    in_box(alloc, Expr::cast(mark, ty, of))
}

/// A unary operator before its operand.
pub(crate) fn unary<B: Drop>(
    alloc: Global,
    mark: B,
    op: UnOp,
    of: Made<Box<Expr<B>>>,
) -> Made<Box<Expr<B>>>
    ensures { IfOk result (λ x. IsOkAnd of (λ of'.
        expr_of x.value ≡ tree.unary mark op (expr_of of'.value))) }
{
    match of {
        Ok(of) => in_box(alloc, Expr::unary(mark, op, of)),
        Err(error) => {
            drop(mark);
            Err(error)
        }
    }
}

/// An increment or a decrement.
pub(crate) fn bump<B: Drop>(
    alloc: Global,
    mark: B,
    op: BumpOp,
    of: Made<Box<Expr<B>>>,
) -> Made<Box<Expr<B>>>
    ensures { IfOk result (λ x. IsOkAnd of (λ of'.
        expr_of x.value ≡ tree.bump mark op (expr_of of'.value))) }
{
    in_box(alloc, Expr::bump(mark, op, of?))
}

/// A binary operator between its operands.
pub(crate) fn binary<B: Drop>(
    alloc: Global,
    mark: B,
    op: BinOp,
    left: Made<Box<Expr<B>>>,
    right: Made<Box<Expr<B>>>,
) -> Made<Box<Expr<B>>>
    ensures { IfOk result (λ x. IsOkAnd left (λ left'.
        IsOkAnd right (λ right'. expr_of x.value
        ≡ tree.binary mark op (expr_of left'.value) (expr_of right'.value)))) }
{
    let (left, right) = both(left, right)?;
    in_box(alloc, Expr::binary(mark, op, left, right))
}

/// `to = value`.
pub(crate) fn assign<B: Drop>(
    alloc: Global,
    mark: B,
    to: Made<Box<Expr<B>>>,
    value: Made<Box<Expr<B>>>,
) -> Made<Box<Expr<B>>>
    ensures { IfOk result (λ x. IsOkAnd to (λ to'.
        IsOkAnd value (λ value'. expr_of x.value
        ≡ tree.assign mark (expr_of to'.value) (expr_of value'.value)))) }
{
    let (to, value) = both(to, value)?;
    in_box(alloc, Expr::assign(mark, to, value))
}

/// `to op= value`.
pub(crate) fn compound<B: Drop>(
    alloc: Global,
    mark: B,
    op: BinOp,
    to: Made<Box<Expr<B>>>,
    value: Made<Box<Expr<B>>>,
) -> Made<Box<Expr<B>>>
    ensures { IfOk result (λ x. IsOkAnd to (λ to'.
        IsOkAnd value (λ value'. expr_of x.value
        ≡ tree.compound mark op (expr_of to'.value) (expr_of value'.value)))) }
{
    let (to, value) = both(to, value)?;
    in_box(alloc, Expr::compound(mark, op, to, value))
}

/// A string as written, without its quotation marks.
pub(crate) fn string<B: Drop>(alloc: Global, mark: B, text: &Name) -> Made<Box<Expr<B>>>
    ensures { IfOk result (λ x. expr_of x.value ≡ tree.string mark text.now) }
{
    let text = Name::new(alloc, text.as_str())?;
    in_box(alloc, Expr::string(mark, text))
}

/// A call, perhaps on an expression.
pub(crate) fn call<B: Drop>(
    alloc: Global,
    mark: B,
    target: Made<Option<Box<Expr<B>>>>,
    name: Made<Ident<B>>,
    args: Made<Vec<Expr<B>>>,
) -> Made<Box<Expr<B>>>
    ensures { IfOk result (λ x. IsOkAnd target (λ target'.
        IsOkAnd name (λ name'. IsOkAnd args (λ args'.
        expr_of x.value ≡ tree.call mark (target_of target') (word_of name')
        (exprs_of args'.items))))) }
{
    let name = name?;
    let args = args?;
    let target = target?;
    match target {
        None => in_box(alloc, Expr::call(mark, name, args)),
        Some(target) => in_box(alloc, Expr::call_on(mark, target, name, args)),
    }
}

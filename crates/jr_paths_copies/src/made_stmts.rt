//! Statements of parts that were made, in boxes.
ghost use Rattle.std.specs.Prelude.{◌≡◌, option_map};
ghost use Rattle.std.specs.Result.{IfOk, IsOkAnd};
ghost use Rattle.jr_ast.specs.StatementTree as tree;
ghost use Rattle.jr_ast.specs.View.{word_of, type_of, expr_of, else_of, stmt_of, stmts_of};

use crate::made::{Made, both};
use jr_ast::{Expr, Ident, Stmt, TypeRef};
use std::alloc::Global;

/// In a box, at this type alone: at any type, each call of it would cost the check more.
fn in_box<B: Drop>(alloc: Global, stmt: Stmt<B>) -> Made<Box<Stmt<B>>>
    ensures { IfOk result (λ x. x.value ≡ stmt) }
{
    Ok(Box::new(alloc, stmt)?)
}

/// `ty name = init;`, perhaps `final`.
pub(crate) fn local<B: Drop>(
    alloc: Global,
    mark: B,
    is_final: bool,
    ty: Made<TypeRef<B>>,
    name: Made<Ident<B>>,
    init: Made<Box<Expr<B>>>,
) -> Made<Box<Stmt<B>>>
    ensures { IfOk result (λ x. IsOkAnd ty (λ ty'.
        IsOkAnd name (λ name'. IsOkAnd init (λ init'.
        stmt_of x.value ≡ tree.local mark is_final (type_of ty') (word_of name')
        (expr_of init'.value))))) }
{
    let name = name?;
    let init = init?;
    let ty = ty?;
    in_box(
        alloc,
        Stmt::local(mark, is_final, ty, name, Box::into_inner(init)),
    )
}

/// `of;`.
pub(crate) fn eval<B: Drop>(alloc: Global, mark: B, of: Made<Box<Expr<B>>>) -> Made<Box<Stmt<B>>>
    ensures { IfOk result (λ x. IsOkAnd of (λ of'.
        stmt_of x.value ≡ tree.eval mark (expr_of of'.value))) }
{
    in_box(alloc, Stmt::eval(mark, Box::into_inner(of?)))
}

/// `while (condition) body`.
pub(crate) fn while_loop<B: Drop>(
    alloc: Global,
    mark: B,
    condition: Made<Box<Expr<B>>>,
    body: Made<Box<Stmt<B>>>,
) -> Made<Box<Stmt<B>>>
    ensures { IfOk result (λ x. IsOkAnd condition (λ condition'.
        IsOkAnd body (λ body'. stmt_of x.value
        ≡ tree.loop mark (expr_of condition'.value) (stmt_of body'.value)))) }
{
    let (condition, body) = both(condition, body)?;
    in_box(
        alloc,
        Stmt::while_loop(mark, Box::into_inner(condition), body),
    )
}

/// `{ body }`.
pub(crate) fn block<B: Drop>(alloc: Global, mark: B, body: Made<Vec<Stmt<B>>>) -> Made<Box<Stmt<B>>>
    ensures { IfOk result (λ x. IsOkAnd body (λ body'.
        stmt_of x.value ≡ tree.block mark (stmts_of body'.items))) }
{
    in_box(alloc, Stmt::block(mark, body?))
}

/// `synchronized (lock) { body }`.
pub(crate) fn sync<B: Drop>(
    alloc: Global,
    mark: B,
    lock: Made<Box<Expr<B>>>,
    body: Made<Vec<Stmt<B>>>,
) -> Made<Box<Stmt<B>>>
    ensures { IfOk result (λ x. IsOkAnd lock (λ lock'.
        IsOkAnd body (λ body'. stmt_of x.value
        ≡ tree.sync mark (expr_of lock'.value) (stmts_of body'.items)))) }
{
    let (lock, body) = both(lock, body)?;
    in_box(alloc, Stmt::sync(mark, Box::into_inner(lock), body))
}

/// `;`.
pub(crate) fn empty<B: Drop>(alloc: Global, mark: B) -> Made<Box<Stmt<B>>>
    ensures { IfOk result (λ x. stmt_of x.value ≡ tree.empty mark) }
{
    in_box(alloc, Stmt::empty(mark))
}

/// `return value;`, perhaps without a value.
pub(crate) fn return_stmt<B: Drop>(
    alloc: Global,
    mark: B,
    value: Made<Option<Box<Expr<B>>>>,
) -> Made<Box<Stmt<B>>>
    ensures { IfOk result (λ x. IsOkAnd value (λ value'.
        stmt_of x.value ≡ tree.«return» mark (option_map (λ b. expr_of b.value) value'))) }
{
    let value = value?;
    match value {
        None => in_box(alloc, Stmt::return_value(mark, None)),
        Some(value) => in_box(
            alloc,
            Stmt::return_value(mark, Some(Box::into_inner(value))),
        ),
    }
}

/// `if (condition) yes`, perhaps with `else no`.
pub(crate) fn conditional<B: Drop>(
    alloc: Global,
    mark: B,
    condition: Made<Box<Expr<B>>>,
    yes: Made<Box<Stmt<B>>>,
    no: Made<Option<Box<Stmt<B>>>>,
) -> Made<Box<Stmt<B>>>
    ensures { IfOk result (λ x. IsOkAnd condition (λ condition'.
        IsOkAnd yes (λ yes'. IsOkAnd no (λ no'.
        stmt_of x.value ≡ tree.branch mark (expr_of condition'.value) (stmt_of yes'.value)
        (else_of no'))))) }
{
    let condition = condition?;
    let yes = yes?;
    let no = no?;
    match no {
        None => in_box(alloc, Stmt::if_then(mark, Box::into_inner(condition), yes)),
        Some(no) => in_box(
            alloc,
            Stmt::if_else(mark, Box::into_inner(condition), yes, no),
        ),
    }
}

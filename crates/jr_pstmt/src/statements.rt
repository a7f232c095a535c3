//! Statements in boxes, with their marks (JLS 14).
ghost use Rattle.std.specs.Prelude.{◌≡◌, Some, None, IfOk};
ghost use Rattle.jr_ast.specs.Marks.{exp_mark, stmt_mark};
ghost use Rattle.jr_ast.specs.StatementTree as tree;
ghost use Rattle.jr_ast.specs.View.{word_of, type_of, stmt_of, stmts_of};
ghost use Rattle.jr_pexpr.specs.ExpView.{exp_in};
ghost use Rattle.jr_pexpr.specs.Marked.{join};
ghost use Rattle.jr_pstmt.specs.StatementView.{stmt_in, IsStmt};

use crate::made::Made;
use jr_ast::{Expr, Ident, Stmt, TypeRef};
use jr_text::Span;
use std::alloc::Global;

/// In a box, at this type alone: at any type, each call of it would cost the check more.
fn in_box(alloc: Global, stmt: Stmt<Span>) -> Made<Box<Stmt<Span>>>
    ensures { IsStmt result (stmt_of stmt) }
{
    Ok(Box::new(alloc, stmt)?)
}

/// `;` at `at`.
pub(crate) fn empty(alloc: Global, at: Span) -> Made<Box<Stmt<Span>>>
    ensures { IsStmt result (tree.empty at) }
{
    in_box(alloc, Stmt::empty(at))
}

/// `ty name = init;`, perhaps `final`, up to its semicolon.
pub(crate) fn local(
    alloc: Global,
    start: Span,
    at: Span,
    is_final: bool,
    ty: TypeRef<Span>,
    name: Ident<Span>,
    init: Box<Expr<Span>>,
) -> Made<Box<Stmt<Span>>>
    ensures { IsStmt result
        (tree.local (join start at) is_final (type_of ty) (word_of name) (exp_in init)) }
{
    let mark = Span {
        from: start.from,
        to: at.to,
    };
    in_box(
        alloc,
        Stmt::local(mark, is_final, ty, name, Box::into_inner(init)),
    )
}

/// `return;`, up to its semicolon.
pub(crate) fn return_nothing(alloc: Global, start: Span, at: Span) -> Made<Box<Stmt<Span>>>
    ensures { IsStmt result (tree.«return» (join start at) None) }
{
    let mark = Span {
        from: start.from,
        to: at.to,
    };
    in_box(alloc, Stmt::return_value(mark, None))
}

/// `return value;`, up to its semicolon.
pub(crate) fn return_value(
    alloc: Global,
    start: Span,
    at: Span,
    value: Box<Expr<Span>>,
) -> Made<Box<Stmt<Span>>>
    ensures { IsStmt result (tree.«return» (join start at) (Some (exp_in value))) }
{
    let mark = Span {
        from: start.from,
        to: at.to,
    };
    in_box(
        alloc,
        Stmt::return_value(mark, Some(Box::into_inner(value))),
    )
}

/// `of;`, up to its semicolon.
#[tactic(auto, using(crate::proofs::StatementMarks::exp_mark_is))]
pub(crate) fn eval(alloc: Global, at: Span, of: Box<Expr<Span>>) -> Made<Box<Stmt<Span>>>
    ensures { IsStmt result (tree.eval (join (exp_mark (exp_in of)) at) (exp_in of)) }
{
    let mark = Span {
        from: of.mark.from,
        to: at.to,
    };
    in_box(alloc, Stmt::eval(mark, Box::into_inner(of)))
}

/// `{ body }`, up to its closing brace.
pub(crate) fn block(
    alloc: Global,
    start: Span,
    at: Span,
    body: Vec<Stmt<Span>>,
) -> Made<Box<Stmt<Span>>>
    ensures { IsStmt result (tree.block (join start at) (stmts_of body.items)) }
{
    let mark = Span {
        from: start.from,
        to: at.to,
    };
    in_box(alloc, Stmt::block(mark, body))
}

/// `synchronized (lock) { body }`, up to its closing brace.
pub(crate) fn sync(
    alloc: Global,
    start: Span,
    at: Span,
    lock: Box<Expr<Span>>,
    body: Vec<Stmt<Span>>,
) -> Made<Box<Stmt<Span>>>
    ensures { IsStmt result (tree.sync (join start at) (exp_in lock) (stmts_of body.items)) }
{
    let mark = Span {
        from: start.from,
        to: at.to,
    };
    in_box(alloc, Stmt::sync(mark, Box::into_inner(lock), body))
}

/// `if (condition) yes`, which no `else` follows.
#[tactic(auto, using(crate::proofs::StatementMarks::stmt_mark_is))]
pub(crate) fn if_then(
    alloc: Global,
    start: Span,
    condition: Box<Expr<Span>>,
    yes: Box<Stmt<Span>>,
) -> Made<Box<Stmt<Span>>>
    ensures { IsStmt result (tree.branch (join start (stmt_mark (stmt_in yes))) (exp_in condition)
        (stmt_in yes) tree.no_else) }
{
    let mark = Span {
        from: start.from,
        to: yes.mark.to,
    };
    in_box(alloc, Stmt::if_then(mark, Box::into_inner(condition), yes))
}

/// `if (condition) yes else no`.
#[tactic(auto, using(crate::proofs::StatementMarks::stmt_mark_is))]
pub(crate) fn if_else(
    alloc: Global,
    start: Span,
    condition: Box<Expr<Span>>,
    yes: Box<Stmt<Span>>,
    no: Box<Stmt<Span>>,
) -> Made<Box<Stmt<Span>>>
    ensures { IsStmt result (tree.branch (join start (stmt_mark (stmt_in no))) (exp_in condition)
        (stmt_in yes) (tree.otherwise (stmt_in no))) }
{
    let mark = Span {
        from: start.from,
        to: no.mark.to,
    };
    in_box(
        alloc,
        Stmt::if_else(mark, Box::into_inner(condition), yes, no),
    )
}

/// `while (condition) body`.
#[tactic(auto, using(crate::proofs::StatementMarks::stmt_mark_is))]
pub(crate) fn while_loop(
    alloc: Global,
    start: Span,
    condition: Box<Expr<Span>>,
    body: Box<Stmt<Span>>,
) -> Made<Box<Stmt<Span>>>
    ensures { IsStmt result (tree.loop (join start (stmt_mark (stmt_in body))) (exp_in condition)
        (stmt_in body)) }
{
    let mark = Span {
        from: start.from,
        to: body.mark.to,
    };
    in_box(
        alloc,
        Stmt::while_loop(mark, Box::into_inner(condition), body),
    )
}

//! A copy of a tree with other marks: statements.
ghost use Rattle.std.specs.Prelude.{IfOk};
ghost use Rattle.std.specs.Fn.{FnReturnsAt};
ghost use Rattle.jr_paths_copies.specs.Same as same;
ghost use Rattle.jr_ast.specs.View.{else_of, stmt_of, stmts_of};

use crate::expr_marks::{expr, maybe_expr};
use crate::made::{Made, push_made};
use crate::made_stmts;
use crate::marks::{mark_by, ty, word};
use jr_ast::{Stmt, StmtKind};
use std::alloc::Global;

/// A copy, in a box.
#[cycle(stmt_marks)]
pub(crate) fn stmt<B: Drop, A, F: Fn(&A) -> B>(
    alloc: Global,
    of: &Stmt<A>,
    f: &F,
) -> Made<Box<Stmt<B>>>
    requires { F.IsAlwaysCallable f.now }
    ensures { IfOk result (λ x. same.SameStmt (FnReturnsAt F.Fn f.now) (stmt_of of.now)
        (stmt_of x.value)) }
{
    let mark = mark_by(&of.mark, f);
    match &of.kind {
        StmtKind::Local {
            is_final,
            ty: of_type,
            name,
            init,
        } => {
            let of_type = ty(alloc, of_type, f);
            let name = word(alloc, name, f);
            made_stmts::local(alloc, mark, *is_final, of_type, name, expr(alloc, init, f))
        }
        StmtKind::Eval(value) => made_stmts::eval(alloc, mark, expr(alloc, value, f)),
        StmtKind::If(condition, yes, no) => {
            let condition = expr(alloc, condition, f);
            made_stmts::conditional(
                alloc,
                mark,
                condition,
                stmt(alloc, yes, f),
                else_stmt(alloc, no, f),
            )
        }
        StmtKind::While(condition, body) => {
            made_stmts::while_loop(alloc, mark, expr(alloc, condition, f), stmt(alloc, body, f))
        }
        StmtKind::Return(value) => made_stmts::return_stmt(
            alloc,
            mark,
            maybe_expr(alloc, value, f),
        ),
        StmtKind::Block(body) => made_stmts::block(alloc, mark, stmts(alloc, body, f)),
        StmtKind::Sync(lock, body) => {
            made_stmts::sync(alloc, mark, expr(alloc, lock, f), stmts(alloc, body, f))
        }
        StmtKind::Empty => made_stmts::empty(alloc, mark),
    }
}

#[cycle(stmt_marks)]
fn else_stmt<B: Drop, A, F: Fn(&A) -> B>(
    alloc: Global,
    of: &Option<Box<Stmt<A>>>,
    f: &F,
) -> Made<Option<Box<Stmt<B>>>>
    requires { F.IsAlwaysCallable f.now }
    ensures { IfOk result (λ x. same.SameElse (FnReturnsAt F.Fn f.now)
        (else_of of.now) (else_of x)) }
{
    match of {
        None => Ok(None),
        Some(of) => {
            let copy = stmt(alloc, of, f)?;
            Ok(Some(copy))
        }
    }
}

#[cycle(stmt_marks)]
pub(crate) fn stmts<B: Drop, A, F: Fn(&A) -> B>(
    alloc: Global,
    parts: &[Stmt<A>],
    f: &F,
) -> Made<Vec<Stmt<B>>>
    requires { F.IsAlwaysCallable f.now }
    ensures { IfOk result (λ x. same.SameStmts (FnReturnsAt F.Fn f.now) (stmts_of parts.now)
        (stmts_of x.items)) }
{
    let mut copies = Vec::new(alloc);
    for part in parts {
        push_made(&mut copies, stmt(alloc, part, f))?;
    }
    Ok(copies)
}

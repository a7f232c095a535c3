//! Statements as text (JLS 14).
ghost use Rattle.std.specs.Prelude.{◌≡◌, ◌++◌, codes, option_map};
ghost use Rattle.jr_ast.specs.View.{expr_of, stmt_of, stmts_of, else_of};
ghost use Rattle.jr_print.specs.Adds.{Adds};
ghost use Rattle.jr_print.specs.ExpressionText.{printed};
ghost use Rattle.jr_print.specs.StatementText.{printed_stmt, printed_else, printed_stmts};
ghost use Rattle.jr_print.specs.StatementText.{printed_return};

use crate::exprs::expr;
use crate::parts::{put, variable};
use jr_ast::{Expr, Stmt, StmtKind};
use std::alloc::AllocError;

/// An expression and the text behind it.
fn expr_then<A>(out: &mut String, of: &Expr<A>, end: &str) -> Result<(), AllocError>
    ensures { Adds result out.old out.new (printed (expr_of of.now) ++ end.now) }
{
    expr(out, of)?;
    put(out, end)
}

/// `return` with or without a value (JLS 14.17).
fn return_stmt<A>(out: &mut String, value: &Option<Expr<A>>) -> Result<(), AllocError>
    ensures { Adds result out.old out.new (printed_return (option_map expr_of value.now)) }
{
    match value {
        None => put(out, "return;"),
        Some(value) => {
            put(out, "return ")?;
            expr_then(out, value, ";")
        }
    }
}

/// The text of a statement is put behind `out`.
#[cycle(stmt_texts)]
#[tactic(auto, unfolding(jr_ast::specs::View::stmt_kind))]
pub(crate) fn stmt<A>(out: &mut String, of: &Stmt<A>) -> Result<(), AllocError>
    ensures { Adds result out.old out.new (printed_stmt (stmt_of of.now)) }
{
    match &of.kind {
        StmtKind::Local {
            is_final,
            ty,
            name,
            init,
        } => {
            variable(out, *is_final, ty, name)?;
            put(out, " = ")?;
            expr_then(out, init, ";")
        }
        StmtKind::Eval(value) => expr_then(out, value, ";"),
        StmtKind::If(condition, yes, no) => {
            put(out, "if (")?;
            expr_then(out, condition, ") ")?;
            stmt(out, yes)?;
            otherwise(out, no)
        }
        StmtKind::While(condition, body) => {
            put(out, "while (")?;
            expr_then(out, condition, ") ")?;
            stmt(out, body)
        }
        StmtKind::Return(value) => return_stmt(out, value),
        StmtKind::Block(body) => block(out, body),
        StmtKind::Sync(lock, body) => {
            put(out, "synchronized (")?;
            expr_then(out, lock, ") ")?;
            block(out, body)
        }
        StmtKind::Empty => put(out, ";"),
    }
}

#[cycle(stmt_texts)]
fn otherwise<A>(out: &mut String, of: &Option<Box<Stmt<A>>>) -> Result<(), AllocError>
    ensures { Adds result out.old out.new (printed_else (else_of of.now)) }
{
    match of {
        None => Ok(()),
        Some(of) => {
            put(out, " else ")?;
            stmt(out, of)
        }
    }
}

/// A block in its braces (JLS 14.2).
#[cycle(stmt_texts)]
fn block<A>(out: &mut String, body: &[Stmt<A>]) -> Result<(), AllocError>
    ensures { Adds result out.old out.new
        (codes "{" ++ printed_stmts (stmts_of body.now) ++ codes " }") }
{
    put(out, "{")?;
    stmts(out, body)?;
    put(out, " }")
}

/// Statements, each with a space in front of it.
#[cycle(stmt_texts)]
pub(crate) fn stmts<A>(out: &mut String, parts: &[Stmt<A>]) -> Result<(), AllocError>
    ensures { Adds result out.old out.new (printed_stmts (stmts_of parts.now)) }
{
    for part in parts {
        put(out, " ")?;
        stmt(out, part)?;
    }
    Ok(())
}

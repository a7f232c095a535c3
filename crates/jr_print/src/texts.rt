//! Trees as text, laid out as docs/DEFINITIONS.md says.
ghost use Rattle.std.specs.Prelude.{◌≡◌, IfOk, string_bytes};
ghost use Rattle.jr_ast.specs.View.{expr_of, stmt_of, member_of};
ghost use Rattle.jr_print.specs.ExpressionText.{printed};
ghost use Rattle.jr_print.specs.StatementText.{printed_stmt};
ghost use Rattle.jr_print.specs.MemberText.{printed_member};

use crate::exprs::expr;
use crate::members::member;
use crate::stmts::stmt;
use jr_ast::{Expr, Member, Stmt};
use std::alloc::{AllocError, Global};

/// The text of an expression (JLS 15): for one of the grammar, one that reads as it.
/// An `Err` is want of memory.
pub fn expr_text<A>(alloc: Global, of: &Expr<A>) -> Result<String, AllocError>
    ensures { IfOk result (λ text. string_bytes text ≡ printed (expr_of of.now)) }
{
    let mut text = String::new(alloc);
    expr(&mut text, of)?;
    Ok(text)
}

/// The text of a statement (JLS 14): for one of the grammar, one that reads as it.
/// An `Err` is want of memory.
pub fn stmt_text<A>(alloc: Global, of: &Stmt<A>) -> Result<String, AllocError>
    ensures { IfOk result (λ text. string_bytes text ≡ printed_stmt (stmt_of of.now)) }
{
    let mut text = String::new(alloc);
    stmt(&mut text, of)?;
    Ok(text)
}

/// The text of a member of a class (JLS 8.2): for one of the grammar, one that reads as it.
/// An `Err` is want of memory.
pub fn member_text<A>(alloc: Global, of: &Member<A>) -> Result<String, AllocError>
    ensures { IfOk result (λ text. string_bytes text ≡ printed_member (member_of of.now)) }
{
    let mut text = String::new(alloc);
    member(&mut text, of)?;
    Ok(text)
}

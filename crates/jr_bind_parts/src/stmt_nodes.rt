//! Nodes of statements in a tree of types.
ghost use Rattle.std.specs.Prelude.{◌≡◌, ◌≤◌, ◌+◌, ℕ, None, List, length, IfOk, option_map};
ghost use Rattle.jr_ast.specs.View.{expr_of, stmt_of, else_of};
ghost use Rattle.jr_table.specs.Context.{Context};
ghost use Rattle.jr_table.specs.Rows.{Row};
ghost use Rattle.jr_expr_types.specs.Trees.{count};
ghost use Rattle.jr_expr_types.specs.TypedTrees.{stmt_parts};
ghost use Rattle.jr_bind_parts.specs.TypedFlow.{maybe_count, else_count};
ghost use Rattle.jr_bind_expr.specs.TypedSlots.{Puts};

use jr_ast::{Expr, Stmt, StmtKind};
use jr_bind_expr::more_parts;
use jr_expr_types::Types;
use std::alloc::AllocError;

/// How many parts an expression is that may be missing.
pub fn maybe_parts<A>(of: &Option<Expr<A>>) -> usize
    ensures { result ≡ maybe_count (option_map expr_of of.now) }
{
    match of {
        None => 0,
        Some(_) => 1,
    }
}

/// How many parts an `if` has, by what stands behind `else`.
fn branch_parts<A>(of: &Option<Box<Stmt<A>>>) -> usize
    ensures { result ≡ else_count (else_of of.now) + 2 }
{
    match of {
        None => 2,
        Some(_) => 3,
    }
}

/// How many parts a statement has.
#[tactic(auto, unfolding(jr_ast::specs::View::stmt_kind, jr_expr_types::specs::TypedTrees::stmt_parts))]
fn part_count<A>(of: &Stmt<A>) -> Result<usize, AllocError>
    ensures { (rows : List Row) (n : ℕ) (c : Context)
        → IfOk result (λ m. m ≡ count (stmt_parts rows n c (stmt_of of.now))) }
{
    match &of.kind {
        StmtKind::Local {
            is_final: _,
            ty: _,
            name: _,
            init: _,
        } => Ok(3),
        StmtKind::Eval(_) => Ok(1),
        StmtKind::If(_, _, no) => Ok(branch_parts(no)),
        StmtKind::While(_, _) => Ok(2),
        StmtKind::Return(value) => Ok(maybe_parts(value)),
        StmtKind::Block(body) => Ok(body.len()),
        StmtKind::Sync(_, body) => more_parts(body.len(), 1),
        StmtKind::Empty => Ok(0),
    }
}

/// The node of a statement, of its parts, which are the slots behind the first `before` ones.
pub fn close_stmt<A>(before: usize, of: &Stmt<A>, types: &mut Types) -> Result<(), AllocError>
    requires { before ≤ length types.old }
    ensures { (rows : List Row) (n : ℕ) (c : Context) → IfOk result (λ _. Puts before
        (count (stmt_parts rows n c (stmt_of of.now))) None types.old types.new) }
{
    let parts = part_count(of)?;
    types.close(before, parts, None)
}

//! Whether statements complete normally (JLS 14.21).
ghost use Rattle.std.specs.Prelude.{◌≡◌, ◌&&◌, ◌||◌, not};
ghost use Rattle.jr_ast.specs.View.{expr_of};
ghost use Rattle.jr_table.specs.Notes.{is_true_literal};
ghost use Rattle.jr_bind_parts.specs.Flow as pure;

use jr_ast::{Expr, ExprKind};

/// What a walk knows behind a statement.
#[derive(Clone, Copy, Drop)]
pub struct Behind {
    /// The number of the next local.
    pub number: u32,
    /// Whether the statement completes normally, and those before it in its list.
    pub completes: bool,
}

/// Where nothing has been declared, and all is reached.
pub fn reachable_from(number: u32) -> Behind
    ensures { result ≡ pure.reached number }
{
    Behind {
        number,
        completes: true,
    }
}

/// Behind a statement that never completes normally.
pub fn unreachable_from(number: u32) -> Behind
    ensures { result ≡ pure.unreached number }
{
    Behind {
        number,
        completes: false,
    }
}

/// Behind an `if`: the one branch completes normally, or the other.
pub fn behind_branches(yes: Behind, no: Behind) -> Behind
    ensures { result ≡ pure.behind_branches yes no }
{
    Behind {
        number: no.number,
        completes: no.completes | yes.completes,
    }
}

/// Behind a loop, which completes normally unless its condition is `true`.
pub fn behind_loop(body: Behind, is_endless: bool) -> Behind
    ensures { result ≡ pure.behind_loop body is_endless }
{
    Behind {
        number: body.number,
        completes: !is_endless,
    }
}

/// Behind a statement of a list, and those before it.
pub fn behind_both(before: Behind, last: Behind) -> Behind
    ensures { result ≡ pure.behind_both before last }
{
    Behind {
        number: last.number,
        completes: before.completes & last.completes,
    }
}

/// Whether a condition is the literal `true`, within any parentheses.
#[tactic(auto, unfolding(jr_ast::specs::View::expr_kind, jr_table::specs::Notes::is_true_literal))]
pub fn is_true<A>(of: &Expr<A>) -> bool
    ensures { result ≡ is_true_literal (expr_of of.now) }
{
    match &of.kind {
        ExprKind::Bool(value) => *value,
        ExprKind::Paren(part) => is_true(part),
        ExprKind::Int(_) => false,
        ExprKind::Null => false,
        ExprKind::Text(_) => false,
        ExprKind::Simple(_) => false,
        ExprKind::Field(_, _) => false,
        ExprKind::SuperField(_) => false,
        ExprKind::This => false,
        ExprKind::ClassLit(_) => false,
        ExprKind::Call(_, _, _) => false,
        ExprKind::SuperCall(_, _) => false,
        ExprKind::New(_, _) => false,
        ExprKind::Cast(_, _) => false,
        ExprKind::Unary(_, _) => false,
        ExprKind::Bump(_, _) => false,
        ExprKind::Binary(_, _, _) => false,
        ExprKind::Assign(_, _) => false,
        ExprKind::Compound(_, _, _) => false,
    }
}

//! What an expression is to a name's use.
ghost use Rattle.std.specs.Prelude.{◌≡◌};
ghost use Rattle.jr_ast.specs.View.{expr_of};
ghost use Rattle.jr_expr_sites.specs.Aims.{aim_of, aim_view};

use jr_ast::{Expr, ExprKind, Ident};

/// A simple name, a name behind a dot or behind `super`, or something else.
#[derive(Drop)]
pub(crate) enum Aim<'a, A> {
    Name(&'a Ident<A>),
    Dotted(&'a Expr<A>, &'a Ident<A>),
    OnSuper(&'a Ident<A>),
    Other,
}

/// Which of these an expression is.
#[tactic(auto, unfolding(jr_ast::specs::View::expr_kind))]
pub(crate) fn aim_of<A>(of: &Expr<A>) -> Aim<'_, A>
    ensures { aim_view result ≡ aim_of (expr_of of.now) }
{
    match &of.kind {
        ExprKind::Simple(name) => Aim::Name(name),
        ExprKind::Field(part, name) => Aim::Dotted(part, name),
        ExprKind::SuperField(name) => Aim::OnSuper(name),
        ExprKind::Int(_) => Aim::Other,
        ExprKind::Bool(_) => Aim::Other,
        ExprKind::Null => Aim::Other,
        ExprKind::Text(_) => Aim::Other,
        ExprKind::This => Aim::Other,
        ExprKind::ClassLit(_) => Aim::Other,
        ExprKind::Call(_, _, _) => Aim::Other,
        ExprKind::SuperCall(_, _) => Aim::Other,
        ExprKind::New(_, _) => Aim::Other,
        ExprKind::Paren(_) => Aim::Other,
        ExprKind::Cast(_, _) => Aim::Other,
        ExprKind::Unary(_, _) => Aim::Other,
        ExprKind::Bump(_, _) => Aim::Other,
        ExprKind::Binary(_, _, _) => Aim::Other,
        ExprKind::Assign(_, _) => Aim::Other,
        ExprKind::Compound(_, _, _) => Aim::Other,
    }
}

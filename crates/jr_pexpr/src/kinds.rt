//! What an expression is: a target, a primary, a statement expression, a name that can be a type.
ghost use Rattle.std.specs.Prelude.{◌≡◌, IfSome, MatchOption, option_map, nat_lt};
ghost use Rattle.jr_ast.specs.View.{type_of, expr_of};
ghost use Rattle.jr_pexpr.specs.Machine as machine;
ghost use Rattle.jr_grammar.specs.Shape.{level_of};
ghost use Rattle.jr_pexpr.specs.FrameView.{operand_view};
ghost use Rattle.jr_pexpr.specs.ExpView.{exp_in};
ghost use Rattle.jr_pexpr.specs.Starts.{is_simple};
ghost use Rattle.std.specs.Option.{is_some};

use crate::frames::Operand;
use jr_ast::{Expr, ExprKind, TypeKind, TypeRef};
use jr_text::Span;

/// Whether it may be assigned: a name, or a field.
#[tactic(auto, unfolding(jr_ast::specs::View::expr_kind))]
pub(crate) fn is_target(e: &Expr<Span>) -> bool
    ensures { result ≡ machine.is_target (expr_of e.now) }
{
    matches!(
        e.kind,
        ExprKind::Simple(_) | ExprKind::Field(_, _) | ExprKind::SuperField(_)
    )
}

/// Whether it may not stand before a dot.
#[tactic(auto, unfolding(jr_ast::specs::View::expr_kind))]
pub(crate) fn is_low(e: &Expr<Span>) -> bool
    ensures { result ≡ nat_lt (level_of (expr_of e.now)) 10 }
{
    match &e.kind {
        ExprKind::Cast(_, _) => true,
        ExprKind::Unary(_, _) => true,
        ExprKind::Bump(_, _) => true,
        ExprKind::Binary(_, _, _) => true,
        ExprKind::Assign(_, _) => true,
        ExprKind::Compound(_, _, _) => true,
        _ => false,
    }
}

/// Whether it may be a statement (JLS 14.8).
#[tactic(auto, unfolding(jr_ast::specs::View::expr_kind))]
pub(crate) fn is_statement(e: &Expr<Span>) -> bool
    ensures { result ≡ machine.is_statement (expr_of e.now) }
{
    match &e.kind {
        ExprKind::Assign(_, _) => true,
        ExprKind::Compound(_, _, _) => true,
        ExprKind::Bump(_, _) => true,
        ExprKind::Call(_, _, _) => true,
        ExprKind::SuperCall(_, _) => true,
        ExprKind::New(_, _) => true,
        _ => false,
    }
}

/// Whether it is a name of one word.
#[tactic(auto, unfolding(jr_ast::specs::View::expr_kind))]
fn is_simple(e: &Expr<Span>) -> bool
    ensures { result ≡ is_simple (expr_of e.now) }
{
    match &e.kind {
        ExprKind::Simple(_) => true,
        _ => false,
    }
}

/// Whether it is a name of one or two words.
#[tactic(auto, unfolding(jr_ast::specs::View::expr_kind))]
pub(crate) fn is_name_type(e: &Expr<Span>) -> bool
    ensures { result ≡ is_some (machine.name_type (expr_of e.now)) }
{
    match &e.kind {
        ExprKind::Simple(_) => true,
        ExprKind::Field(of, _) => is_simple(of),
        _ => false,
    }
}

/// A name of one or two words as a type.
#[tactic(auto, unfolding(jr_ast::specs::View::expr_kind))]
pub(crate) fn name_type(e: Box<Expr<Span>>) -> Option<TypeRef<Span>>
    ensures { option_map type_of result ≡ machine.name_type (exp_in e) }
{
    let Expr { mark, kind } = Box::into_inner(e);
    match kind {
        ExprKind::Simple(name) => Some(TypeRef {
            mark,
            kind: TypeKind::Named(None, name),
        }),
        ExprKind::Field(of, name) => {
            let Expr { mark: _, kind } = Box::into_inner(of);
            match kind {
                ExprKind::Simple(outer) => Some(TypeRef {
                    mark,
                    kind: TypeKind::Named(Some(outer), name),
                }),
                other => {
                    drop(other);
                    None
                }
            }
        }
        other => {
            drop(other);
            None
        }
    }
}

/// A name in parentheses, which can be a cast's.
#[tactic(auto, unfolding(jr_ast::specs::View::expr_kind))]
pub(crate) fn cast_of(e: Box<Expr<Span>>) -> Option<Operand>
    ensures { option_map operand_view result ≡ machine.cast_of (exp_in e) }
{
    let Expr { mark, kind } = Box::into_inner(e);
    match kind {
        ExprKind::Paren(inner) => match name_type(inner) {
            Some(ty) => Some(Operand::Cast(mark, ty)),
            None => None,
        },
        other => {
            drop(other);
            None
        }
    }
}
